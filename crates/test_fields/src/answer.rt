//! How answers are told.

use gate_bytes::{Memory, Text, is_token};
use test_text::{CaseAnswer, CaseFault};

/// The most bytes of a part that is shown.
const MOST_SHOWN: usize = 1_024;

/// Tells bytes: a token as it is, other bytes in the notation of cases, `empty` for none, and for very many how many they
/// are.
pub fn push_bytes(answer: &mut CaseAnswer, bytes: &[u8]) {
    if bytes.is_empty() {
        answer.push(b"empty");
    } else if bytes.len() > MOST_SHOWN {
        answer.push_number(bytes.len() as u64);
        answer.push(b" bytes");
    } else if is_token(bytes) {
        answer.push(bytes);
    } else {
        answer.push_shown(bytes);
    }
}

/// Tells a part behind its name, where it has a byte.
pub fn push_part(answer: &mut CaseAnswer, name: &[u8], bytes: &[u8]) {
    if !bytes.is_empty() {
        answer.push(name);
        push_bytes(answer, bytes);
    }
}

/// Tells a text that was written.
pub fn push_made(answer: &mut CaseAnswer, made: Result<Text, Memory>) {
    match made {
        Ok(text) => push_bytes(answer, text.as_bytes()),
        Err(_memory) => answer.fail(CaseFault::Memory),
    }
}

/// Keeps that memory was wanting, where it was.
pub fn keep(answer: &mut CaseAnswer, done: Result<(), Memory>) {
    if done.is_err() {
        answer.fail(CaseFault::Memory);
    }
}

/// Tells `yes` or `no`.
pub fn push_truth(answer: &mut CaseAnswer, truth: bool) {
    if truth {
        answer.push(b"yes");
    } else {
        answer.push(b"no");
    }
}

/// Tells a number, and `none` where there is none.
pub fn push_option(answer: &mut CaseAnswer, number: Option<u64>) {
    match number {
        Some(number) => answer.push_number(number),
        None => answer.push(b"none"),
    }
}

/// Tells a short number, and `none` where there is none.
pub fn push_short(answer: &mut CaseAnswer, number: Option<u32>) {
    push_option(answer, number.map(u64::from));
}

/// Tells a number behind its name, where there is one.
pub fn push_named(answer: &mut CaseAnswer, name: &[u8], number: Option<u64>) {
    if let Some(number) = number {
        answer.push(name);
        answer.push_number(number);
    }
}
