//! How what came is told.

use gate_bytes::{Memory, Text};
use test_text::{CaseAnswer, CaseFault};

/// Tells a word and what bytes mean, in a line of its own.
pub fn tell(word: &[u8], bytes: &[u8], answer: &mut CaseAnswer) {
    answer.push(b"\n= ");
    answer.push(word);
    answer.push_shown(bytes);
}

/// Tells a word and a text, where there was memory for it.
pub fn tell_written(word: &[u8], written: Result<Text, Memory>, answer: &mut CaseAnswer) {
    match written {
        Ok(text) => tell(word, text.as_bytes(), answer),
        Err(_memory) => answer.fail(CaseFault::Memory),
    }
}

/// Appends what bytes mean and a space, or a dash where there are none.
pub fn push_optional(bytes: Option<&[u8]>, answer: &mut CaseAnswer) {
    match bytes {
        Some(bytes) => answer.push_shown(bytes),
        None => answer.push(b"-"),
    }
    answer.push(b" ");
}
