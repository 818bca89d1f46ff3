//! Bytes, texts and numbers.

use crate::answer::{keep, push_bytes, push_made, push_option, push_truth};
use crate::words::{Words, copy_of, some_of};
use gate_bytes::{
    MOST_DIGITS, Text, after, before, eq_fold, find, is_token, push_decimal, read_decimal,
    split_once, trim, up_to,
};
use test_text::{CaseAnswer, CaseFault};

/// Tells the answer of a case with one of these names; whether it has one.
pub fn tell(name: &str, words: Words<'_>, answer: &mut CaseAnswer) -> bool {
    match name {
        "token" => push_truth(answer, is_token(words.whole)),
        "trim" => push_bytes(answer, trim(words.whole)),
        "decimal" => tell_decimal(words, answer),
        "same-fold" => tell_same(words, answer),
        "append-decimal" => tell_appended(words, answer),
        "find" | "up-to" | "split" => tell_parts(name, words.whole, answer),
        "text" => tell_pushed(words, answer),
        "set" => tell_set(words, answer),
        "room" => tell_room(words, answer),
        "copied" => tell_copied(words, answer),
        _ => return false,
    }
    true
}

/// A text with room for so many bytes.
fn tell_room(mut words: Words<'_>, answer: &mut CaseAnswer) {
    let bytes = words.short(answer) as usize;
    push_made(answer, Text::with_room(words.alloc, bytes));
}

/// The number that a text of so many digits at most writes.
fn tell_decimal(mut words: Words<'_>, answer: &mut CaseAnswer) {
    let most = words.short(answer).min(MOST_DIGITS);
    let digits = words.all(answer);
    push_option(answer, read_decimal(digits.as_bytes(), most));
}

/// Whether two words are equal without ASCII case.
fn tell_same(mut words: Words<'_>, answer: &mut CaseAnswer) {
    let one = words.next(answer);
    let other = words.next(answer);
    push_truth(answer, eq_fold(one.as_bytes(), other.as_bytes()));
}

/// A word with a number behind it.
fn tell_appended(mut words: Words<'_>, answer: &mut CaseAnswer) {
    let mut written = words.next(answer);
    let appended = push_decimal(&mut written, words.number(answer));
    keep(answer, appended);
    push_bytes(answer, written.as_bytes());
}

/// What a byte parts the text behind it into: by `find` what stands before its first place, and from there on; by `split`
/// before and behind it; and by `up-to` what stands before it, or all.
fn tell_parts(name: &str, whole: &[u8], answer: &mut CaseAnswer) {
    let [byte, text @ ..] = whole else {
        return answer.unreadable();
    };
    let parts = match name {
        "find" => match find(*byte, text) {
            Some(at) => Some((before(text, at), after(text, at))),
            None => None,
        },
        "split" => split_once(*byte, text),
        _ => return push_bytes(answer, up_to(*byte, text)),
    };
    match parts {
        Some((front, rest)) => {
            push_bytes(answer, front);
            answer.push(b" and ");
            push_bytes(answer, rest);
        }
        None => answer.push(b"none"),
    }
}

/// A text to which words were appended one by one.
fn tell_pushed(mut words: Words<'_>, answer: &mut CaseAnswer) {
    let mut made = Text::new(words.alloc);
    for _ in 0..u64::MAX {
        if words.is_empty() {
            break;
        }
        let appended = made.push_slice(words.next(answer).as_bytes());
        keep(answer, appended);
    }
    answer.push_number(made.len() as u64);
    answer.push(b" bytes, ");
    push_bytes(answer, made.as_bytes());
}

/// The text behind two bytes with the second at the first place of the first.
fn tell_set(words: Words<'_>, answer: &mut CaseAnswer) {
    match words.whole {
        [old, new, text @ ..] => match find(*old, text) {
            Some(at) => {
                let mut copy = copy_of(words.alloc, text, answer);
                if at < copy.len() {
                    copy.set(at, *new);
                }
                push_bytes(answer, copy.as_bytes());
            }
            None => answer.unreadable(),
        },
        _ => answer.unreadable(),
    }
}

/// A copy of a text, or of none where the case has no word.
fn tell_copied(words: Words<'_>, answer: &mut CaseAnswer) {
    match Text::copied(words.alloc, some_of(words.whole)) {
        Ok(Some(copy)) => push_bytes(answer, copy.as_bytes()),
        Ok(None) => answer.push(b"none"),
        Err(_memory) => answer.fail(CaseFault::Memory),
    }
}
