//! Heads.

use crate::answer::{keep, push_bytes, push_named, push_part};
use crate::content::{content_of, fed};
use crate::words::Words;
use gate_bytes::{Text, after, before};
use rtsp_head::{
    Facts, Head, Headers, Item, Length, StartLine, check_head, push_message, read_head,
};
use std::alloc::Global;
use test_text::CaseAnswer;

/// Tells the answer of a case with one of these names; whether it has one.
pub fn tell(name: &str, words: Words<'_>, answer: &mut CaseAnswer) -> bool {
    match name {
        "check" => tell_checked(words.alloc, words.whole, answer),
        "head" => tell_read(words.alloc, words.whole, answer),
        "field" => tell_field(words, answer),
        "item-field" => tell_item_field(words, answer),
        "many-headers" => tell_many(words, answer),
        "message" => tell_message(words, answer),
        _ => return false,
    }
    true
}

/// What a head says of its message, or its first fault.
fn tell_checked(alloc: Global, bytes: &[u8], answer: &mut CaseAnswer) {
    match check_head(bytes) {
        Ok(facts) => push_facts(answer, facts),
        Err(fault) => answer.push_debug(alloc, &fault),
    }
}

/// Tells what a head says of its message.
fn push_facts(answer: &mut CaseAnswer, facts: Facts) {
    if facts.request {
        answer.push(b"request, ");
    } else {
        answer.push(b"response, ");
    }
    match facts.length {
        Length::Absent => answer.push(b"no length"),
        Length::Bad => answer.push(b"bad length"),
        Length::Bytes(bytes) => push_named(answer, b"length ", Some(bytes)),
    }
}

/// The first line of a head, how many headers it has, and how they are written again; or its first fault.
fn tell_read(alloc: Global, bytes: &[u8], answer: &mut CaseAnswer) {
    match read_head(alloc, bytes) {
        Ok(head) => {
            push_counted(answer, &head);
            answer.push(b", written ");
            match head.listed() {
                Some(headers) => push_written(alloc, None, headers, b"", answer),
                None => answer.push(b"nothing"),
            }
        }
        Err(fault) => answer.push_debug(alloc, &fault),
    }
}

/// Tells the first line of a head, and how many headers it has.
fn push_counted(answer: &mut CaseAnswer, head: &Head<'_>) {
    push_start(answer, head.start());
    answer.push(b", ");
    match head.listed() {
        Some(headers) => answer.push_number(headers.len() as u64),
        None => answer.push(b"marked"),
    }
    answer.push(b" headers");
}

/// Tells what a first line says.
fn push_start(answer: &mut CaseAnswer, start: StartLine<'_>) {
    match start {
        StartLine::Request {
            method,
            uri,
            version,
        } => {
            answer.push(b"request");
            push_part(answer, b" ", method);
            push_part(answer, b" ", uri);
            push_part(answer, b" ", version);
        }
        StartLine::Status {
            version,
            code,
            reason,
        } => {
            answer.push(b"status");
            push_part(answer, b" ", version);
            push_named(answer, b" ", Some(u64::from(code)));
            push_part(answer, b" ", reason);
        }
    }
}

/// The value of a head's field.
fn tell_field(mut words: Words<'_>, answer: &mut CaseAnswer) {
    let name = words.next(answer);
    let bytes = words.all(answer);
    match read_head(words.alloc, bytes.as_bytes()) {
        Ok(head) => push_value(answer, head.field(name.as_bytes())),
        Err(fault) => answer.push_debug(words.alloc, &fault),
    }
}

/// The first line of an item's head, whether its headers are found by marks or stand in a list, and the value of a field. The
/// stream comes in two pieces, the first of so many bytes.
fn tell_item_field(mut words: Words<'_>, answer: &mut CaseAnswer) {
    let name = words.next(answer);
    let cut = words.number(answer) as usize;
    let stream = words.all(answer);
    match cut_item(words.alloc, stream.as_bytes(), cut, answer) {
        Some(item) => push_item_field(words.alloc, &item, name.as_bytes(), answer),
        None => answer.unreadable(),
    }
}

/// The first item of a stream that comes in two pieces, the first of so many bytes.
fn cut_item(alloc: Global, stream: &[u8], cut: usize, answer: &mut CaseAnswer) -> Option<Item> {
    let cut = cut.min(stream.len());
    let mut framer = fed(alloc, before(stream, cut), answer);
    let taken = framer.feed(alloc, after(stream, cut));
    keep(answer, taken);
    framer.next()
}

/// Tells the first line of an item's head, and the value of a field with how it was found.
fn push_item_field(alloc: Global, item: &Item, name: &[u8], answer: &mut CaseAnswer) {
    match item.head(alloc) {
        Ok(head) => {
            push_start(answer, head.start());
            answer.push(match head.listed() {
                Some(_) => b", listed: ".as_slice(),
                None => b", marked: ",
            });
            push_value(answer, head.field(name));
        }
        Err(fault) => answer.push_debug(alloc, &fault),
    }
}

/// Tells the value of a field, or that there is none.
fn push_value(answer: &mut CaseAnswer, value: Option<&[u8]>) {
    match value {
        Some(value) => push_bytes(answer, value),
        None => answer.push(b"none"),
    }
}

/// What is said of a head that has a header so many times: by a check, and by reading it.
fn tell_many(mut words: Words<'_>, answer: &mut CaseAnswer) {
    let count = words.number(answer);
    let header = words.next(answer);
    let mut bytes = words.all(answer);
    for _ in 0..count {
        let appended = bytes.push_slice(header.as_bytes());
        keep(answer, appended);
    }
    let ended = bytes.push_slice(b"\r\n");
    keep(answer, ended);
    tell_checked(words.alloc, bytes.as_bytes(), answer);
    answer.push(b"; read ");
    tell_counted(words.alloc, bytes.as_bytes(), answer);
}

/// The first line of a head that is read, and how many headers it has; or its first fault.
fn tell_counted(alloc: Global, bytes: &[u8], answer: &mut CaseAnswer) {
    match read_head(alloc, bytes) {
        Ok(head) => push_counted(answer, &head),
        Err(fault) => answer.push_debug(alloc, &fault),
    }
}

/// What follows the first line of a message with this number and content.
fn tell_message(mut words: Words<'_>, answer: &mut CaseAnswer) {
    let number = words.optional_number();
    let lines = words.all(answer);
    let content = content_of(words.alloc, lines.as_bytes(), answer);
    push_written(words.alloc, number, &content.headers, content.body, answer);
}

/// Tells how what follows a message's first line is written.
fn push_written(
    alloc: Global,
    number: Option<u64>,
    headers: &Headers<'_>,
    body: &[u8],
    answer: &mut CaseAnswer,
) {
    let mut written = Text::new(alloc);
    let appended = push_message(&mut written, number, headers, body);
    keep(answer, appended);
    push_bytes(answer, written.as_bytes());
}
