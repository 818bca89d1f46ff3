//! The entries of a transcript.

use crate::target::keep;
use gate_bytes::Text;
use gate_transcript::{
    BadEntry, Entry, EntryFault, EntryKind, EntryReader, LONGEST_BODY, end_reason_in, write_entry,
};
use std::alloc::Global;
use std::str;
use test_text::{CaseAnswer, CaseFault, first_number, first_word, meant};

/// Tells the entries of a transcript that is read in pieces of a size, and its first fault.
pub fn tell_entries(alloc: Global, transcript: &[u8], size: usize, answer: &mut CaseAnswer) {
    let mut reader = EntryReader::new(alloc);
    for piece in transcript.chunks(size.max(1)) {
        tell_piece(alloc, &mut reader, piece, answer);
    }
    push_bad(alloc, b"# bad at ", reader.finish().err(), answer);
}

/// Feeds a reader a piece, and tells the entries that it can give then: as many as bytes were fed, at most.
fn tell_piece(alloc: Global, reader: &mut EntryReader, piece: &[u8], answer: &mut CaseAnswer) {
    if reader.feed(piece).is_err() {
        return answer.fail(CaseFault::Memory);
    }
    for _ in 0..piece.len() {
        match tell_next(alloc, reader, answer) {
            Ok(true) => {}
            _ => break,
        }
    }
}

/// Tells the next entry of a reader: whether there is one, or the fault that stands in its place.
fn tell_next(
    alloc: Global,
    reader: &mut EntryReader,
    answer: &mut CaseAnswer,
) -> Result<bool, BadEntry> {
    match reader.next(alloc, &mut Text::new(alloc)) {
        Ok(Some(entry)) => {
            push_entry_read(alloc, &entry, answer);
            Ok(true)
        }
        Ok(None) => Ok(false),
        Err(EntryFault::Bad(bad)) => Err(bad),
        Err(EntryFault::Memory) => {
            answer.fail(CaseFault::Memory);
            Ok(false)
        }
    }
}

/// Appends a line for an entry, as it is written.
pub fn push_entry_read(alloc: Global, entry: &Entry, answer: &mut CaseAnswer) {
    let body = entry.body.as_bytes();
    if body.len() > LONGEST_BODY as usize {
        return answer.unreadable();
    }
    match write_entry(alloc, entry.kind, entry.conn, body) {
        Ok(bytes) => answer.push_records(bytes.as_bytes()),
        Err(_memory) => answer.fail(CaseFault::Memory),
    }
}

/// Appends what is wrong with a transcript, where something is.
fn push_bad(alloc: Global, front: &[u8], bad: Option<BadEntry>, answer: &mut CaseAnswer) {
    if let Some(bad) = bad {
        answer.push(front);
        answer.push_number(bad.place);
        answer.push(b": ");
        answer.push_debug(alloc, &bad.kind);
        answer.push(b"\n");
    }
}

/// Makes the call of a line at a reader, and tells what it answers: nothing where there is no entry yet, or where the
/// transcript is whole.
pub fn call_reader(alloc: Global, reader: &mut EntryReader, line: &[u8], answer: &mut CaseAnswer) {
    let (word, rest) = first_word(line);
    match str::from_utf8(word).unwrap_or("") {
        "feed" => keep(feed(alloc, reader, rest), answer),
        "next" => {
            let next = tell_next(alloc, reader, answer);
            push_bad(alloc, b"bad at ", next.err(), answer);
        }
        "finish" => push_bad(alloc, b"bad at ", reader.finish().err(), answer),
        _ => answer.unreadable(),
    }
}

/// Feeds a reader the bytes that a text means.
fn feed(alloc: Global, reader: &mut EntryReader, text: &[u8]) -> Result<(), CaseFault> {
    Ok(reader.feed(meant(alloc, text)?.as_bytes())?)
}

/// Tells the reason of a server's end that some bytes are.
pub fn tell_reason(alloc: Global, line: &[u8], answer: &mut CaseAnswer) {
    match end_reason_in(line) {
        Some(reason) => answer.push_debug(alloc, &reason),
        None => answer.push(b"none"),
    }
}

/// Tells the entry of a player's bytes, as it is written.
pub fn tell_written(alloc: Global, line: &[u8], answer: &mut CaseAnswer) {
    let (conn, body) = first_number(line).unwrap_or((0, b""));
    if body.len() > LONGEST_BODY as usize {
        return answer.unreadable();
    }
    let conn = u32::try_from(conn).unwrap_or(0);
    match write_entry(alloc, EntryKind::Client, conn, body) {
        Ok(bytes) => answer.push_shown(bytes.as_bytes()),
        Err(_memory) => answer.fail(CaseFault::Memory),
    }
}
