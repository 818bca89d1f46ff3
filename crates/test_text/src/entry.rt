//! Entries of transcripts, and records: a line is a kind, a connection's number and a body.

use crate::{CaseFault, first_number, first_word, meant, push_hex, push_meant, push_shown};
use gate_bytes::{Memory, Text, push_decimal};
use std::alloc::Global;

/// One entry, or one record.
#[derive(Clone, Copy)]
struct EntryLine<'a> {
    kind: u8,
    connection: u32,
    body: &'a [u8],
}

/// Appends the bytes of the entry or record that a line is, or those that a line `raw BODY` gives. The kinds `U`, `Z`, `Y`
/// and `F` are of the server's side: their lines have no connection.
pub fn push_entry(alloc: Global, bytes: &mut Text, line: &[u8]) -> Result<(), CaseFault> {
    let (word, rest) = first_word(line);
    if word == b"raw".as_slice() {
        return push_meant(bytes, rest);
    }
    let [kind] = word else {
        return Err(CaseFault::Unreadable);
    };
    if !kind.is_ascii_uppercase() {
        return Err(CaseFault::Unreadable);
    }
    let (connection, text) = if is_of_server(*kind) {
        (0, rest)
    } else {
        first_number(rest).ok_or(CaseFault::Unreadable)?
    };
    let Ok(connection) = u32::try_from(connection) else {
        return Err(CaseFault::Unreadable);
    };
    let body = meant(alloc, text)?;
    push_spelled(bytes, *kind, connection, body.as_bytes())
}

/// Appends an entry or a record.
fn push_spelled(bytes: &mut Text, kind: u8, connection: u32, body: &[u8]) -> Result<(), CaseFault> {
    let Ok(length) = u32::try_from(body.len()) else {
        return Err(CaseFault::Unreadable);
    };
    bytes.push_slice(&[kind])?;
    bytes.push_slice(&connection.to_be_bytes())?;
    bytes.push_slice(&length.to_be_bytes())?;
    bytes.push_slice(body)?;
    Ok(())
}

/// Whether entries or records of a kind have no connection.
fn is_of_server(kind: u8) -> bool {
    matches!(kind, b'U' | b'Z' | b'Y' | b'F')
}

/// Appends a line for each entry or record, and one for what is no whole one at the end.
pub fn push_records(text: &mut Text, records: &[u8]) -> Result<(), Memory> {
    let mut left = records;
    for _ in 0..records.len() {
        if left.is_empty() {
            break;
        }
        let Some((entry, rest)) = next_entry(left) else {
            text.push_slice(b"raw hex:")?;
            push_hex(text, left)?;
            return text.push_slice(b"\n");
        };
        push_line(text, &entry)?;
        left = rest;
    }
    Ok(())
}

/// The first entry or record, where it is whole, and what is left behind it.
fn next_entry(bytes: &[u8]) -> Option<(EntryLine<'_>, &[u8])> {
    let [kind, a, b, c, d, e, f, g, h, rest @ ..] = bytes else {
        return None;
    };
    let connection = u32::from_be_bytes([*a, *b, *c, *d]);
    let length = u32::from_be_bytes([*e, *f, *g, *h]) as usize;
    if length > rest.len() {
        return None;
    }
    let (body, left) = rest.split_at(length);
    let entry = EntryLine {
        kind: *kind,
        connection,
        body,
    };
    Some((entry, left))
}

/// Appends an entry or a record as a line.
fn push_line(text: &mut Text, entry: &EntryLine<'_>) -> Result<(), Memory> {
    text.push_slice(&[entry.kind])?;
    if !is_of_server(entry.kind) {
        text.push_slice(b" ")?;
        push_decimal(text, u64::from(entry.connection))?;
    }
    if !entry.body.is_empty() {
        text.push_slice(b" ")?;
        push_shown(text, entry.body)?;
    }
    text.push_slice(b"\n")
}
