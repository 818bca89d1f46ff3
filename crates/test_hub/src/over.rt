//! What is left once a hub is closed.

use crate::stage::{calm, new_mux};
use gate_bytes::Text;
use gate_outside::{MemorySink, MemorySource};
use gate_transcript::{Entry, LONGEST_BODY, MAGIC, MemoryRecorder, write_entry};
use gateway_hub::Receipts;
use gateway_replay::replay;
use run_status::Status;
use std::alloc::Global;
use std::str;
use test_text::{CaseAnswer, CaseFault, first_number, first_word};

/// What a closed hub gave back.
#[derive(Drop)]
pub struct Over {
    /// The recorder.
    pub recorder: MemoryRecorder,
    /// The receipts.
    pub receipts: Receipts,
}

impl Over {
    /// Makes the call of a line, and tells what came.
    pub fn call(&self, alloc: Global, line: &[u8], answer: &mut CaseAnswer) {
        let (word, more) = word_in(line);
        let entries = self.recorder.as_slice();
        match word {
            "noted" => tell_noted(alloc, entries, answer),
            "noted-last" => match first_number(more) {
                Some((count, _)) => tell_last(alloc, entries, count, answer),
                None => answer.unreadable(),
            },
            "replayed" => tell_replayed(alloc, entries, answer),
            "receipts" => answer.push_debug(alloc, &self.receipts.count()),
            "receipt" => tell_receipt(alloc, &self.receipts, more, answer),
            _ => answer.unreadable(),
        }
    }
}

/// The receipt of the connection of a line is told.
fn tell_receipt(alloc: Global, receipts: &Receipts, more: &[u8], answer: &mut CaseAnswer) {
    match connection_in(more) {
        Some((connection, _)) => answer.push_debug(alloc, &receipts.get(connection)),
        None => answer.unreadable(),
    }
}

/// The first word of a line, and what stands behind it. A word that is no UTF-8 is empty.
pub fn word_in(line: &[u8]) -> (&str, &[u8]) {
    let (word, more) = first_word(line);
    (str::from_utf8(word).unwrap_or(""), more)
}

/// The number of a connection, and what stands behind it.
pub fn connection_in(line: &[u8]) -> Option<(u32, &[u8])> {
    let (number, more) = first_number(line)?;
    match u32::try_from(number) {
        Ok(connection) => Some((connection, more)),
        Err(_) => None,
    }
}

/// Entries are told, each in a line below.
fn tell_noted(alloc: Global, entries: &[Entry], answer: &mut CaseAnswer) {
    match spelled(alloc, b"", entries).done() {
        Ok(bytes) => {
            answer.push(b"\n");
            answer.push_records(bytes.as_bytes());
        }
        Err(fault) => answer.fail(fault),
    }
}

/// How many entries there are is told, and the last ones, so many of them.
fn tell_last(alloc: Global, entries: &[Entry], count: u64, answer: &mut CaseAnswer) {
    answer.push_number(entries.len() as u64);
    let left_out = (entries.len() as u64).saturating_sub(count);
    match entries.get(left_out as usize..) {
        Some(last) => tell_noted(alloc, last, answer),
        None => answer.unreadable(),
    }
}

/// The bytes of entries as a transcript has them, behind these bytes.
fn spelled(alloc: Global, front: &[u8], entries: &[Entry]) -> CaseAnswer {
    let mut bytes = CaseAnswer::new(alloc);
    bytes.push(front);
    for entry in entries {
        let body = entry.body.as_bytes();
        if body.len() <= LONGEST_BODY as usize {
            match write_entry(alloc, entry.kind, entry.conn, body) {
                Ok(entry) => bytes.push(entry.as_bytes()),
                Err(_memory) => bytes.fail(CaseFault::Memory),
            }
        }
    }
    bytes
}

/// How the replay of entries by a new multiplexer ends is told, and its records, each in a line below.
fn tell_replayed(alloc: Global, entries: &[Entry], answer: &mut CaseAnswer) {
    match spelled(alloc, &MAGIC, entries).done() {
        Ok(bytes) => {
            let mut sink = MemorySink::new(alloc, calm(alloc));
            match replay_to(alloc, bytes, &mut sink) {
                Ok(status) => answer.push_debug(alloc, &status),
                Err(fault) => answer.fail(fault),
            }
            answer.push(b"\n");
            answer.push_records(sink.as_bytes());
        }
        Err(fault) => answer.fail(fault),
    }
}

/// How the replay of a transcript by a new multiplexer ends, whose records go into a sink.
fn replay_to(alloc: Global, bytes: Text, sink: &mut MemorySink) -> Result<Status, CaseFault> {
    let mux = new_mux(alloc)?;
    let mut source = MemorySource::new(bytes, calm(alloc));
    Ok(replay(alloc, mux, &mut source, sink))
}
