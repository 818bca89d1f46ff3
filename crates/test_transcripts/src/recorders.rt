//! Entries are noted.

use crate::entries::push_entry_read;
use crate::replays::script;
use gate_bytes::{Text, after};
use gate_outside::MemorySink;
use gate_transcript::{
    Entry, EntryReader, LONGEST_BODY, MAGIC_LENGTH, MemoryRecorder, Recorder, TranscriptRecorder,
};
use std::alloc::Global;
use test_text::{CaseAnswer, CaseFault};

/// The most bytes that one write of a sink moves.
const PIECE: u64 = 7;

/// Notes each entry of a transcript, and answers how many were noted.
fn noted<R: Recorder>(alloc: Global, recorder: &mut R, transcript: &[u8]) -> u64 {
    let mut noted = 0u64;
    let mut reader = EntryReader::new(alloc);
    let _ = reader.feed(transcript);
    for _ in 0..transcript.len() {
        let Ok(Some(entry)) = reader.next(alloc, &mut Text::new(alloc)) else {
            break;
        };
        noted = noted.saturating_add(u64::from(is_noted(recorder, &entry)));
    }
    noted
}

/// Notes an entry, and answers whether that went well.
fn is_noted<R: Recorder>(recorder: &mut R, entry: &Entry) -> bool {
    let body = entry.body.as_bytes();
    body.len() <= LONGEST_BODY as usize && recorder.note(entry.kind, entry.conn, body).is_ok()
}

/// Notes the entries of a transcript into a sink whose call with a number fails, and tells how many were noted and what the
/// sink holds.
pub fn tell_recorded(alloc: Global, transcript: &[u8], call: u64, answer: &mut CaseAnswer) {
    let Ok(script) = script(alloc, PIECE, call) else {
        return answer.fail(CaseFault::Memory);
    };
    match TranscriptRecorder::start(MemorySink::new(alloc, script)) {
        Ok(mut recorder) => {
            push_noted(noted(alloc, &mut recorder, transcript), answer);
            let sink = recorder.into_sink();
            let written = sink.as_bytes();
            answer.push_records(after(written, MAGIC_LENGTH.min(written.len())));
        }
        Err((sink, _failed)) => {
            answer.push(b"# not begun: ");
            answer.push_shown(sink.as_bytes());
        }
    }
}

/// Notes the entries of a transcript into a recorder in memory whose note with a number fails, and tells how many were noted
/// and which are kept.
pub fn tell_kept(alloc: Global, transcript: &[u8], call: u64, answer: &mut CaseAnswer) {
    let Ok(script) = script(alloc, PIECE, call) else {
        return answer.fail(CaseFault::Memory);
    };
    let mut recorder = MemoryRecorder::new(alloc, script);
    push_noted(noted(alloc, &mut recorder, transcript), answer);
    for entry in recorder.as_slice() {
        push_entry_read(alloc, entry, answer);
    }
}

/// Appends how many entries were noted.
fn push_noted(noted: u64, answer: &mut CaseAnswer) {
    answer.push(b"# noted: ");
    answer.push_number(noted);
    answer.push(b"\n");
}
