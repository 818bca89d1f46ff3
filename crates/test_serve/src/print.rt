//! What is printed of a run.
ghost use Rattle.std.specs.Prelude.{[]};
ghost use Rattle.gateway_mux.specs.Stands.{Stands};

use gate_bytes::{Memory, Text};
use gate_outside::{MemorySink, MemorySource};
use gate_transcript::{Entry, LONGEST_BODY, write_entry};
use gateway_mux::Mux;
use gateway_replay::replay;
use rtsp_frame::Framer;
use run_status::Status;
use serve_world::MemoryWorld;
use std::alloc::Global;
use test_scenes::calm;
use test_text::{CaseAnswer, CaseFault};

/// Tells the name of a run.
pub fn tell_name(name: &[u8], answer: &mut CaseAnswer) {
    answer.push(b"run ");
    answer.push(name);
    answer.push(b"\n");
}

/// Tells how a run ended, and whether somebody waited in vain.
pub fn tell_end(alloc: Global, status: Status, was_in_vain: bool, answer: &mut CaseAnswer) {
    answer.push(b"ended with ");
    answer.push_number(u64::from(status.exit_code()));
    answer.push(b": ");
    answer.push_display(alloc, &status);
    answer.push(b"\n");
    if was_in_vain {
        answer.push(b"somebody waited in vain\n");
    }
}

/// Tells the report of a run, and what everybody was handed: the server, and the players in the order in which their links came
/// back.
pub fn tell_run(alloc: Global, report: &[u8], world: &MemoryWorld, answer: &mut CaseAnswer) {
    answer.push(report);
    if let Some(link) = world.upstream() {
        tell_handed(alloc, b"server", link.outlet.as_bytes(), answer);
    }
    if let Some(door) = world.door() {
        for link in door.returned() {
            tell_handed(alloc, b"player", link.outlet.as_bytes(), answer);
        }
    }
}

/// Tells how much one was handed, and each message and frame of it.
fn tell_handed(alloc: Global, who: &[u8], handed: &[u8], answer: &mut CaseAnswer) {
    answer.push(who);
    answer.push(b" was handed ");
    answer.push_number(handed.len() as u64);
    answer.push(b"\n");
    let mut framer = Framer::new(alloc);
    match framer.feed(alloc, handed) {
        Ok(()) => tell_messages(&mut framer, handed, answer),
        Err(_refused) => answer.fail(CaseFault::Memory),
    }
}

/// Tells each message and frame in its line, and what is left behind them, if anything is.
fn tell_messages(framer: &mut Framer, handed: &[u8], answer: &mut CaseAnswer) {
    let mut told: usize = 0;
    for _ in 0..handed.len() {
        let Some(item) = framer.next() else { break };
        answer.push_shown(item.bytes.as_bytes());
        answer.push(b"\n");
        told = told.saturating_add(item.bytes.len());
    }
    match handed.get(told..) {
        Some(left) if !left.is_empty() => {
            answer.push(b"left ");
            answer.push_shown(left);
            answer.push(b"\n");
        }
        _ => {}
    }
}

/// Replays what was recorded, and tells how that ends and its records.
pub fn tell_replay(alloc: Global, core: Mux, world: &MemoryWorld, answer: &mut CaseAnswer)
    requires { Stands core [] }
{
    let Some(recorder) = world.transcript() else {
        return;
    };
    match transcript(alloc, recorder.as_slice()) {
        Ok(bytes) => tell_records(alloc, core, bytes, answer),
        Err(Memory) => answer.fail(CaseFault::Memory),
    }
}

/// Replays a transcript, and tells how that ends and its records.
fn tell_records(alloc: Global, core: Mux, bytes: Text, answer: &mut CaseAnswer)
    requires { Stands core [] }
{
    let mut source = MemorySource::new(bytes, calm(alloc));
    let mut sink = MemorySink::new(alloc, calm(alloc));
    let status = replay(alloc, core, &mut source, &mut sink);
    answer.push(b"replayed with ");
    answer.push_number(u64::from(status.exit_code()));
    answer.push(b"\n");
    answer.push_records(sink.as_bytes());
}

/// Entries as a transcript.
fn transcript(alloc: Global, entries: &[Entry]) -> Result<Text, Memory> {
    let mut text = Text::copy(alloc, b"RTSPGW1\n")?;
    push_entries(alloc, entries, &mut text)?;
    Ok(text)
}

/// Appends entries.
fn push_entries(alloc: Global, entries: &[Entry], text: &mut Text) -> Result<(), Memory> {
    for entry in entries {
        let body = entry.body.as_bytes();
        if body.len() <= LONGEST_BODY as usize {
            let entry = write_entry(alloc, entry.kind, entry.conn, body)?;
            text.push_slice(entry.as_bytes())?;
        }
    }
    Ok(())
}
