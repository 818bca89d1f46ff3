//! Transcripts are replayed.

use crate::entries::tell_entries;
use crate::gateway::{bases, gateway};
use crate::refuser::Refuser;
use crate::target::number_in;
use gate_bytes::{Memory, Text};
use gate_outside::{MemorySink, MemorySource, Numbers, Script};
use gateway_replay::replay;
use run_status::Status;
use std::alloc::Global;
use test_text::{CaseAnswer, CaseFault, first_word};

/// The size of the pieces in which a transcript is read first.
const LARGE_PIECE: u64 = 4096;

/// So many calls of a source or of a sink are tried at most.
const MOST_CALLS: u64 = 1_000;

/// What is done with a transcript.
#[derive(Clone, Copy)]
pub enum How {
    /// It is replayed through the multiplexer.
    Replay,
    /// It is replayed through a core that refuses every request.
    Refuse,
    /// Its entries are read.
    Read,
}

/// How a source and a sink are cut: the most bytes that a call moves, and the number of the call that fails.
#[derive(Clone, Copy)]
pub struct Cuts {
    read: u64,
    write: u64,
    failing_read: u64,
    failing_write: u64,
}

impl Cuts {
    /// The cuts that a line says.
    pub fn read(line: &[u8]) -> Cuts {
        let (read, line) = first_word(line);
        let (write, line) = first_word(line);
        let (failing_read, failing_write) = first_word(line);
        Cuts {
            read: number_in(read),
            write: number_in(write),
            failing_read: number_in(failing_read),
            failing_write: number_in(failing_write),
        }
    }
}

/// Tells what a transcript gives in large pieces, and where pieces of other sizes make a difference.
pub fn tell_pieces(
    alloc: Global,
    how: How,
    transcript: &[u8],
    sizes: &[u64],
    answer: &mut CaseAnswer,
) {
    let whole = told(alloc, how, transcript, LARGE_PIECE);
    answer.push(whole.as_bytes());
    for size in sizes {
        let other = told(alloc, how, transcript, *size);
        push_difference(*size, whole.as_bytes(), other.as_bytes(), answer);
    }
}

/// Appends what pieces of a size give, where that is something else.
fn push_difference(size: u64, whole: &[u8], other: &[u8], answer: &mut CaseAnswer) {
    if other != whole {
        answer.push(b"# in pieces of ");
        answer.push_number(size);
        answer.push(b":\n");
        answer.push(other);
    }
}

/// What a transcript gives in pieces of a size.
fn told(alloc: Global, how: How, transcript: &[u8], size: u64) -> CaseAnswer {
    let mut answer = CaseAnswer::new(alloc);
    match how {
        How::Read => tell_entries(alloc, transcript, size as usize, &mut answer),
        _ => {
            let cuts = Cuts {
                read: size,
                write: size,
                failing_read: u64::MAX,
                failing_write: u64::MAX,
            };
            tell_replay(alloc, how, transcript, &cuts, &mut answer);
        }
    }
    answer
}

/// Replays a transcript, and tells its records and its fault line.
pub fn tell_replay(
    alloc: Global,
    how: How,
    transcript: &[u8],
    cuts: &Cuts,
    answer: &mut CaseAnswer,
) {
    match ends(alloc, transcript, cuts) {
        Ok((mut source, mut sink)) => {
            let status = replayed(alloc, how, &mut source, &mut sink);
            answer.push_records(sink.as_bytes());
            push_fault(alloc, status, answer);
        }
        Err(_memory) => answer.fail(CaseFault::Memory),
    }
}

/// Which calls fail.
#[derive(Clone, Copy)]
enum Failing {
    /// Those of the source.
    Reads,
    /// Those of the sink.
    Writes,
}

/// Replays a transcript in pieces of this size, with each call of the source failing, one in a replay, and then with each of
/// the sink. Tells how each ends and how many of the first bytes of its records were written.
pub fn tell_failures(alloc: Global, transcript: &[u8], size: u64, answer: &mut CaseAnswer) {
    let none = Cuts {
        read: size,
        write: size,
        failing_read: u64::MAX,
        failing_write: u64::MAX,
    };
    match ends(alloc, transcript, &none) {
        Ok((mut source, mut sink)) => {
            let _done = replayed(alloc, How::Replay, &mut source, &mut sink);
            let records = sink.as_bytes();
            tell_failing(alloc, transcript, &none, Failing::Reads, records, answer);
            tell_failing(alloc, transcript, &none, Failing::Writes, records, answer);
        }
        Err(_memory) => answer.fail(CaseFault::Memory),
    }
}

/// The same of the calls of one of the two.
fn tell_failing(
    alloc: Global,
    transcript: &[u8],
    none: &Cuts,
    failing: Failing,
    records: &[u8],
    answer: &mut CaseAnswer,
) {
    for number in 0..MOST_CALLS {
        let mut cuts = *none;
        match failing {
            Failing::Reads => {
                cuts.failing_read = number;
                answer.push(b"read ");
            }
            Failing::Writes => {
                cuts.failing_write = number;
                answer.push(b"write ");
            }
        }
        answer.push_number(number);
        if !tell_failure(alloc, transcript, &cuts, records, answer) {
            return;
        }
    }
}

/// Replays a transcript, and tells how that ends and how many of the first bytes of these records were written. Whether a call
/// failed.
fn tell_failure(
    alloc: Global,
    transcript: &[u8],
    cuts: &Cuts,
    records: &[u8],
    answer: &mut CaseAnswer,
) -> bool {
    let Ok((mut source, mut sink)) = ends(alloc, transcript, cuts) else {
        answer.fail(CaseFault::Memory);
        return false;
    };
    let status = replayed(alloc, How::Replay, &mut source, &mut sink);
    let written = sink.as_bytes();
    if status == Status::Done {
        answer.push(b" is not made\n");
        return false;
    }
    answer.push(b": ");
    answer.push_display(alloc, &status);
    answer.push(b", ");
    answer.push_number(written.len() as u64);
    answer.push(if records.starts_with(written) {
        b" bytes of its records\n"
    } else {
        b" bytes of something else\n"
    });
    true
}

/// Appends the fault line of a replay, where it has one.
fn push_fault(alloc: Global, status: Status, answer: &mut CaseAnswer) {
    if status != Status::Done {
        answer.push(b"# fault: ");
        answer.push_display(alloc, &status);
        answer.push(b"\n");
    }
}

/// A source of a transcript, and a sink.
fn ends(
    alloc: Global,
    transcript: &[u8],
    cuts: &Cuts,
) -> Result<(MemorySource, MemorySink), Memory> {
    let reads = script(alloc, cuts.read, cuts.failing_read)?;
    let writes = script(alloc, cuts.write, cuts.failing_write)?;
    let source = MemorySource::new(Text::copy(alloc, transcript)?, reads);
    Ok((source, MemorySink::new(alloc, writes)))
}

/// How a replay ends: one through a core that refuses all requests, or one through a multiplexer.
fn replayed(alloc: Global, how: How, source: &mut MemorySource, sink: &mut MemorySink) -> Status {
    match how {
        How::Refuse => match bases(alloc) {
            Ok(bases) => replay(alloc, Refuser::new(alloc, bases), source, sink),
            Err(_memory) => Status::Memory,
        },
        _ => match gateway(alloc) {
            Ok(mux) => replay(alloc, mux, source, sink),
            Err(_memory) => Status::Memory,
        },
    }
}

/// A script of pieces of at most this size, or of one byte where it is 0, in which the call with a number fails.
pub fn script(alloc: Global, piece: u64, fails: u64) -> Result<Script, Memory> {
    let mut numbers = Numbers::new(alloc);
    if let Err((_, memory)) = numbers.push(fails) {
        return Err(memory);
    }
    Ok(Script {
        fails: numbers,
        waits: Numbers::new(alloc),
        idle: None,
        piece: (piece as usize).max(1),
    })
}
