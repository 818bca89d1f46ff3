//! Readers and writers of std as source and sink, and a run over them. They tell no content: they are the trusted edge.
ghost use Rattle.std.specs.Prelude.{◌≡◌, false, None, map, string_bytes};
ghost use Rattle.gate_outside.specs.Causes.{HasCause};
ghost use Rattle.command_line.specs.Words.{asks_to_serve, word_fault};
ghost use Rattle.rtspgate.specs.Usage.{TellsUsageAfterFlush};

use crate::flush::after_flush;
use crate::gateway::gateway;
use gate_outside::{Failed, Sink, Source};
use run_status::Status;
use serve_world::World;
use std::alloc::Global;
use std::io::{BufWriter, Read, Write};
use std::sync::Wait;
use std::thread::Threads;
use std::time::Clock;

/// A reader as a source.
#[derive(Drop)]
pub struct ReadSource<R: Read> {
    reader: R,
    faults: u64,
}

impl<R: Read> ReadSource<R> {
    /// This reader as a source that has not failed yet.
    pub fn new(reader: R) -> Self
        ensures reader { result.reader ≡ reader }
        ensures faults { result.faults ≡ 0 }
    {
        ReadSource { reader, faults: 0 }
    }
}

impl<R: Read> Source for ReadSource<R> {
    ghost rest = { λ s. None };

    ghost faults = { λ s. s.faults };

    fn read(&mut self, into: &mut [u8]) -> Result<usize, Failed> {
        match self.reader.read(into) {
            Ok(count) => Ok(count),
            Err(_) => {
                self.faults = self.faults.saturating_add(1);
                Err(Failed)
            }
        }
    }
}

/// A writer as a sink. A writer that takes no byte counts as a fault.
#[derive(Drop)]
pub struct WriteSink<W: Write> {
    writer: W,
    faults: u64,
}

impl<W: Write> WriteSink<W> {
    /// This writer as a sink that has not failed yet.
    pub fn new(writer: W) -> Self
        ensures writer { result.writer ≡ writer }
        ensures faults { result.faults ≡ 0 }
    {
        WriteSink { writer, faults: 0 }
    }

    /// Hands on what the writer holds back.
    pub fn flush(&mut self) -> Result<(), Failed>
        ensures { HasCause self.old.faults self.new.faults result }
    {
        match self.writer.flush() {
            Ok(()) => Ok(()),
            Err(_) => {
                self.faults = self.faults.saturating_add(1);
                Err(Failed)
            }
        }
    }
}

impl<W: Write> Sink for WriteSink<W> {
    ghost written = { λ s. None };

    ghost faults = { λ s. s.faults };

    fn write(&mut self, piece: &[u8]) -> Result<usize, Failed> {
        match self.writer.write(piece) {
            Ok(count) if count > 0 => Ok(count),
            _ => {
                self.faults = self.faults.saturating_add(1);
                Err(Failed)
            }
        }
    }
}

/// Does what these words ask for over a reader, a writer and a world, and flushes the writer at the end. A flush that fails
/// makes it [`Status::SinkFault`]. Words that are refused end with [`Status::Usage`], unless memory is
/// wanting or the flush fails; and a command other than `serve` leaves the world alone.
#[tactic(auto, using(crate::proofs::UsageLemmas::flushed_usage, crate::proofs::UsageLemmas::memory_usage))]
pub fn run_between<R: Read, W: Write, O: World, T: Threads + Wait + Clock + Sync>(
    rt: &T,
    alloc: Global,
    words: &[String],
    reader: &mut R,
    writer: &mut W,
    world: &mut O,
) -> Status
    ensures usage { TellsUsageAfterFlush result (word_fault (map string_bytes words.now)) }
    ensures apart { asks_to_serve (map string_bytes words.now) ≡ false
        → O.tally world.new ≡ O.tally world.old }
{
    let Ok(buffered) = BufWriter::new(alloc, writer) else {
        return Status::Memory;
    };
    let mut source = ReadSource::new(reader);
    let mut sink = WriteSink::new(buffered);
    let status = gateway(rt, alloc, words, &mut source, &mut sink, world);
    after_flush(status, sink.flush())
}
