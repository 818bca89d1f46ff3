//! The top call, over any source and sink: it reads the words of the command line and runs the command that they name.
ghost use Rattle.std.specs.Prelude.{◌≡◌, ◌≤◌, ◌+◌, Some, map, string_bytes};
ghost use Rattle.run_status.specs.declared.status.Status.TheVariants as ends;
ghost use Rattle.command_line.specs.Words.{word_fault};
ghost use Rattle.rtspgate.specs.Usage.{plain_fault, TellsUsage};
ghost use Rattle.rtspgate.specs.Stops.{status_of_words};
ghost use Rattle.rtspgate.specs.Commands.{PlainSays, CommandSays};
ghost use Rattle.gateway_claim.specs.Follows.{IsHistory};
ghost use Rattle.gateway_replay.specs.Replays.{ReplaySays, TakesWithin, FaultRose, limit};

use command_line::{Command, WordsFault, read_words};
use drill_run::drill;
use gate_bytes::Memory;
use gate_outside::{Sink, Source};
use gateway_mux::Mux;
use gateway_replay::replay;
use rtsp_uri::Bases;
use run_status::Status;
use std::alloc::Global;

/// Runs the command that these words, without the program's name, ask for. It uses no lock, channel or thread, so it refuses
/// the word `serve`.
pub fn plain<S: Source, K: Sink>(
    alloc: Global,
    words: &[String],
    source: &mut S,
    sink: &mut K,
) -> Status
    ensures usage { TellsUsage result (plain_fault (map string_bytes words.now)) }
    ensures unknown { word_fault (map string_bytes words.now) ≡ Some 0 → result ≡ ends.Usage 0 }
    ensures says { PlainSays (map string_bytes words.now) result (S.rest source.old) (S.rest source.new)
        (K.written sink.old) (K.written sink.new) }
    ensures taken { TakesWithin (limit + 1) (S.rest source.old) (S.rest source.new) }
    ensures rose { FaultRose result (S.faults source.old) (S.faults source.new) (K.faults sink.old)
        (K.faults sink.new) }
    ensures source_later { S.faults source.old ≤ S.faults source.new }
    ensures sink_later { K.faults sink.old ≤ K.faults sink.new }
{
    match read_words(alloc, words) {
        Ok(command) => obey(alloc, command, source, sink),
        Err(fault) => refusal(fault),
    }
}

/// How a run ends whose words are refused.
pub fn refusal(fault: WordsFault) -> Status
    ensures { result ≡ status_of_words fault }
{
    match fault {
        WordsFault::Place(place) => Status::Usage { place },
        WordsFault::Memory => Status::Memory,
    }
}

/// Runs a command that needs no thread.
fn obey<S: Source, K: Sink>(alloc: Global, command: Command, source: &mut S, sink: &mut K) -> Status
    ensures says { CommandSays command result (S.rest source.old) (S.rest source.new) (K.written sink.old)
        (K.written sink.new) }
    ensures taken { TakesWithin (limit + 1) (S.rest source.old) (S.rest source.new) }
    ensures rose { FaultRose result (S.faults source.old) (S.faults source.new) (K.faults sink.old)
        (K.faults sink.new) }
    ensures source_later { S.faults source.old ≤ S.faults source.new }
    ensures sink_later { K.faults sink.old ≤ K.faults sink.new }
{
    match command {
        Command::Replay(bases) => replay_between(alloc, bases, source, sink),
        Command::Drill(clients, number) => drill(alloc, clients, number, sink),
        Command::Serve(_options) => Status::Usage { place: 0 },
    }
}

/// Replays the transcript that the source holds, between these bases.
fn replay_between<S: Source, K: Sink>(
    alloc: Global,
    bases: Bases,
    source: &mut S,
    sink: &mut K,
) -> Status
    ensures says { ReplaySays IsHistory bases result (S.rest source.old) (S.rest source.new)
        (K.written sink.old) (K.written sink.new) }
    ensures taken { TakesWithin (limit + 1) (S.rest source.old) (S.rest source.new) }
    ensures rose { FaultRose result (S.faults source.old) (S.faults source.new) (K.faults sink.old)
        (K.faults sink.new) }
    ensures source_later { S.faults source.old ≤ S.faults source.new }
    ensures sink_later { K.faults sink.old ≤ K.faults sink.new }
{
    match Mux::new(alloc, bases) {
        Ok(mux) => replay(alloc, mux, source, sink),
        Err(Memory) => Status::Memory,
    }
}
