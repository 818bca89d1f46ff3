//! Replaying a transcript: the loop that reads it from a source and has its entries processed, up to the end of the
//! source, a fault, or the limit.
ghost use Rattle.std.specs.Prelude.{◌≡◌, ◌≤◌, ◌+◌, [], ℕ, List, Option};
ghost use Rattle.gate_outside.specs.Causes.{HasCause};
ghost use Rattle.rtsp_uri.specs.declared.base.Bases.{Bases};
ghost use Rattle.gateway_claim.specs.Cores.{IsCoreHistory};
ghost use Rattle.gate_transcript.specs.declared.entry.Entry.{Entry};
ghost use Rattle.gate_transcript.specs.Transcript.{reading};
ghost use Rattle.gate_transcript.specs.Reads.{ReadsSo, GivenWhole};
ghost use Rattle.run_status.specs.declared.status.Status.TheVariants.{BadTranscript};
ghost use Rattle.gateway_replay.specs.CoreRecords.{Watches};
ghost use Rattle.gateway_replay.specs.Stops.{status_of_read};
ghost use Rattle.gateway_replay.specs.Replays.{ReplayedSoFar, SomeSoFar, Processed, StopCause, ReplaySays, FaultRose, TakesWithin, TellsMore, ends_by, limit};

use crate::core_records::ProcessFault;
use crate::run::Run;
use gate_outside::{Failed, Sink, Source};
use gate_transcript::{BadEntry, EntryFault, EntryReader, ReadFault};
use gateway_claim::Core;
use run_status::Status;
use std::alloc::Global;

/// The longest transcript that is replayed, in bytes.
pub const LONGEST_TRANSCRIPT: usize = 67_108_864;

/// What stops a replay before the end of its source.
#[derive(Clone, Copy, Debug, PartialEq, Eq)]
pub enum Stop {
    /// The bytes are no transcript.
    Bad(BadEntry),
    /// The sink failed.
    Sink,
    /// Memory ran out.
    Memory,
}

impl From<ProcessFault> for Stop {
    ghost use Rattle.std.specs.Prelude.{◌≡◌};
    ghost use Rattle.gateway_replay.specs.Stops.{stop_of_event};

    ghost from_gives = { λ fault e. e ≡ stop_of_event fault };

    fn from(fault: ProcessFault) -> Stop {
        match fault {
            ProcessFault::Sink => Stop::Sink,
            ProcessFault::Memory => Stop::Memory,
        }
    }
}

impl From<EntryFault> for Stop {
    ghost use Rattle.std.specs.Prelude.{◌≡◌};
    ghost use Rattle.gateway_replay.specs.Stops.{stop_of_reader};

    ghost from_gives = { λ fault e. e ≡ stop_of_reader fault };

    fn from(fault: EntryFault) -> Stop {
        match fault {
            EntryFault::Bad(bad) => Stop::Bad(bad),
            EntryFault::Memory => Stop::Memory,
        }
    }
}

impl From<Stop> for Status {
    ghost use Rattle.std.specs.Prelude.{◌≡◌};
    ghost use Rattle.gateway_replay.specs.Stops.{status_of_stop};

    ghost from_gives = { λ stop e. e ≡ status_of_stop stop };

    fn from(stop: Stop) -> Status {
        match stop {
            Stop::Bad(bad) => bad_transcript(bad),
            Stop::Sink => Status::SinkFault,
            Stop::Memory => Status::Memory,
        }
    }
}

/// The answer to a transcript with this fault.
fn bad_transcript(bad: BadEntry) -> Status
    ensures { result ≡ BadTranscript bad.place bad.kind }
{
    Status::BadTranscript {
        place: bad.place,
        kind: bad.kind,
    }
}

/// Replays the transcript that the source holds through a core, and writes the records to the sink. It takes at most one
/// byte more than [`LONGEST_TRANSCRIPT`] from the source. The core stands for the history in which nothing happened.
pub fn replay<M: Core, S: Source, K: Sink>(
    alloc: Global,
    core: M,
    source: &mut S,
    sink: &mut K,
) -> Status
    requires { M.stands core [] }
    ensures says { ReplaySays (IsCoreHistory M.follows) (M.bases core) result (S.rest source.old)
        (S.rest source.new) (K.written sink.old) (K.written sink.new) }
    ensures taken { TakesWithin (limit + 1) (S.rest source.old) (S.rest source.new) }
    ensures rose { FaultRose result (S.faults source.old) (S.faults source.new) (K.faults sink.old)
        (K.faults sink.new) }
    ensures source_later { S.faults source.old ≤ S.faults source.new }
    ensures sink_later { K.faults sink.old ≤ K.faults sink.new }
{
    let mut reader = EntryReader::new(alloc);
    let mut run = Run::new(alloc, core);
    let mut room = LONGEST_TRANSCRIPT;
    while room > 0 {
        let count = match reader.read(source, room) {
            Ok(count) => count,
            Err(fault) => return unread(fault),
        };
        if count == 0 {
            return finish(&reader);
        }
        match process_entries(alloc, &mut reader, &mut run, sink) {
            Ok(()) => room -= count,
            Err(stop) => return Status::from(stop),
        }
    }
    match has_more(source) {
        Ok(true) => Status::TooLong,
        Ok(false) => finish(&reader),
        Err(Failed) => Status::SourceFault,
    }
}

/// The answer where nothing could be read.
fn unread(fault: ReadFault) -> Status
    ensures { result ≡ status_of_read fault }
{
    match fault {
        ReadFault::Source => Status::SourceFault,
        ReadFault::Memory => Status::Memory,
    }
}

/// The answer at the end of the source.
fn finish(reader: &EntryReader) -> Status
    ensures { (bytes : List ℕ) (entries : List Entry) → ReadsSo reader.now bytes entries
        → GivenWhole bytes entries
        → result ≡ ends_by (reading bytes).fault }
{
    match reader.finish() {
        Ok(()) => Status::Done,
        Err(bad) => bad_transcript(bad),
    }
}

/// Whether the source holds one byte more.
fn has_more<S: Source>(source: &mut S) -> Result<bool, Failed>
    ensures more { TellsMore (S.rest source.old) (S.rest source.new) result }
    ensures cause { HasCause (S.faults source.old) (S.faults source.new) result }
{
    let mut one = [0u8; 1];
    let count = source.read(&mut one)?;
    Ok(count > 0)
}

/// Processes all entries that the reader can give.
fn process_entries<M: Core, K: Sink>(
    alloc: Global,
    reader: &mut EntryReader,
    run: &mut Run<M>,
    sink: &mut K,
) -> Result<(), Stop>
    requires { SomeSoFar reader.old run.old.streams
        (Watches M.stands M.bases run.old.watched.core run.old.watched.living) (K.written sink.old) }
    ensures processed { (bases : Bases) (bytes : List ℕ) (before : Option (List ℕ))
        → ReplayedSoFar bases reader.old run.old.streams
        (Watches M.stands M.bases run.old.watched.core run.old.watched.living) bytes before
        (K.written sink.old)
        → Processed (IsCoreHistory M.follows) bases result reader.new run.new.streams
        (Watches M.stands M.bases run.new.watched.core run.new.watched.living) bytes before
        (K.written sink.new) }
    ensures cause { StopCause (K.faults sink.old) (K.faults sink.new) result }
{
    loop {
        match reader.next(alloc, &mut run.spare) {
            Ok(Some(entry)) => run.take(alloc, sink, entry)?,
            Ok(None) => return Ok(()),
            Err(fault) => return Err(Stop::from(fault)),
        }
    }
}
