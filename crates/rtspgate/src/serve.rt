//! The command that serves players.
ghost use Rattle.std.specs.Prelude.{◌≡◌, ◌≤◌, true, [], IfOk, map, string_bytes};
ghost use Rattle.run_status.specs.declared.status.Status.TheVariants as ends;
ghost use Rattle.gateway_mux.specs.Stands.{Stands, bases_of};
ghost use Rattle.command_line.specs.Words.{asks_to_serve, word_fault};
ghost use Rattle.rtsp_uri.specs.Bases.{AreSameAddresses};
ghost use Rattle.rtspgate.specs.Usage.{TellsUsage};
ghost use Rattle.rtspgate.specs.ServeAnswers.{ServesWords, SaysServed};

use crate::plain::refusal;
use command_line::{Command, ServeOptions, read_words};
use gate_bytes::Memory;
use gate_outside::Sink;
use gateway_mux::Mux;
use gateway_run::serve;
use rtsp_uri::Bases;
use run_status::Status;
use serve_world::World;
use std::alloc::Global;
use std::sync::Wait;
use std::thread::Threads;
use std::time::Clock;

/// Serves players as these words ask, of which the first is `serve`.
pub fn serve_words<W: World, K: Sink, R: Threads + Wait + Clock + Sync>(
    rt: &R,
    alloc: Global,
    words: &[String],
    sink: &mut K,
    world: &mut W,
) -> Status
    requires { asks_to_serve (map string_bytes words.now) ≡ true }
    ensures usage { TellsUsage result (word_fault (map string_bytes words.now)) }
    ensures unknown { word_fault (map string_bytes words.now) ≡ Some 0 → result ≡ ends.Usage 0 }
    ensures serves { ServesWords (map string_bytes words.now) result (record {
      recorded = W.recorded world.new;
      left = W.links_left world.new;
      opened = W.tally world.old;
      closed = W.tally world.new;
      before = K.written sink.old;
      now = K.written sink.new;
      faults = K.faults sink.old;
      later = K.faults sink.new;
    }) }
    ensures sink_later { K.faults sink.old ≤ K.faults sink.new }
{
    match read_words(alloc, words) {
        Ok(Command::Serve(options)) => serve_players(rt, alloc, &options, sink, world),
        Ok(_) => unreachable!(),
        Err(fault) => refusal(fault),
    }
}

/// Serves players with these options.
fn serve_players<W: World, K: Sink, R: Threads + Wait + Clock + Sync>(
    rt: &R,
    alloc: Global,
    options: &ServeOptions,
    sink: &mut K,
    world: &mut W,
) -> Status
    ensures says { SaysServed options.now result (record {
      recorded = W.recorded world.new;
      left = W.links_left world.new;
      opened = W.tally world.old;
      closed = W.tally world.new;
      before = K.written sink.old;
      now = K.written sink.new;
      faults = K.faults sink.old;
      later = K.faults sink.new;
    }) }
    ensures sink_later { K.faults sink.old ≤ K.faults sink.new }
{
    match core_between(alloc, &options.bases) {
        Ok(core) => serve(rt, alloc, core, options, world, sink),
        Err(Memory) => Status::Memory,
    }
}

/// A multiplexer between these bases, to which nothing has happened.
fn core_between(alloc: Global, bases: &Bases) -> Result<Mux, Memory>
    ensures stands { IfOk result (λ mux. Stands mux []) }
    ensures bases { IfOk result (λ mux. AreSameAddresses (bases_of mux) bases.now) }
{
    Mux::new(alloc, bases.try_clone(alloc)?)
}
