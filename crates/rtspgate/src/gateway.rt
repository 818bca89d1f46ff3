//! The top call: all that the program does, over any source, sink and world.
ghost use Rattle.std.specs.Prelude.{◌≡◌, ◌≤◌, ◌+◌, true, false, Some, map, string_bytes};
ghost use Rattle.run_status.specs.declared.status.Status.TheVariants as ends;
ghost use Rattle.command_line.specs.Words.{asks_to_serve, word_fault};
ghost use Rattle.rtspgate.specs.Usage.{TellsUsage};
ghost use Rattle.rtspgate.specs.Commands.{PlainSays};
ghost use Rattle.rtspgate.specs.ServeAnswers.{ServesWords};
ghost use Rattle.gateway_replay.specs.Replays.{TakesWithin, FaultRose, limit};

use crate::plain::plain;
use crate::serve::serve_words;
use command_line::asks_to_serve;
use gate_outside::{Sink, Source};
use run_status::Status;
use serve_world::World;
use std::alloc::Global;
use std::sync::Wait;
use std::thread::Threads;
use std::time::Clock;

/// Does what these words, without the program's name, ask for. The command `serve` uses the world and the sink; every other
/// one is done by [`plain`], and leaves the world alone.
pub fn gateway<S: Source, K: Sink, W: World, R: Threads + Wait + Clock + Sync>(
    rt: &R,
    alloc: Global,
    words: &[String],
    source: &mut S,
    sink: &mut K,
    world: &mut W,
) -> Status
    ensures usage { TellsUsage result (word_fault (map string_bytes words.now)) }
    ensures unknown { word_fault (map string_bytes words.now) ≡ Some 0 → result ≡ ends.Usage 0 }
    ensures plain { asks_to_serve (map string_bytes words.now) ≡ false
        → PlainSays (map string_bytes words.now) result (S.rest source.old) (S.rest source.new)
        (K.written sink.old) (K.written sink.new) }
    ensures apart { asks_to_serve (map string_bytes words.now) ≡ false
        → W.tally world.new ≡ W.tally world.old }
    ensures serves { asks_to_serve (map string_bytes words.now) ≡ true
        → ServesWords (map string_bytes words.now) result (record {
          recorded = W.recorded world.new;
          left = W.links_left world.new;
          opened = W.tally world.old;
          closed = W.tally world.new;
          before = K.written sink.old;
          now = K.written sink.new;
          faults = K.faults sink.old;
          later = K.faults sink.new;
        }) }
    ensures unread { asks_to_serve (map string_bytes words.now) ≡ true
        → S.rest source.new ≡ S.rest source.old }
    ensures taken { TakesWithin (limit + 1) (S.rest source.old) (S.rest source.new) }
    ensures rose { FaultRose result (S.faults source.old) (S.faults source.new) (K.faults sink.old)
        (K.faults sink.new) }
    ensures source_later { S.faults source.old ≤ S.faults source.new }
    ensures sink_later { K.faults sink.old ≤ K.faults sink.new }
{
    if asks_to_serve(words) {
        serve_words(rt, alloc, words, sink, world)
    } else {
        plain(alloc, words, source, sink)
    }
}
