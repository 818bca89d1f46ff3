//! A whole drill.
ghost use Rattle.std.specs.Prelude.{◌≡◌, ℕ, ◌+◌, ◌*◌, ◌≤◌, ◌<◌, [], IfOk, OnOk};
ghost use Rattle.gate_outside.specs.Causes.{Rose};
ghost use Rattle.rtsp_uri.specs.declared.base.Bases.{Bases};
ghost use Rattle.gateway_claim.specs.Cores.{IsCoreHistory};
ghost use Rattle.run_status.specs.declared.status.Status.TheVariants.{SinkFault};
ghost use Rattle.drill_run.specs.Turns.{entered_below};
ghost use Rattle.drill_run.specs.Plays.{Plays, HasRun, HasRunOn};
ghost use Rattle.drill_run.specs.Reports.{TellsDrill, DrillSays};

use crate::drill_core::Drill;
use crate::report::drill_lines;
use crate::stage::DrillStage;
use gate_bytes::{Memory, Text};
use gate_outside::{Failed, Sink, write_all};
use gateway_claim::Core;
use run_status::Status;
use std::alloc::Global;

/// The most turns of a drill for each of its players: eight steps, and the server's answers to six requests. No drill of
/// the multiplexer has more; one of another core, which asks more, would end for want of memory.
pub const MOST_PLAYER_TURNS: u64 = 14;

/// So many connections enter, by rising number.
fn enter_all<M: Core>(alloc: Global, core: &mut M, count: u32) -> Result<(), Memory>
    requires { M.stands core.old [] }
    ensures stands { OnOk result (M.stands core.new (entered_below count)) }
    ensures bases { OnOk result (M.bases core.new ≡ M.bases core.old) }
{
    for conn in 0..count {
        core.enter(alloc, conn)?;
    }
    Ok(())
}

/// One turn more than a drill of so many players may have.
fn turn_limit(players: u32) -> u64
    ensures { result ≡ MOST_PLAYER_TURNS * players + 1 }
{
    MOST_PLAYER_TURNS * u64::from(players) + 1
}

/// Turn after turn, until nobody can have one: `true`; or until there were too many.
fn run_turns<M: Core>(alloc: Global, drill: &mut Drill<M>, players: u32) -> Result<bool, Memory>
    ensures { IfOk result (λ over.
        (number : ℕ) (between : Bases)
        → HasRun 0 players number (Plays M.stands M.bases drill.old.core drill.old.stage between)
        → HasRunOn over players number (Plays M.stands M.bases drill.new.core drill.new.stage between)) }
{
    for _turn in 0..turn_limit(players) {
        if !drill.turn(alloc)? {
            return Ok(true);
        }
    }
    Ok(false)
}

/// The text of a whole drill with so many players, from this number.
fn told_drill<M: Core>(alloc: Global, core: M, players: u32, number: u64) -> Result<Text, Memory>
    requires { M.stands core [] }
    ensures { IfOk result (λ text. TellsDrill (IsCoreHistory M.follows (M.bases core)) players number text) }
{
    let mut core = core;
    enter_all(alloc, &mut core, players)?;
    let stage = DrillStage::new(alloc, players, number)?;
    let mut drill = Drill { core, stage };
    if !run_turns(alloc, &mut drill, players)? {
        return Err(Memory);
    }
    Ok(drill_lines(alloc, players, &drill.stage.counts, drill.stage.turns)?)
}

/// Plays a drill with so many players, from this number, on a core, and writes the eight lines with its counts. The core
/// stands for the history in which nothing happened.
pub fn drill_on<M: Core, K: Sink>(
    alloc: Global,
    core: M,
    players: u32,
    number: u64,
    sink: &mut K,
) -> Status
    requires { M.stands core [] }
    ensures says { DrillSays (IsCoreHistory M.follows (M.bases core)) players number result
        (K.written sink.old) (K.written sink.new) }
    ensures rose { result ≡ SinkFault → Rose (K.faults sink.old) (K.faults sink.new) }
    ensures sink_later { K.faults sink.old ≤ K.faults sink.new }
{
    let Ok(text) = told_drill(alloc, core, players, number) else {
        return Status::Memory;
    };
    match write_all(sink, text.as_bytes()) {
        Ok(()) => Status::Done,
        Err(Failed) => Status::SinkFault,
    }
}
