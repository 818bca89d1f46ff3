//! How a writer comes back to the reader of its link.
ghost use Rattle.std.specs.Prelude.{◌≡◌};

use crate::{Reader, Writer, WriterDesk};
use gate_outside::{Inlet, Outlet};
use std::sync::Wait;
use std::time::{Clock, Duration};

/// How long a writer is waited for before it is looked at again whether it gets on, in milliseconds.
const STEP_MILLIS: u64 = 100;

/// So often it may be found to have written nothing since the last look, before the link is shut under it: after some
/// second.
const MOST_STILL: u32 = 10;

/// So often it is looked at at most: for some half a minute.
const MOST_STEPS: u32 = 300;

/// Waits until the writer has written what its link was handed. One that does not get on is let go, by shutting its link, and
/// so is one that gets on too slowly.
pub fn collect<I: Inlet + Drop, O: Outlet + Drop, W: Wait + Clock>(
    rt: &W,
    desk: &WriterDesk<O>,
    reader: &mut Reader<I>,
) -> Writer<O>
    ensures rest { I.rest reader.new.inlet ≡ I.rest reader.old.inlet }
    ensures faults { I.faults reader.new.inlet ≡ I.faults reader.old.inlet }
    ensures ends { I.ends reader.new.inlet ≡ I.ends reader.old.inlet }
    ensures framer { reader.new.framer ≡ reader.old.framer }
    ensures inward { reader.new.inward ≡ reader.old.inward }
    ensures waiting { reader.new.waiting ≡ reader.old.waiting }
    ensures over { reader.new.over ≡ reader.old.over }
{
    let mut moves = desk.moves();
    let mut still = 0u32;
    for _ in 0..MOST_STEPS {
        if let Some(writer) = desk.collect_within(rt, Duration::from_millis(STEP_MILLIS)) {
            return writer;
        }
        let now = desk.moves();
        still = if now == moves {
            still.saturating_add(1)
        } else {
            0
        };
        moves = now;
        if still >= MOST_STILL {
            break;
        }
    }
    reader.shut();
    desk.collect(rt)
}
