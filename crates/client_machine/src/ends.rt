//! Plans for the end of what plays, and for closes.
ghost use Rattle.std.specs.Prelude.{ℕ, Option, OnOk};
ghost use Rattle.rtsp_uri.specs.declared.base.Bases.{Bases};
ghost use Rattle.rtsp_small.specs.declared.notify.NotifyReason.TheVariants.{EndOfStream};
ghost use Rattle.client_machine.specs.Plans.{notes, shuts, IsPlan, IsShortPlan};

use crate::after::after_end;
use crate::onward::{due_up, leave, still};
use crate::outlook::Outlook;
use crate::parts::{Change, PlannedStep, Up};
use crate::why::CloseWhy;
use client_slot::Slot;
use gate_bytes::{Memory, Text};
use rtsp_small::NotifyReason;
use session_two::Names;
use std::alloc::Global;

/// The plan for a notice of the server about the session with an id. The end of what plays counts, and
/// no other one does.
pub(crate) fn plan_notice(
    alloc: Global,
    slot: &Slot,
    next: u32,
    id: &[u8],
    reason: NotifyReason,
    names: Names,
    plan: &mut PlannedStep,
) -> Result<(), Memory>
    ensures { (bases : Bases) (pair : Option ℕ)
        → OnOk result (IsPlan bases next pair slot.now (notes id.now reason names) plan.new) }
{
    match reason {
        NotifyReason::EndOfStream => plan_end(alloc, slot, next, id, names, plan),
        NotifyReason::MediaProperties | NotifyReason::ScaleChange => {
            plan.become_blank(alloc);
            Ok(())
        }
    }
}

/// The plan for the end of what plays in the session with an id: the PLAY goes up that is due then.
fn plan_end(
    alloc: Global,
    slot: &Slot,
    next: u32,
    id: &[u8],
    names: Names,
    plan: &mut PlannedStep,
) -> Result<(), Memory>
    ensures { (bases : Bases) (pair : Option ℕ)
        → OnOk result (IsPlan bases next pair slot.now (notes id.now EndOfStream names) plan.new) }
{
    let place = slot.find(id);
    let change = Change::Ends(place, names);
    if slot.busy() {
        plan.become_still(alloc, change, Text::new(alloc), Up::Nothing);
        return Ok(());
    }
    match due_up(alloc, &after_end(slot, place, names), next)? {
        Some(up) => {
            plan.become_still(alloc, change, Text::new(alloc), up);
            Ok(())
        }
        None => {
            plan.become_still(alloc, change, Text::new(alloc), Up::Nothing);
            Ok(())
        }
    }
}

/// The plan for a connection that closes. It takes no memory.
pub fn plan_close(alloc: Global, slot: &Slot, why: CloseWhy) -> PlannedStep
    ensures plan { (bases : Bases) (next : ℕ) (pair : Option ℕ)
        → IsPlan bases next pair slot.now (shuts why) result }
    ensures short { IsShortPlan result }
{
    if !slot.alive() {
        return PlannedStep::blank(alloc);
    }
    let change = Change::Closes(why);
    if slot.busy() {
        return still(alloc, change, Text::new(alloc), Up::Nothing);
    }
    still(alloc, change, Text::new(alloc), leave(&Outlook::now(slot)))
}
