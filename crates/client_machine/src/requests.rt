//! Plans for requests of a player.
ghost use Rattle.std.specs.Prelude.{◌≡◌, ◌<◌, ℕ, Option, [], ◌∷◌, length, true, None, IsSome, IfOk, IfSome, OnOk};
ghost use Rattle.rtsp_uri.specs.declared.base.Bases.{Bases};
ghost use Rattle.channel_map.specs.declared.map.TheConstants.{PAIRS};
ghost use Rattle.rtsp_head.specs.Shapes.{shape_of};
ghost use Rattle.client_slot.specs.declared.limits.TheConstants.{MOST_WAITING};
ghost use Rattle.client_slot.specs.Changes.{due_place};
ghost use Rattle.client_machine.specs.declared.parts.Change.TheVariants as changes;
ghost use Rattle.client_machine.specs.Plans.{requests, CanCome, IsPlan};

use crate::onward::due_up;
use crate::outlook::Outlook;
use crate::parts::{Change, PlannedStep, Up};
use crate::sight::see_sessions;
use crate::treat::{Course, treat_waiting};
use client_slot::{Slot, Waiting};
use gate_bytes::{Memory, Text};
use rtsp_head::Item;
use rtsp_uri::Bases;
use std::alloc::Global;

/// The plan for a request of a connection. It waits where another one is open or goes up before it,
/// and is treated else.
pub(crate) fn plan_request(
    alloc: Global,
    bases: &Bases,
    slot: &Slot,
    next: u32,
    pair: Option<u8>,
    item: &Item,
    plan: &mut PlannedStep,
) -> Result<(), Memory>
    requires sound { CanCome (requests (shape_of item.now)) }
    requires pair { IfSome pair (λ one. one < PAIRS) }
    requires room { length slot.now.waiting < MOST_WAITING }
    ensures { OnOk result (IsPlan bases.now next pair slot.now (requests (shape_of item.now)) plan.new) }
{
    if !slot.alive() {
        plan.become_blank(alloc);
        return Ok(());
    }
    if slot.busy() {
        let change = waits(alloc, item)?;
        plan.become_still(alloc, change, Text::new(alloc), Up::Nothing);
        return Ok(());
    }
    if slot.due_place().is_some() {
        return plan_due(alloc, slot, next, item, plan);
    }
    treat_request(alloc, bases, slot, next, pair, item, plan)
}

/// The plan for a request of a connection that has a PLAY due: that one goes up, and the request waits. It is not inlined,
/// since few requests wait.
#[inline(never)]
fn plan_due(
    alloc: Global,
    slot: &Slot,
    next: u32,
    item: &Item,
    plan: &mut PlannedStep,
) -> Result<(), Memory>
    requires sound { CanCome (requests (shape_of item.now)) }
    requires room { length slot.now.waiting < MOST_WAITING }
    requires alive { slot.now.alive ≡ true }
    requires idle { slot.now.pending ≡ None }
    requires due { IsSome (due_place slot.now) }
    ensures { (bases : Bases) (pair : Option ℕ)
        → OnOk result (IsPlan bases next pair slot.now (requests (shape_of item.now)) plan.new) }
{
    let Some(up) = due_up(alloc, &Outlook::now(slot), next)? else {
        unreachable!();
    };
    let change = waits(alloc, item)?;
    plan.become_still(alloc, change, Text::new(alloc), up);
    Ok(())
}

/// A copy of a request waits. It is not inlined, since few requests wait.
#[inline(never)]
fn waits(alloc: Global, item: &Item) -> Result<Change, Memory>
    ensures { IfOk result (λ change. change ≡ changes.Waits (shape_of item.now ∷ [])) }
{
    match Waiting::new(alloc, item.try_clone(alloc)?) {
        Ok(waiting) => Ok(Change::Waits(waiting)),
        Err(_) => Err(Memory),
    }
}

/// The plan for a request of a connection that has none open and no PLAY due: those that wait are
/// treated, and it after them.
fn treat_request<'a>(
    alloc: Global,
    bases: &'a Bases,
    slot: &'a Slot,
    next: u32,
    pair: Option<u8>,
    item: &'a Item,
    plan: &mut PlannedStep,
) -> Result<(), Memory>
    requires sound { CanCome (requests (shape_of item.now)) }
    requires pair { IfSome pair (λ one. one < PAIRS) }
    requires room { length slot.now.waiting < MOST_WAITING }
    requires alive { slot.now.alive ≡ true }
    requires idle { slot.now.pending ≡ None }
    requires due { due_place slot.now ≡ None }
    ensures { OnOk result
        (IsPlan bases.entry.now next pair slot.entry.now (requests (shape_of item.entry.now)) plan.new) }
{
    slot.keeps();
    let course = Course {
        bases,
        described: slot.described(),
        next,
        pair,
    };
    plan.become_blank(alloc);
    let mut sessions = [None, None, None, None];
    see_sessions(slot, &mut sessions);
    treat_waiting(alloc, &mut sessions, course, slot, plan)?;
    if plan.up.is_up() {
        plan.change = waits(alloc, item)?;
        return Ok(());
    }
    plan.then(alloc, &mut sessions, course, item)
}
