//! Plans are made.
ghost use Rattle.std.specs.Prelude.{◌≡◌, ◌≤◌, ◌<◌, true, false, length, Err, IfSome, OnOk};
ghost use Rattle.channel_map.specs.declared.map.TheConstants.{PAIRS};
ghost use Rattle.client_slot.specs.declared.limits.TheConstants.{MOST_WAITING};
ghost use Rattle.client_machine.specs.declared.fault.PlanFault.TheVariants as faults;
ghost use Rattle.client_machine.specs.Plans.{incoming_seen, CanCome, CanWait, IsPlan, IsShortUp, IsLongUp, IsShortPlan, IsLongPlan};

use crate::ends::plan_notice;
use crate::fault::PlanFault;
use crate::input::Incoming;
use crate::parts::{PlannedStep, Up};
use crate::replies::plan_reply;
use crate::requests::plan_request;
use client_slot::{MOST_WAITING, Slot};
use gate_bytes::Memory;
use rtsp_uri::Bases;
use std::alloc::Global;

/// The most bytes that one event hands to a client: their length fits into 32 bits.
const LONGEST_HAND: usize = 0xffff_ffff;

/// The most bytes of a request, so that it and an answer before it have a length of 32 bits.
const LONGEST_REQUEST: usize = 0x7fff_ffff;

/// What an event will do to a connection, by the number that the next request would have and the
/// lowest pair of channels that is free once the event is heard: it is written over a plan. Nothing else
/// changes, and all memory is taken. [`PlanFault`] says why there is none; what the plan says then is of no use.
#[inline(always)]
pub fn plan(
    alloc: Global,
    bases: &Bases,
    slot: &Slot,
    next: u32,
    pair: Option<u8>,
    incoming: &Incoming<'_>,
    plan: &mut PlannedStep,
) -> Result<(), PlanFault>
    requires sound { CanCome (incoming_seen incoming.now) }
    requires pair { IfSome pair (λ one. one < PAIRS) }
    ensures plan { OnOk result (IsPlan bases.now next pair slot.now (incoming_seen incoming.now) plan.new) }
    ensures short { OnOk result (IsShortPlan plan.new) }
    ensures long { result ≡ Err faults.TooLong
        → IsPlan bases.now next pair slot.now (incoming_seen incoming.now) plan.new × IsLongPlan plan.new }
    ensures many { result ≡ Err faults.TooMany → MOST_WAITING ≤ length slot.now.waiting }
{
    if finds_no_room(slot, incoming) {
        return Err(PlanFault::TooMany);
    }
    match plan_any(alloc, bases, slot, next, pair, incoming, plan) {
        Ok(()) if plan.is_short() => Ok(()),
        Ok(()) => Err(PlanFault::TooLong),
        Err(Memory) => Err(PlanFault::Memory),
    }
}

/// Whether a request comes, and so many wait that it can't.
fn finds_no_room(slot: &Slot, incoming: &Incoming<'_>) -> bool
    ensures many { result ≡ true → MOST_WAITING ≤ length slot.now.waiting }
    ensures room { result ≡ false → CanWait (incoming_seen incoming.now) slot.now }
{
    match incoming {
        Incoming::Request(_) => slot.waiting() >= MOST_WAITING,
        Incoming::Reply(_) | Incoming::Notice(..) => false,
    }
}

/// A plan of any length.
fn plan_any(
    alloc: Global,
    bases: &Bases,
    slot: &Slot,
    next: u32,
    pair: Option<u8>,
    incoming: &Incoming<'_>,
    plan: &mut PlannedStep,
) -> Result<(), Memory>
    requires sound { CanCome (incoming_seen incoming.now) }
    requires pair { IfSome pair (λ one. one < PAIRS) }
    requires room { CanWait (incoming_seen incoming.now) slot.now }
    ensures { OnOk result (IsPlan bases.now next pair slot.now (incoming_seen incoming.now) plan.new) }
{
    match *incoming {
        Incoming::Request(item) => plan_request(alloc, bases, slot, next, pair, item, plan),
        Incoming::Reply(answer) => plan_reply(alloc, bases, slot, next, pair, answer, plan),
        Incoming::Notice(id, reason, names) => {
            plan_notice(alloc, slot, next, id, reason, names, plan)
        }
    }
}

impl PlannedStep {
    ghost use Rattle.std.specs.Prelude.{◌≡◌, true, false};

    /// Whether what it hands out is short enough.
    fn is_short(&self) -> bool
        ensures short { result ≡ true → IsShortPlan self.now }
        ensures long { result ≡ false → IsLongPlan self.now }
    {
        self.hand.len() <= LONGEST_HAND && self.up.is_short()
    }
}

impl Up {
    ghost use Rattle.std.specs.Prelude.{◌≡◌, true, false};

    /// Whether what goes up is short enough.
    fn is_short(&self) -> bool
        ensures short { result ≡ true → IsShortUp self.now }
        ensures long { result ≡ false → IsLongUp self.now }
    {
        match self {
            Up::Nothing | Up::Leave => true,
            Up::Due(text) | Up::Ask(text, _, _) => text.len() <= LONGEST_REQUEST,
        }
    }
}
