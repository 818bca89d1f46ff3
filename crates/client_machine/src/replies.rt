//! Plans for replies of the server.
ghost use Rattle.std.specs.Prelude.{◌≡◌, ◌<◌, ◌≤◌, Some, IfOk, IfSome, OnOk};
ghost use Rattle.channel_map.specs.declared.map.TheConstants.{PAIRS};
ghost use Rattle.client_slot.specs.Purposes.{purpose_seen};
ghost use Rattle.std.specs.Prelude.{true, IsSome};
ghost use Rattle.std.specs.Option.{option_copied};
ghost use Rattle.rtsp_small.specs.Sessions.{is_session_id};
ghost use Rattle.client_slot.specs.NewSessions.{id_made, described_made};
ghost use Rattle.client_machine.specs.Plans.{replies, IsPlan};

use crate::after::after_reply;
use crate::input::ServerReply;
use crate::onward::onward;
use crate::parts::{Change, PlannedStep, Up};
use crate::player_reply::{new_id, reply_hand, timeout_told, told_for};
use crate::treat::Course;
use client_slot::{ClosingRoom, MadeParts, MadeSession, Pending, Slot};
use gate_bytes::{Memory, Text};
use rtsp_uri::Bases;
use std::alloc::Global;

/// The plan for a reply to the open request of a connection. One that is not final has no effect.
pub(crate) fn plan_reply(
    alloc: Global,
    bases: &Bases,
    slot: &Slot,
    next: u32,
    pair: Option<u8>,
    answer: ServerReply<'_>,
    plan: &mut PlannedStep,
) -> Result<(), Memory>
    requires { IfSome pair (λ one. one < PAIRS) }
    ensures { OnOk result
        (IsPlan bases.now next pair slot.now (replies answer.entry.reply.now answer.entry.source) plan.new) }
{
    let reply = answer.reply;
    if reply.code < 200 {
        plan.become_blank(alloc);
        return Ok(());
    }
    let Some(pending) = slot.pending() else {
        plan.become_blank(alloc);
        return Ok(());
    };
    let course = Course {
        bases,
        described: slot.described(),
        next,
        pair,
    };
    settle(alloc, course, slot, pending, answer, plan)
}

/// The plan for the final reply to the open request.
fn settle<'a>(
    alloc: Global,
    course: Course<'a>,
    slot: &'a Slot,
    pending: Pending<'a>,
    answer: ServerReply<'a>,
    plan: &mut PlannedStep,
) -> Result<(), Memory>
    requires pair { IfSome course.pair (λ one. one < PAIRS) }
    requires pending { slot.now.pending ≡ Some (purpose_seen pending) }
    requires last { 200 ≤ answer.reply.now.code }
    ensures { OnOk result
        (IsPlan course.entry.bases.now course.entry.next course.entry.pair slot.entry.now
        (replies answer.entry.reply.now answer.entry.source) plan.new) }
{
    let reply = answer.reply;
    let told = told_for(pending, reply);
    let timeout = timeout_told(told);
    let id = new_id(pending, told);
    let outlook = after_reply(slot, pending, reply.code, id);
    let hand = reply_hand(
        alloc,
        course.bases,
        slot,
        pending,
        answer,
        outlook.changed_id(),
        timeout,
    )?;
    let change = Change::Settles(reply.code, made(alloc, slot, id)?);
    plan.become_still(alloc, change, hand, Up::Nothing);
    let after = Course {
        described: outlook.described,
        ..course
    };
    onward(alloc, after, &outlook, plan)
}

/// The session that the server made, where it made one, with copies of what is kept of it and room for its TEARDOWN.
fn made(alloc: Global, slot: &Slot, id: Option<&[u8]>) -> Result<Option<MadeSession>, Memory>
    requires { IfSome id (λ one. is_session_id one.now ≡ true) }
    ensures made { IfOk result (λ made. id_made made ≡ option_copied id.entry) }
    ensures described { IfOk result (λ made. IsSome made → described_made made ≡ slot.now.described) }
{
    let Some(id) = id else {
        return Ok(None);
    };
    Ok(Some(MadeSession {
        parts: MadeParts {
            id: Text::copy(alloc, id)?,
            described: Text::copied(alloc, slot.described())?,
        },
        room: ClosingRoom::new(alloc)?,
    }))
}
