//! What items of the server do.
ghost use Rattle.std.specs.Prelude.{◌≡◌, true, false, List, Some, IsOk, IfOk, IfSome};
ghost use Rattle.gateway_mux.specs.Short.{IsShortAnswer};
ghost use Rattle.std.specs.Option.{option_copied};
ghost use Rattle.rtsp_head.specs.Items.{Shape};
ghost use Rattle.rtsp_head.specs.Shapes.{shape_of};
ghost use Rattle.rtsp_head.specs.declared.item.ItemKind.TheVariants.{Frame};
ghost use Rattle.rtsp_small.specs.Sessions.{is_session_id};
ghost use Rattle.rtsp_status.specs.Reasons.{has_reason};
ghost use Rattle.client_slot.specs.Purposes.{purpose_seen};
ghost use Rattle.head_two.specs.Answers.{answer_text};
ghost use Rattle.gateway_claim.specs.Follows.{session_asked};
ghost use Rattle.gateway_claim.specs.Happenings.{hears};
ghost use Rattle.gateway_claim.specs.ServerItems.{replies, requests, heard};

use crate::act::{Act, FramePath};
use crate::connections::Connections;
use crate::frames::channel_of;
use crate::grant::{source_in, wrong_grant};
use crate::notice::read_notice;
use crate::server_item::{ServerItem, hear};
use crate::settlement::what_settles;
use crate::turn_facts::TurnFacts;
use client_machine::{Incoming, ServerReply, channel_for, grant_said};
use client_slot::{Pending, Slot};
use gate_bytes::{Memory, Text};
use gateway_claim::UpCause;
use head_two::{Ask2, Reply2, write_answer};
use rtsp_head::{Item, ItemKind};
use rtsp_transport::Grant;
use session_one::is_success;
use std::alloc::Global;

impl Connections {
    ghost use Rattle.client_slot.specs.Session.{PlayerSession};
    ghost use Rattle.gateway_claim.specs.Follows.{kind_breach};
    ghost use Rattle.gateway_claim.specs.Turns.{kind_pending};
    ghost use Rattle.client_machine.specs.UpTexts.{grant_said};
    ghost use Rattle.gateway_mux.specs.Acts.{IsAct, IsShortAct, IsKeyed, FallsTo};
    ghost use Rattle.gateway_mux.specs.Free.{is_message};
    ghost use Rattle.gateway_mux.specs.WrongGrants.{IsLowPurpose};
    ghost use Rattle.gateway_mux.specs.Pictures.{picture, books_in};

    /// What an item of the server does.
    #[inline(always)]
    pub fn plan_heard(&self, alloc: Global, item: &Item) -> Result<Act, Memory>
        ensures act { IfOk result
            (IsAct self.now.bases (picture self.now.seats self.now.upstream) (hears (shape_of item.now))) }
        ensures short { IfOk result IsShortAct }
        ensures key { IfOk result (IsKeyed self.now.seats) }
        ensures free { is_message item.now.kind ≡ false → IsOk result }
    {
        if item.kind == ItemKind::Frame {
            return Ok(self.plan_fall(item));
        }
        match hear(alloc, item)? {
            ServerItem::Reply(reply) => self.plan_reply(alloc, &reply),
            ServerItem::Ask(ask) => self.plan_ask(alloc, &ask),
            ServerItem::Fault(fault) => Ok(Act::Ends(UpCause::Framing(fault))),
        }
    }

    /// What a frame of the server does.
    #[inline(always)]
    fn plan_fall(&self, item: &Item) -> Act
        requires { item.now.kind ≡ Frame }
        ensures act { IsAct self.now.bases (picture self.now.seats self.now.upstream)
            (hears (shape_of item.now)) result }
        ensures short { IsShortAct result }
        ensures key { IsKeyed self.now.seats result }
    {
        match self.fall(item) {
            Some(fall) => Act::Falls(fall),
            None => Act::Nothing,
        }
    }

    /// Where a frame of the server goes; nothing where it is dropped.
    #[inline(always)]
    pub fn fall(&self, item: &Item) -> Option<FramePath>
        requires { item.now.kind ≡ Frame }
        ensures { FallsTo self.now.bases (picture self.now.seats self.now.upstream)
            (hears (shape_of item.now)) result }
    {
        let channel = channel_of(item);
        let Some(held) = self.upstream.channels.owner(channel) else {
            return None;
        };
        if !held.granted {
            return None;
        }
        let Some(slot) = self.seats.slot(held.conn) else {
            return None;
        };
        if !slot.alive() {
            return None;
        }
        match channel_for(slot, channel / 2, channel % 2) {
            Some(channel) => Some(FramePath {
                conn: held.conn,
                channel,
            }),
            None => None,
        }
    }

    /// What a reply of the server does.
    fn plan_reply(&self, alloc: Global, reply: &Reply2<'_>) -> Result<Act, Memory>
        ensures act { (shape : Shape) → heard shape ≡ replies reply.now
            → IfOk result (IsAct self.now.bases (picture self.now.seats self.now.upstream) (hears shape)) }
        ensures short { IfOk result IsShortAct }
        ensures key { IfOk result (IsKeyed self.now.seats) }
    {
        let Some(conn) = self.upstream.requests.owner(reply.cseq) else {
            return Ok(Act::Ends(UpCause::UnknownReply(reply.cseq)));
        };
        let Some(seat) = self.seats.seat(conn) else {
            unreachable!();
        };
        let Some(pending) = seat.slot.pending() else {
            unreachable!();
        };
        let grant = grant_said(reply);
        if let Some(cause) = self.breach(pending, named_by(seat.slot, pending), grant, reply) {
            return Ok(Act::Ends(cause));
        }
        let settled = if reply.code < 200 {
            None
        } else {
            Some(what_settles(alloc, seat.slot, pending, reply)?)
        };
        let said = TurnFacts {
            number: reply.cseq,
            settled,
            ..TurnFacts::alone(conn)
        };
        let source = source_in(grant);
        self.plan_turn(
            alloc,
            Some(seat),
            said,
            &Incoming::Reply(ServerReply { reply, source }),
        )
    }

    /// What is wrong with a reply to the open request of a connection, which named this session. The
    /// reply grants this.
    fn breach(
        &self,
        pending: Pending<'_>,
        session: Option<&[u8]>,
        grant: Option<Grant>,
        reply: &Reply2<'_>,
    ) -> Option<UpCause>
        requires low { IsLowPurpose (purpose_seen pending) }
        requires grant { grant ≡ grant_said reply.now }
        ensures { (sessions : List PlayerSession) → result
            ≡ kind_breach (books_in (picture self.now.seats self.now.upstream))
            (kind_pending sessions (Some (purpose_seen pending.entry))) (option_copied session.entry)
            reply.now }
    {
        match pending {
            Pending::Client(_, Some(track)) if is_success(reply.code) => {
                wrong_grant(&self.upstream.sessions, track.pair, session, grant, reply)
            }
            _ => None,
        }
    }

    /// What a request of the server does.
    fn plan_ask(&self, alloc: Global, ask: &Ask2<'_>) -> Result<Act, Memory>
        ensures act { (shape : Shape) → heard shape ≡ requests ask.now
            → IfOk result (IsAct self.now.bases (picture self.now.seats self.now.upstream) (hears shape)) }
        ensures short { IfOk result IsShortAct }
        ensures key { IfOk result (IsKeyed self.now.seats) }
    {
        match read_notice(&self.upstream.sessions, ask) {
            Ok(notice) => {
                let said = TurnFacts {
                    answer: Some(answer(alloc, 200, ask.cseq, Some(notice.id))?),
                    ..TurnFacts::alone(notice.conn)
                };
                let seat = self.seats.seat(notice.conn);
                let incoming = Incoming::Notice(notice.id, notice.reason, notice.names);
                self.plan_turn(alloc, seat, said, &incoming)
            }
            Err(refusal) => Ok(Act::Answers(answer(alloc, refusal.code(), ask.cseq, None)?)),
        }
    }
}

/// The id of the session that the open request of a player named.
fn named_by<'a>(slot: &'a Slot, pending: Pending<'_>) -> Option<&'a [u8]>
    requires { slot.now.pending ≡ Some (purpose_seen pending) }
    ensures { option_copied result ≡ session_asked slot.entry.now.sessions slot.entry.now.pending }
{
    slot.keeps();
    match pending {
        Pending::Client(asked, _) => slot.session(asked.place?),
        Pending::Released(_) | Pending::Closing(_) => None,
    }
}

/// The answer to a request of the server.
fn answer(alloc: Global, code: u16, cseq: u32, session: Option<&[u8]>) -> Result<Text, Memory>
    requires reason { has_reason code ≡ true }
    requires session { IfSome session (λ id. is_session_id id.now ≡ true) }
    ensures text { IfOk result (λ text. text ≡ answer_text code cseq (option_copied session.entry)) }
    ensures short { IfOk result (λ text. IsShortAnswer (Some text)) }
{
    write_answer(alloc, code, cseq, session)
}
