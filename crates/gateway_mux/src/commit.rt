//! Carrying out what an event does.
ghost use Rattle.std.specs.Prelude.{◌≡◌, true, None, IfOk, OnErr};
ghost use Rattle.rtsp_head.specs.Shapes.{shape_of};
ghost use Rattle.rtsp_head.specs.declared.item.ItemKind.TheVariants.{Request};
ghost use Rattle.client_machine.specs.Plans.{IsShortPlan};
ghost use Rattle.gateway_claim.specs.Happenings.{Happening, happening_of, takes};
ghost use Rattle.gateway_claim.specs.Tells.{is_frame_item};

use crate::act::{Act, PlannedClose};
use crate::connections::Connections;
use crate::frames::on_channel;
use crate::outcome::{answering, ending, falling, handed, nothing, rising};
use crate::turn::{PlannedTurn, commit_turn};
use client_machine::{Incoming, plan, plan_close};
use gate_bytes::{Memory, Text};
use gateway_claim::{Event, Outcome, UpCause};
use rtsp_head::Item;
use std::alloc::Global;

impl Connections {
    ghost use Rattle.gateway_mux.specs.Acts.{IsAct, IsPlannedTurn, IsTurnOfSome, IsPlannedClose, IsCloseOfSome, IsShortAct, IsKeyed};
    ghost use Rattle.gateway_mux.specs.Moves.{IsCommitted};
    ghost use Rattle.gateway_mux.specs.Pictures.{picture};
    ghost use Rattle.connection_table.specs.Tables.{IsKeyOf};
    ghost use Rattle.gateway_mux.specs.Short.{IsShort, IsShortAnswer};

    /// Carries out what an event does. It takes no memory, and can't be refused.
    #[inline(always)]
    pub fn commit(&mut self, alloc: Global, event: Event, act: Act) -> Outcome
        requires act { IsAct self.old.bases (picture self.old.seats self.old.upstream) (happening_of event)
            act }
        requires key { IsKeyed self.old.seats act }
        ensures commits { IsCommitted self.old.bases (picture self.old.seats self.old.upstream)
            (picture self.new.seats self.new.upstream) (happening_of event) result }
        ensures short { IsShortAct act → IsShort result }
        ensures bases { self.new.bases ≡ self.old.bases }
    {
        match act {
            Act::Nothing => nothing(),
            Act::Rises(channel) => match event {
                Event::Client(_, item) => rising(on_channel(item, channel)),
                _ => unreachable!(),
            },
            Act::Falls(fall) => match event {
                Event::Up(item) => falling(fall.conn, on_channel(item, fall.channel)),
                _ => unreachable!(),
            },
            Act::Answers(answer) => answering(Some(answer)),
            Act::Turns(answer, mut turn) => self.turn(alloc, answer, &mut turn),
            Act::Closes(close) => {
                let mut turn = self.closing(alloc, close);
                self.turn(alloc, None, &mut turn)
            }
            Act::Ends(cause) => ending(cause),
        }
    }

    /// Takes a request of a player: its turn is planned, and carried out where it was planned. Where memory is wanting,
    /// nothing changes.
    #[inline(always)]
    pub fn take_request(&mut self, alloc: Global, conn: u32, item: &Item) -> Result<Outcome, Memory>
        requires { item.now.kind ≡ Request }
        ensures commits { IfOk result
            (IsCommitted self.old.bases (picture self.old.seats self.old.upstream)
            (picture self.new.seats self.new.upstream) (takes conn (shape_of item.now))) }
        ensures short { IfOk result IsShort }
        ensures err { OnErr result
            ((self.new.seats ≡ self.old.seats) × (self.new.upstream ≡ self.old.upstream)) }
        ensures bases { self.new.bases ≡ self.old.bases }
    {
        let Some(seat) = self.seats.seat(conn) else {
            return Ok(nothing());
        };
        let next = self.upstream.requests.issued() + 1;
        let pair = self.upstream.free_once(&None);
        let mut turn = PlannedTurn::blank(alloc, conn, seat.key, 0, next);
        let incoming = Incoming::Request(item);
        plan(
            alloc,
            &self.bases,
            seat.slot,
            next,
            pair,
            &incoming,
            &mut turn.plan,
        )?;
        let asks = turn.plan.asks();
        if self.upstream.lacks_number(asks) {
            return Ok(ending(UpCause::CseqSpent));
        }
        turn.complete(None, asks);
        Ok(self.turn(alloc, None, &mut turn))
    }

    /// Hands on a frame, or drops it. That changes no connection and takes no memory, so a frame needs no plan.
    #[inline(always)]
    pub fn pass(&self, event: Event) -> Outcome
        requires { is_frame_item (happening_of event) ≡ true }
        ensures commits { IsCommitted self.now.bases (picture self.now.seats self.now.upstream)
            (picture self.now.seats self.now.upstream) (happening_of event) result }
        ensures open { result.fault ≡ None }
        ensures short { IsShort result }
    {
        match event {
            Event::Client(conn, item) => match self.rise(conn, self.seats.seat(conn), &item) {
                Some(channel) => rising(on_channel(item, channel)),
                None => nothing(),
            },
            Event::Up(item) => match self.fall(&item) {
                Some(fall) => falling(fall.conn, on_channel(item, fall.channel)),
                None => nothing(),
            },
            Event::End(_) | Event::Slow(_) | Event::UpEnd(_) => unreachable!(),
        }
    }

    /// Carries out the turn of a connection, after this answer to the server. Once it is over it is
    /// forgotten. It is not inlined, since it has three callers.
    #[inline(never)]
    fn turn(&mut self, alloc: Global, answer: Option<Text>, turn: &mut PlannedTurn) -> Outcome
        requires turn { IsTurnOfSome self.old.bases (picture self.old.seats self.old.upstream) answer turn.old }
        requires key { IsKeyOf self.old.seats turn.old.conn turn.old.key }
        ensures commits { (h : Happening)
            → IsPlannedTurn self.old.bases (picture self.old.seats self.old.upstream) h answer turn.old
            → IsCommitted self.old.bases (picture self.old.seats self.old.upstream)
            (picture self.new.seats self.new.upstream) h result }
        ensures short { IsShortAnswer answer → IsShortPlan turn.old.plan → IsShort result }
        ensures bases { self.new.bases ≡ self.old.bases }
    {
        let (conn, key) = (turn.conn, turn.key);
        match commit_turn(alloc, &mut self.seats, &mut self.upstream, turn) {
            Some(done) => {
                self.seats.forget(conn, key);
                handed(conn, answer, done)
            }
            None => unreachable!(),
        }
    }

    /// The turn of a connection that closes. It takes no memory.
    #[inline(never)]
    fn closing(&self, alloc: Global, close: PlannedClose) -> PlannedTurn
        requires key { IsKeyOf self.now.seats close.conn close.key }
        requires close { IsCloseOfSome self.now.bases (picture self.now.seats self.now.upstream) close }
        ensures turn { (h : Happening)
            → IsPlannedClose self.now.bases (picture self.now.seats self.now.upstream) h close
            → IsPlannedTurn self.now.bases (picture self.now.seats self.now.upstream) h None result }
        ensures key { IsKeyOf self.now.seats result.conn result.key }
        ensures short { IsShortPlan result.plan }
    {
        let Some(slot) = self.seats.at(close.key) else {
            unreachable!();
        };
        let plan = plan_close(alloc, slot, close.why);
        let asks = plan.asks();
        PlannedTurn {
            conn: close.conn,
            key: close.key,
            number: 0,
            next: self.upstream.requests.issued() + 1,
            settled: None,
            plan,
            asks,
        }
    }
}
