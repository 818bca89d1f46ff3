//! What events of players do.
ghost use Rattle.std.specs.Prelude.{◌≡◌, ◌+◌, ◌≤◌, false, IsOk, IfOk, Some};
ghost use Rattle.rtsp_head.specs.Shapes.{shape_of};
ghost use Rattle.rtsp_head.specs.declared.item.ItemKind.TheVariants.{Frame};
ghost use Rattle.client_slot.specs.Client.{Client};
ghost use Rattle.up_books.specs.declared.cseq.TheConstants.{LAST_NUMBER};
ghost use Rattle.client_machine.specs.Plans.{Comes, CanCome, incoming_seen, IsPlan, IsShortPlan};
ghost use Rattle.gateway_claim.specs.Cores.{IsOwnKey};
ghost use Rattle.gateway_claim.specs.Happenings.{Happening, takes, happening_of, cause_of};
ghost use Rattle.client_machine.specs.BlankPlans.{blank_plan};
ghost use Rattle.gateway_mux.specs.BlankTurns.{blank_turn};

use crate::act::{Act, PlannedClose};
use crate::connections::Connections;
use crate::frames::channel_of;
use crate::turn::PlannedTurn;
use crate::turn_facts::TurnFacts;
use client_machine::{CloseWhy, Incoming, half_for, plan, plan_close};
use connection_table::KeyedSlot;
use gate_bytes::Memory;
use gateway_claim::{ConnectionKey, Event, UpCause, UpWhy};
use rtsp_head::{Item, ItemKind};
use std::alloc::Global;

impl Connections {
    ghost use Rattle.gateway_mux.specs.Acts.{IsAct, IsSaid, IsClosing, IsShortAct, IsKeyed, IsEventSeat, RisesOn};
    ghost use Rattle.gateway_mux.specs.Free.{is_client_request, needs_memory};
    ghost use Rattle.gateway_mux.specs.Pictures.{picture};
    ghost use Rattle.connection_table.specs.Tables.{IsKeyOf, IsSeatAt};
    ghost use Rattle.gateway_mux.specs.Short.{IsShortAnswer};
    ghost use Rattle.gateway_mux.specs.Turn.{free_once};
    ghost use Rattle.gateway_mux.specs.BlankTurns.{blank_turn};

    /// What an event does. Nothing changes, and all memory for it is taken.
    #[inline(always)]
    pub fn plan(&self, alloc: Global, event: &Event) -> Result<Act, Memory>
        ensures act { IfOk result
            (IsAct self.now.bases (picture self.now.seats self.now.upstream) (happening_of event.now)) }
        ensures short { IfOk result IsShortAct }
        ensures key { IfOk result (IsKeyed self.now.seats) }
        ensures free { needs_memory event.now ≡ false → IsOk result }
    {
        self.plan_seated(alloc, event, self.seat_of(event))
    }

    /// What an event of a player does whose connection is kept under this key. Its number is not searched for.
    #[inline(always)]
    pub fn plan_at(&self, alloc: Global, event: &Event, key: ConnectionKey) -> Result<Act, Memory>
        requires { IsOwnKey (λ conn key. IsKeyOf self.now.seats conn key.place) event.now key }
        ensures act { IfOk result
            (IsAct self.now.bases (picture self.now.seats self.now.upstream) (happening_of event.now)) }
        ensures short { IfOk result IsShortAct }
        ensures key { IfOk result (IsKeyed self.now.seats) }
        ensures free { needs_memory event.now ≡ false → IsOk result }
    {
        self.plan_seated(alloc, event, self.seats.seat_at(key.place))
    }

    /// Where the connection is kept whose own an event is. An event of the server has none.
    #[inline(always)]
    fn seat_of(&self, event: &Event) -> Option<KeyedSlot<'_>>
        ensures { IsEventSeat self.now.seats event.now result }
    {
        match event {
            Event::Client(conn, _) | Event::End(conn) | Event::Slow(conn) => self.seats.seat(*conn),
            Event::Up(_) | Event::UpEnd(_) => None,
        }
    }

    /// What an event does. Where it is a player's own, the player's connection is kept at this seat.
    #[inline(always)]
    fn plan_seated(
        &self,
        alloc: Global,
        event: &Event,
        seat: Option<KeyedSlot<'_>>,
    ) -> Result<Act, Memory>
        requires { IsEventSeat self.now.seats event.now seat }
        ensures act { IfOk result
            (IsAct self.now.bases (picture self.now.seats self.now.upstream) (happening_of event.now)) }
        ensures short { IfOk result IsShortAct }
        ensures key { IfOk result (IsKeyed self.now.seats) }
        ensures free { needs_memory event.now ≡ false → IsOk result }
    {
        match event {
            Event::Client(conn, item) => self.plan_item(alloc, *conn, seat, item),
            Event::Up(item) => self.plan_heard(alloc, item),
            Event::End(conn) => Ok(self.plan_close(alloc, *conn, seat, CloseWhy::Ended)),
            Event::Slow(conn) => Ok(self.plan_close(alloc, *conn, seat, CloseWhy::Slow)),
            Event::UpEnd(why) => Ok(Act::Ends(cause_of(*why))),
        }
    }

    /// What an item of a player does, whose connection is kept at this seat.
    #[inline(always)]
    fn plan_item(
        &self,
        alloc: Global,
        conn: u32,
        seat: Option<KeyedSlot<'_>>,
        item: &Item,
    ) -> Result<Act, Memory>
        requires { IsSeatAt self.now.seats conn seat }
        ensures act { IfOk result
            (IsAct self.now.bases (picture self.now.seats self.now.upstream) (takes conn (shape_of item.now))) }
        ensures short { IfOk result IsShortAct }
        ensures key { IfOk result (IsKeyed self.now.seats) }
        ensures free { is_client_request item.now.kind ≡ false → IsOk result }
    {
        match item.kind {
            ItemKind::Request => self.plan_turn(
                alloc,
                seat,
                TurnFacts::alone(conn),
                &Incoming::Request(item),
            ),
            ItemKind::Response => Ok(Act::Nothing),
            ItemKind::Frame => Ok(self.plan_rise(conn, seat, item)),
            ItemKind::Bad(_) => Ok(self.plan_close(alloc, conn, seat, CloseWhy::BadItem)),
        }
    }

    /// What a frame of a player does, whose connection is kept at this seat.
    #[inline(always)]
    fn plan_rise(&self, conn: u32, seat: Option<KeyedSlot<'_>>, item: &Item) -> Act
        requires frame { item.now.kind ≡ Frame }
        requires seat { IsSeatAt self.now.seats conn seat }
        ensures act { IsAct self.now.bases (picture self.now.seats self.now.upstream)
            (takes conn (shape_of item.now)) result }
        ensures short { IsShortAct result }
        ensures key { IsKeyed self.now.seats result }
    {
        match self.rise(conn, seat, item) {
            Some(channel) => Act::Rises(channel),
            None => Act::Nothing,
        }
    }

    /// The channel of the server's connection on which a frame of a player goes up, whose connection is kept at this seat;
    /// nothing where the frame is dropped.
    #[inline(always)]
    pub fn rise(&self, conn: u32, seat: Option<KeyedSlot<'_>>, item: &Item) -> Option<u8>
        requires frame { item.now.kind ≡ Frame }
        requires seat { IsSeatAt self.now.seats conn seat }
        ensures { RisesOn self.now.bases (picture self.now.seats self.now.upstream)
            (takes conn (shape_of item.now)) result }
    {
        let Some(seat) = seat else {
            return None;
        };
        if !seat.slot.alive() {
            return None;
        }
        match half_for(seat.slot, channel_of(item)) {
            Some(half) => Some(2 * half.pair + half.half),
            None => None,
        }
    }

    /// What the close of a connection does, which is kept at this seat. It takes no memory.
    fn plan_close(
        &self,
        alloc: Global,
        conn: u32,
        seat: Option<KeyedSlot<'_>>,
        why: CloseWhy,
    ) -> Act
        requires { IsSeatAt self.now.seats conn seat }
        ensures act { (h : Happening) → IsClosing conn why h
            → IsAct self.now.bases (picture self.now.seats self.now.upstream) h result }
        ensures short { IsShortAct result }
        ensures key { IsKeyed self.now.seats result }
    {
        match seat {
            Some(seat) => self.closed(alloc, conn, seat, why),
            None => Act::Nothing,
        }
    }

    /// What the close of a connection does that is kept here. Where its TEARDOWN is due and no number is left, the
    /// connection to the server ends.
    fn closed(&self, alloc: Global, conn: u32, seat: KeyedSlot<'_>, why: CloseWhy) -> Act
        requires { IsSeatAt self.now.seats conn (Some seat) }
        ensures act { (h : Happening) → IsClosing conn why h
            → IsAct self.now.bases (picture self.now.seats self.now.upstream) h result }
        ensures short { IsShortAct result }
        ensures key { IsKeyed self.now.seats result }
    {
        let asks = plan_close(alloc, seat.slot, why).asks();
        if self.upstream.lacks_number(asks) {
            return Act::Ends(UpCause::CseqSpent);
        }
        Act::Closes(PlannedClose {
            conn,
            key: seat.key,
            why,
        })
    }

    /// What the turn of a connection does, which is kept at this seat.
    #[inline(always)]
    pub fn plan_turn(
        &self,
        alloc: Global,
        seat: Option<KeyedSlot<'_>>,
        said: TurnFacts,
        incoming: &Incoming<'_>,
    ) -> Result<Act, Memory>
        requires sound { CanCome (incoming_seen incoming.now) }
        requires short { IsShortAnswer said.answer }
        requires seat { IsSeatAt self.now.seats said.conn seat }
        ensures act { (h : Happening)
            → IsSaid self.now.bases (picture self.now.seats self.now.upstream) h said
            (incoming_seen incoming.now)
            → IfOk result (IsAct self.now.bases (picture self.now.seats self.now.upstream) h) }
        ensures short { IfOk result IsShortAct }
        ensures key { IfOk result (IsKeyed self.now.seats) }
    {
        let Some(seat) = seat else {
            return Ok(said.answers());
        };
        let next = self.upstream.requests.issued() + 1;
        let pair = self.upstream.free_once(&said.settled);
        let mut turn = blank_turn(alloc, said.conn, seat.key, said.number, next)?;
        plan(
            alloc,
            &self.bases,
            seat.slot,
            next,
            pair,
            incoming,
            &mut turn.plan,
        )?;
        Ok(self.turned(said, turn))
    }

    /// What the turn of a connection does, which is planned but for what it settles. Where a request is due and no number is
    /// left, the connection to the server ends.
    #[inline(always)]
    fn turned(&self, said: TurnFacts, turn: Box<PlannedTurn>) -> Act
        requires key { IsKeyOf self.now.seats said.conn turn.value.key }
        requires high { self.now.upstream.requests.issued ≤ LAST_NUMBER }
        requires turn { turn.value
            ≡ blank_turn said.conn turn.value.key said.number (self.now.upstream.requests.issued + 1) turn.value.plan }
        ensures act { (h : Happening) (comes : Comes) (client : Client)
            → IsSaid self.now.bases (picture self.now.seats self.now.upstream) h said comes
            → (picture self.now.seats self.now.upstream).clients said.conn ≡ Some client
            → IsPlan self.now.bases (self.now.upstream.requests.issued + 1)
            (free_once said.settled (picture self.now.seats self.now.upstream).held) client comes turn.value.plan
            → IsAct self.now.bases (picture self.now.seats self.now.upstream) h result }
        ensures short { IsShortAnswer said.answer → IsShortPlan turn.value.plan → IsShortAct result }
        ensures key { IsKeyed self.now.seats result }
    {
        let mut turn = turn;
        let TurnFacts {
            settled,
            answer,
            ..
        } = said;
        let asks = turn.plan.asks();
        if self.upstream.lacks_number(asks) {
            return Act::Ends(UpCause::CseqSpent);
        }
        turn.complete(settled, asks);
        Act::Turns(answer, turn)
    }
}

/// The turn of a connection that is to be planned, in a box: a plan is large, and is written where it stays.
fn blank_turn(
    alloc: Global,
    conn: u32,
    key: usize,
    number: u32,
    next: u32,
) -> Result<Box<PlannedTurn>, Memory>
    ensures { IfOk result (λ turn. turn.value ≡ blank_turn conn key number next blank_plan) }
{
    match Box::new(alloc, PlannedTurn::blank(alloc, conn, key, number, next)) {
        Ok(turn) => Ok(turn),
        Err(_) => Err(Memory),
    }
}

/// The cause of an end that no item of the server caused.
fn cause_of(why: UpWhy) -> UpCause
    ensures { result ≡ cause_of why }
{
    match why {
        UpWhy::Ended => UpCause::Ended,
        UpWhy::ReadFault => UpCause::ReadFault,
        UpWhy::WriteFault => UpCause::WriteFault,
        UpWhy::UpFull => UpCause::UpFull,
    }
}
