//! The calls of a hub. Each is lent what the lock guards.
ghost use Rattle.std.specs.Prelude.{◌≡◌, ◌≢◌, List, [], None, false, length, IfOk, IfErr};
ghost use Rattle.client_ports.specs.Ends.{OfOnePort, capacity_of, put_of, taken_of};
ghost use Rattle.gateway_claim.specs.Happenings.{HistoryEntry};
ghost use Rattle.hub_queues.specs.declared.ending.StopWhy.TheVariants as stops;
ghost use Rattle.hub_queues.specs.declared.limits.TheConstants.{SERVER_INWARD_CAPACITY, SERVER_CAPACITY};
ghost use Rattle.gateway_hub.specs.Calls.{TakesFirst, TakesFirstUp, Shuts, ShutsUp, Stays};
ghost use Rattle.gateway_hub.specs.Close.{TellsOver, is_open_by};
ghost use Rattle.gateway_hub.specs.Endings.{ShowsFault, FailsShown};
ghost use Rattle.gateway_hub.specs.Ends.{KeepsEnds, KeepsOtherEnds};
ghost use Rattle.gateway_hub.specs.Enter.{IsFreshDesk, Enters};
ghost use Rattle.gateway_hub.specs.Keeps.{Keeps, StandsIdle};
ghost use Rattle.gateway_hub.specs.Notes.{TellsNotes};
ghost use Rattle.hub_queues.specs.Places.{line_at};
ghost use Rattle.gateway_hub.specs.Receipts.{ClosesWith, ClosesSome};
ghost use Rattle.gateway_hub.specs.Retire.{RetiresSo};
ghost use Rattle.hub_queues.specs.Room.{HasRoomFor};
ghost use Rattle.gateway_hub.specs.Rooms.{LooksAt, RemembersLast};
ghost use Rattle.gateway_hub.specs.Take.{Stops, is_full_reason};

use super::Hub;
use crate::enter::fresh_desk;
use crate::state::HubState;
use crate::{
    Ending, Entered, HubFault, Receipt, Receipts, Recorder, SERVER_CAPACITY,
    SERVER_INWARD_CAPACITY, Seat, StopWhy, Taken,
};
use client_ports::{Putter, Taker, port};
use gate_bytes::Memory;
use gateway_claim::{Bases, Core, UpWhy};
use hub_queues::room_of;
use std::alloc::Global;
use std::sync::Wait;

impl<M: Core, R: Recorder> Hub<M, R> {
    /// A hub to which nothing happened, over a core and a recorder to which nothing happened either; with the server's end
    /// that puts what it says, and the one that takes what it is handed. After want of memory both come back as they were.
    pub fn new(
        alloc: Global,
        core: M,
        recorder: R,
    ) -> Result<(Hub<M, R>, Putter, Taker), (M, R, Memory)>
        requires core { M.stands core [] }
        requires recorder { TellsNotes (R.entries recorder) [] }
        ensures fresh { IfOk result (λ made. IsFreshDesk made.0.state.desk) }
        ensures keeps { IfOk result (λ made.
            Keeps (StandsIdle M.stands M.waits M.bases made.0.state.core) (R.entries made.0.state.recorder)
            (R.faults made.0.state.recorder) made.0.state.desk []) }
        ensures bases { IfOk result (λ made. M.bases made.0.state.core ≡ M.bases core) }
        ensures last { IfOk result (λ made. made.0.state.last ≡ None) }
        ensures inward { IfOk result (λ made. OfOnePort made.1 made.0.state.desk.server.inward) }
        ensures outward { IfOk result (λ made. OfOnePort made.0.state.desk.server.outward made.2) }
        ensures put { IfOk result (λ made. put_of made.1 ≡ []) }
        ensures taken { IfOk result (λ made. taken_of made.2 ≡ []) }
        ensures inward_capacity { IfOk result (λ made. capacity_of made.1 ≡ SERVER_INWARD_CAPACITY) }
        ensures outward_capacity { IfOk result (λ made.
            capacity_of made.0.state.desk.server.outward ≡ SERVER_CAPACITY) }
        ensures back { IfErr result (λ back. (back.0 ≡ core) × (back.1 ≡ recorder)) }
    {
        let (inward, items) = match port(alloc, SERVER_INWARD_CAPACITY) {
            Ok(ends) => ends,
            Err(memory) => return Err((core, recorder, memory)),
        };
        let (pieces, outward) = match port(alloc, SERVER_CAPACITY) {
            Ok(ends) => ends,
            Err(memory) => return Err((core, recorder, memory)),
        };
        let desk = fresh_desk(alloc, items, pieces);
        let state = HubState {
            core,
            recorder,
            desk,
            last: None,
            closed: false,
        };
        Ok((Hub { state }, inward, outward))
    }

    /// A connection enters, under the next number from 0 on. Where all numbers were given, the hub is stopped with `Spent`.
    /// After want of memory the core may be prepared, and all else is as before.
    pub fn enter(&mut self, alloc: Global) -> Result<Entered, HubFault>
        ensures enters { Enters result
            (Keeps (StandsIdle M.stands M.waits M.bases self.old.state.core)
            (R.entries self.old.state.recorder) (R.faults self.old.state.recorder) self.old.state.desk)
            (Keeps (StandsIdle M.stands M.waits M.bases self.new.state.core)
            (R.entries self.new.state.recorder) (R.faults self.new.state.recorder) self.new.state.desk)
            self.old.state.desk self.new.state.desk }
        ensures ends { KeepsOtherEnds (length self.old.state.desk.places.items) self.old.state.desk
            self.new.state.desk }
        ensures last { self.new.state.last ≡ self.old.state.last }
        ensures bases { M.bases self.new.state.core ≡ M.bases self.old.state.core }
        ensures shown { ShowsFault self.old.state.desk.ending self.new.state.desk.ending
            (R.faults self.old.state.recorder) (R.faults self.new.state.recorder) }
        ensures failed { FailsShown result (R.faults self.old.state.recorder)
            (R.faults self.new.state.recorder) }
    {
        self.state.enter(alloc)
    }

    /// Takes the first item in line of a connection, as an event. Where memory was wanting, or the note failed, the item
    /// stays first in line.
    pub fn take<W: Wait>(&mut self, alloc: Global, rt: &W, seat: &Seat) -> Result<Taken, HubFault>
        ensures takes { TakesFirst seat.now.conn (M.is_busy (M.bases self.old.state.core) seat.now.conn)
            result
            (Keeps (StandsIdle M.stands M.waits M.bases self.old.state.core)
            (R.entries self.old.state.recorder) (R.faults self.old.state.recorder) self.old.state.desk)
            (Keeps (StandsIdle M.stands M.waits M.bases self.new.state.core)
            (R.entries self.new.state.recorder) (R.faults self.new.state.recorder) self.new.state.desk)
            self.old.state.desk self.new.state.desk }
        ensures ends { KeepsEnds self.old.state.desk self.new.state.desk }
        ensures last { self.new.state.last ≡ self.old.state.last }
        ensures bases { M.bases self.new.state.core ≡ M.bases self.old.state.core }
        ensures shown { ShowsFault self.old.state.desk.ending self.new.state.desk.ending
            (R.faults self.old.state.recorder) (R.faults self.new.state.recorder) }
        ensures failed { FailsShown result (R.faults self.old.state.recorder)
            (R.faults self.new.state.recorder) }
    {
        self.state.take(alloc, rt, seat.conn)
    }

    /// Takes the first item in line of the server, as an event, and tells whether there was one. `last_handed` tells the
    /// connection for which bytes were put then.
    pub fn take_up<W: Wait>(&mut self, alloc: Global, rt: &W) -> Result<bool, HubFault>
        ensures takes { TakesFirstUp result
            (Keeps (StandsIdle M.stands M.waits M.bases self.old.state.core)
            (R.entries self.old.state.recorder) (R.faults self.old.state.recorder) self.old.state.desk)
            (Keeps (StandsIdle M.stands M.waits M.bases self.new.state.core)
            (R.entries self.new.state.recorder) (R.faults self.new.state.recorder) self.new.state.desk)
            self.old.state.desk self.new.state.desk }
        ensures ends { KeepsEnds self.old.state.desk self.new.state.desk }
        ensures last { RemembersLast result self.old.state.last self.new.state.last
            self.old.state.desk.places.items self.new.state.desk.places.items }
        ensures bases { M.bases self.new.state.core ≡ M.bases self.old.state.core }
        ensures shown { ShowsFault self.old.state.desk.ending self.new.state.desk.ending
            (R.faults self.old.state.recorder) (R.faults self.new.state.recorder) }
        ensures failed { FailsShown result (R.faults self.old.state.recorder)
            (R.faults self.new.state.recorder) }
    {
        self.state.take_up(alloc, rt)
    }

    /// The connection for which bytes were put last as an item of the server was taken, since this was asked last.
    pub fn last_handed(&mut self) -> Option<u32>
        ensures told { result ≡ self.old.state.last }
        ensures cleared { self.new.state.last ≡ None }
        ensures same { self.new.state.desk ≡ self.old.state.desk }
        ensures ends { KeepsEnds self.old.state.desk self.new.state.desk }
        ensures stays { Stays
            (Keeps (StandsIdle M.stands M.waits M.bases self.old.state.core)
            (R.entries self.old.state.recorder) (R.faults self.old.state.recorder) self.old.state.desk)
            (Keeps (StandsIdle M.stands M.waits M.bases self.new.state.core)
            (R.entries self.new.state.recorder) (R.faults self.new.state.recorder) self.new.state.desk) }
        ensures bases { M.bases self.new.state.core ≡ M.bases self.old.state.core }
    {
        self.state.last.take()
    }

    /// Whether a connection was closed since it was too slow, since this was asked last.
    pub fn has_closed(&mut self) -> bool
        ensures told { result ≡ self.old.state.closed }
        ensures cleared { self.new.state.closed ≡ false }
        ensures same { self.new.state.desk ≡ self.old.state.desk }
        ensures ends { KeepsEnds self.old.state.desk self.new.state.desk }
        ensures last { self.new.state.last ≡ self.old.state.last }
        ensures stays { Stays
            (Keeps (StandsIdle M.stands M.waits M.bases self.old.state.core)
            (R.entries self.old.state.recorder) (R.faults self.old.state.recorder) self.old.state.desk)
            (Keeps (StandsIdle M.stands M.waits M.bases self.new.state.core)
            (R.entries self.new.state.recorder) (R.faults self.new.state.recorder) self.new.state.desk) }
        ensures bases { M.bases self.new.state.core ≡ M.bases self.old.state.core }
    {
        let closed = self.state.closed;
        self.state.closed = false;
        closed
    }

    /// How many parcels were put for the server's writer.
    pub fn asked(&self) -> u64
        ensures { result ≡ length (put_of self.now.state.desk.server.outward) }
    {
        self.state.desk.server.outward.count()
    }

    /// How many parcels more the port for a connection's client took at one moment of the call; `OUTWARD_CAPACITY` where the
    /// hub never gave the number, or has retired it.
    pub fn room<W: Wait>(&mut self, rt: &W, conn: u32) -> usize
        ensures room { HasRoomFor result (line_at self.old.state.desk.places.items conn) }
        ensures looks { LooksAt conn self.old.state.desk self.new.state.desk }
        ensures stays { Stays
            (Keeps (StandsIdle M.stands M.waits M.bases self.old.state.core)
            (R.entries self.old.state.recorder) (R.faults self.old.state.recorder) self.old.state.desk)
            (Keeps (StandsIdle M.stands M.waits M.bases self.new.state.core)
            (R.entries self.new.state.recorder) (R.faults self.new.state.recorder) self.new.state.desk) }
        ensures ends { KeepsEnds self.old.state.desk self.new.state.desk }
        ensures last { self.new.state.last ≡ self.old.state.last }
        ensures bases { M.bases self.new.state.core ≡ M.bases self.old.state.core }
    {
        room_of(&mut self.state.desk.places, rt, conn)
    }

    /// A connection ended. With a seat whose number the hub never gave, or has retired, nothing happens.
    pub fn shut<W: Wait>(&mut self, alloc: Global, rt: &W, seat: &Seat) -> Result<(), HubFault>
        ensures shuts { Shuts seat.now.conn (line_at self.old.state.desk.places.items seat.now.conn) result
            (Keeps (StandsIdle M.stands M.waits M.bases self.old.state.core)
            (R.entries self.old.state.recorder) (R.faults self.old.state.recorder) self.old.state.desk)
            (Keeps (StandsIdle M.stands M.waits M.bases self.new.state.core)
            (R.entries self.new.state.recorder) (R.faults self.new.state.recorder) self.new.state.desk)
            self.old.state.desk self.new.state.desk }
        ensures ends { KeepsEnds self.old.state.desk self.new.state.desk }
        ensures last { self.new.state.last ≡ self.old.state.last }
        ensures bases { M.bases self.new.state.core ≡ M.bases self.old.state.core }
        ensures shown { ShowsFault self.old.state.desk.ending self.new.state.desk.ending
            (R.faults self.old.state.recorder) (R.faults self.new.state.recorder) }
        ensures failed { FailsShown result (R.faults self.old.state.recorder)
            (R.faults self.new.state.recorder) }
    {
        self.state.shut(alloc, rt, seat.conn)
    }

    /// The connection to the server ended, for another reason than that it was too slow, which the hub notes by itself.
    pub fn shut_up<W: Wait>(&mut self, alloc: Global, rt: &W, why: UpWhy) -> Result<(), HubFault>
        requires { is_full_reason why ≡ false }
        ensures shuts { ShutsUp why result
            (Keeps (StandsIdle M.stands M.waits M.bases self.old.state.core)
            (R.entries self.old.state.recorder) (R.faults self.old.state.recorder) self.old.state.desk)
            (Keeps (StandsIdle M.stands M.waits M.bases self.new.state.core)
            (R.entries self.new.state.recorder) (R.faults self.new.state.recorder) self.new.state.desk)
            self.old.state.desk self.new.state.desk }
        ensures ends { KeepsEnds self.old.state.desk self.new.state.desk }
        ensures last { self.new.state.last ≡ self.old.state.last }
        ensures bases { M.bases self.new.state.core ≡ M.bases self.old.state.core }
        ensures shown { ShowsFault self.old.state.desk.ending self.new.state.desk.ending
            (R.faults self.old.state.recorder) (R.faults self.new.state.recorder) }
        ensures failed { FailsShown result (R.faults self.old.state.recorder)
            (R.faults self.new.state.recorder) }
    {
        self.state.shut_up(alloc, rt, why)
    }

    /// Retires a connection, whose ends come back. It is ended first where it is alive, unless an ending was kept; where that
    /// can't be noted, the hub is stopped. Its receipt is kept. With a seat whose number the hub never gave, or has retired,
    /// the receipt tells of the ends alone, and none is kept. No memory is taken but what the recorder takes.
    pub fn retire<W: Wait>(
        &mut self,
        alloc: Global,
        rt: &W,
        seat: Seat,
        inward: Putter,
        outward: Taker,
    ) -> Receipt
        ensures retires { RetiresSo seat.conn (length (put_of inward)) (length (taken_of outward)) result
            (Keeps (StandsIdle M.stands M.waits M.bases self.old.state.core)
            (R.entries self.old.state.recorder) (R.faults self.old.state.recorder) self.old.state.desk)
            (Keeps (StandsIdle M.stands M.waits M.bases self.new.state.core)
            (R.entries self.new.state.recorder) (R.faults self.new.state.recorder) self.new.state.desk)
            self.old.state.desk self.new.state.desk }
        ensures ends { KeepsOtherEnds seat.conn self.old.state.desk self.new.state.desk }
        ensures last { self.new.state.last ≡ self.old.state.last }
        ensures bases { M.bases self.new.state.core ≡ M.bases self.old.state.core }
        ensures shown { ShowsFault self.old.state.desk.ending self.new.state.desk.ending
            (R.faults self.old.state.recorder) (R.faults self.new.state.recorder) }
    {
        self.state.retire(alloc, rt, seat.conn, inward, outward)
    }

    /// Stops the hub, for another reason than `Spent` and `Record`, which the hub keeps by itself. The first ending is kept.
    pub fn stop(&mut self, why: StopWhy)
        requires spent { why ≢ stops.Spent }
        requires record_fault { why ≢ stops.Record }
        ensures stops { Stops why self.old.state.desk self.new.state.desk }
        ensures stays { Stays
            (Keeps (StandsIdle M.stands M.waits M.bases self.old.state.core)
            (R.entries self.old.state.recorder) (R.faults self.old.state.recorder) self.old.state.desk)
            (Keeps (StandsIdle M.stands M.waits M.bases self.new.state.core)
            (R.entries self.new.state.recorder) (R.faults self.new.state.recorder) self.new.state.desk) }
        ensures ends { KeepsEnds self.old.state.desk self.new.state.desk }
        ensures last { self.new.state.last ≡ self.old.state.last }
        ensures bases { M.bases self.new.state.core ≡ M.bases self.old.state.core }
    {
        self.state.desk.stop(why)
    }

    /// Why no more events are taken, where an ending was kept.
    pub fn ending(&self) -> Option<Ending>
        ensures { result ≡ self.now.state.desk.ending }
    {
        self.state.desk.ending
    }

    /// Whether the connection with this number is open: it is alive, and no ending was kept.
    pub fn is_open(&self, conn: u32) -> bool
        ensures { (T : List HistoryEntry)
            → Keeps (StandsIdle M.stands M.waits M.bases self.now.state.core)
            (R.entries self.now.state.recorder) (R.faults self.now.state.recorder) self.now.state.desk T
            → result ≡ is_open_by conn self.now.state.desk.ending T }
    {
        self.state.desk.ending.is_none() && self.state.core.alive(conn)
    }

    /// Whether all connections that entered are over: each was retired and has its close in the history, and no more arrived
    /// from it than was pushed, and it took no more than was handed. No memory is taken.
    pub fn all_closed(&self) -> bool
        ensures { (T : List HistoryEntry)
            → Keeps (StandsIdle M.stands M.waits M.bases self.now.state.core)
            (R.entries self.now.state.recorder) (R.faults self.now.state.recorder) self.now.state.desk T
            → TellsOver result self.now.state.desk.places.items T }
    {
        self.state.all_closed()
    }

    /// Closes the hub: gives back the recorder, and the receipts of all connections that entered. What the receipts tell is so
    /// by the history of the core, which is that of the recorder's entries where these are told. No memory is taken.
    pub fn close(self) -> (R, Receipts)
        ensures recorder { result.0 ≡ self.state.recorder }
        ensures receipts { (T : List HistoryEntry)
            → Keeps (StandsIdle M.stands M.waits M.bases self.state.core) (R.entries self.state.recorder)
            (R.faults self.state.recorder) self.state.desk T
            → ClosesWith (R.entries result.0) self.state.desk result.1 T }
        ensures history { ∥ ClosesSome M.follows (M.bases self.state.core) (R.entries result.0)
            self.state.desk result.1 ∥₁ }
    {
        self.state.close()
    }

    /// The addresses with which the core was made.
    pub fn bases(&self) -> &Bases
        ensures { result.now ≡ M.bases self.now.state.core }
    {
        self.state.core.bases()
    }
}
