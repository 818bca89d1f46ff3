//! What goes out by one link.
ghost use Rattle.std.specs.Prelude.{◌≡◌, ◌<◌, ◌≤◌, true, false, [], length, IfSome};
ghost use Rattle.client_ports.specs.Ends.{takers_port, taken_of, told_of, WasEmpty};
ghost use Rattle.gate_outside.specs.Causes.{Rose};
ghost use Rattle.gateway_links.specs.WrittenParcels.{HasTaken, HasWritten};

use crate::ends::LinkEnd;
use crate::{Gather, WriterTurn};
use client_ports::Taker;
use gate_outside::Outlet;
use std::alloc::Global;
use std::sync::Wait;
use text_pool::TextPool;

/// So many turns that write something a writer is left to its thread once its outlet did not take all at once (this project's
/// own): to offer more than it takes would hold up whoever serves others beside it.
const TURNS_APART: u32 = 256;

/// So many turns a writer has at most for others than its thread.
const MOST_TURNS: u32 = 8;

/// For how many turns a writer is left to its thread after such a turn, where it was for so many before, and where all that it
/// held is written or not.
fn apart_after(apart: u32, turn: WriterTurn, has_written_all: bool) -> u32 {
    match turn {
        WriterTurn::Wrote if has_written_all => apart.saturating_sub(1),
        WriterTurn::Idle => apart,
        WriterTurn::Wrote | WriterTurn::Stuck | WriterTurn::Failed => TURNS_APART,
    }
}

/// What goes out by one link: the outlet, the end of the port whose parcels are written to it, and the bytes that were taken
/// and are not written yet.
///
/// It keeps that what was written, where it is told, with what is held behind it is the bytes of the parcels that were taken,
/// or, where the outlet failed, that it is the first of them; and that it says so of no outlet that has not failed.
#[derive(Drop)]
pub struct Writer<O: Outlet> {
    conn: Option<u32>,
    ends: LinkEnd<O>,
    /// For so many turns more that write something it is left to its thread, since its outlet did not take all at once.
    apart: u32,
    ghost told: { HasTaken (O.written ends.outlet) (taken_of ends.taker) ends.failed ends.held },
    ghost cause: { ends.failed ≡ true → 0 < O.faults ends.outlet },
}

impl<O: Outlet> Writer<O> {
    ghost use Rattle.gateway_links.specs.Turns.{DoesTurn, is_failure};
    ghost use Rattle.gateway_links.specs.declared.turn.WriterTurn.TheVariants as turns;

    /// A writer of a connection with this number, or of the server where there is none. For a connection's outlet that takes
    /// nothing for now much is held, up to [`MOST_HELD`](crate::MOST_HELD) bytes; for the server's no more than is gathered at
    /// once.
    pub fn new(alloc: Global, conn: Option<u32>, outlet: O, taker: Taker) -> Writer<O>
        requires none_taken { taken_of taker ≡ [] }
        requires none_written { IfSome (O.written outlet) (λ written. written ≡ []) }
        ensures conn { result.conn ≡ conn }
        ensures outlet { result.ends.outlet ≡ outlet }
        ensures taker { result.ends.taker ≡ taker }
        ensures held { result.ends.held ≡ [] }
        ensures whole { result.ends.failed ≡ false }
    {
        Writer {
            conn,
            ends: LinkEnd {
                outlet,
                taker,
                held: Gather::new(alloc),
                patient: conn.is_some(),
                failed: false,
            },
            apart: 0,
        }
    }

    /// Takes the parcels that are there, as far as there is room, and offers the bytes that are held to the outlet, all at
    /// once. No more than [`MOST_PARCELS`](crate::MOST_PARCELS) are taken. Texts that are done with go to the pool. It takes
    /// memory for the pool, and for what is held; where that is wanting fewer are held. It does nothing where the outlet has
    /// failed.
    pub fn turn<R: Wait>(&mut self, rt: &R, spent: &mut TextPool) -> WriterTurn
        ensures conn { self.new.conn ≡ self.old.conn }
        ensures port { takers_port self.new.ends.taker ≡ takers_port self.old.ends.taker }
        ensures told { told_of self.new.ends.taker ≡ told_of self.old.ends.taker }
        ensures failed { self.new.ends.failed ≡ is_failure result }
        ensures did { DoesTurn result (O.written self.old.ends.outlet) (O.written self.new.ends.outlet)
            (taken_of self.old.ends.taker) (taken_of self.new.ends.taker) self.old.ends.held
            self.new.ends.held }
        ensures later { O.faults self.old.ends.outlet ≤ O.faults self.new.ends.outlet }
        ensures rose { result ≡ turns.Failed
            → self.old.ends.failed ≡ false
            → Rose (O.faults self.old.ends.outlet) (O.faults self.new.ends.outlet) }
        ensures empty { result ≡ turns.Idle → WasEmpty self.new.ends.taker }
        ensures over { self.old.ends.failed ≡ true → self.new.ends ≡ self.old.ends }
    {
        let turn = self.ends.turn(rt, spent);
        self.apart = apart_after(self.apart, turn, self.ends.held.is_empty());
        turn
    }

    /// Writes all that is there, by way of this buffer, where its outlet takes all at once, and has done so of late. Whether no
    /// parcel was there then. Texts that are done with go to the pool.
    pub fn write_at_once<R: Wait>(
        &mut self,
        rt: &R,
        spent: &mut TextPool,
        buffer: &mut Gather,
    ) -> bool
        ensures { result ≡ true → WasEmpty self.new.ends.taker }
    {
        self.ends.exchange(buffer);
        let is_done = self.take_turns(rt, spent);
        self.ends.exchange(buffer);
        is_done
    }

    /// Has turns until nothing is left to be written, where its outlet takes all at once, and has done so of late. Whether no
    /// parcel was there then.
    fn take_turns<R: Wait>(&mut self, rt: &R, spent: &mut TextPool) -> bool
        ensures { result ≡ true → WasEmpty self.new.ends.taker }
    {
        for _ in 0..MOST_TURNS {
            if self.apart > 0 || !self.ends.held.has_room() {
                return false;
            }
            match self.turn(rt, spent) {
                WriterTurn::Wrote => {}
                WriterTurn::Idle => return true,
                WriterTurn::Stuck | WriterTurn::Failed => return false,
            }
        }
        false
    }

    /// Writes what is held, however long that takes. Whether its outlet has failed, then or before.
    pub fn finish(&mut self) -> bool
        ensures conn { self.new.conn ≡ self.old.conn }
        ensures taker { self.new.ends.taker ≡ self.old.ends.taker }
        ensures failed { result ≡ self.new.ends.failed }
        ensures done { HasWritten (O.written self.new.ends.outlet) (taken_of self.new.ends.taker) result }
        ensures later { O.faults self.old.ends.outlet ≤ O.faults self.new.ends.outlet }
        ensures over { self.old.ends.failed ≡ true → self.new.ends ≡ self.old.ends }
    {
        matches!(self.ends.finish(), WriterTurn::Failed)
    }

    /// Tells the other side of the link that no more comes. What was written stays so.
    pub fn shut(&mut self)
        ensures conn { self.new.conn ≡ self.old.conn }
        ensures written { O.written self.new.ends.outlet ≡ O.written self.old.ends.outlet }
        ensures faults { O.faults self.new.ends.outlet ≡ O.faults self.old.ends.outlet }
        ensures taker { self.new.ends.taker ≡ self.old.ends.taker }
        ensures held { self.new.ends.held ≡ self.old.ends.held }
        ensures failed { self.new.ends.failed ≡ self.old.ends.failed }
    {
        self.ends.outlet.shut();
    }

    /// Whose it is: a connection's number, or none for the server's.
    pub fn conn(&self) -> Option<u32>
        ensures { result ≡ self.now.conn }
    {
        self.conn
    }

    /// How many parcels it has taken.
    pub fn taken(&self) -> u64
        ensures { result ≡ length (taken_of self.now.ends.taker) }
    {
        self.ends.taker.count()
    }

    /// Whether its outlet has failed.
    pub fn has_failed(&self) -> bool
        ensures { result ≡ self.now.ends.failed }
    {
        self.ends.failed
    }

    /// Its outlet and its end of the port, and whether the outlet has failed. What is held is written first.
    pub fn into_ends(self) -> (O, Taker, bool)
        ensures taker { result.1 ≡ self.ends.taker }
        ensures told { HasWritten (O.written result.0) (taken_of result.1) result.2 }
        ensures cause { result.2 ≡ true → 0 < O.faults result.0 }
        ensures later { O.faults self.ends.outlet ≤ O.faults result.0 }
        ensures over { self.ends.failed ≡ true → result.0 ≡ self.ends.outlet }
    {
        let mut writer = self;
        let failed = writer.finish();
        let LinkEnd {
            outlet,
            taker,
            mut held,
            ..
        } = writer.ends;
        held.clear();
        (outlet, taker, failed)
    }
}
