//! The outlet of a writer, the end of the port whose parcels are written to it, and the bytes between them.
ghost use Rattle.std.specs.Prelude.{◌≡◌, ◌≤◌, true, false, []};
ghost use Rattle.client_ports.specs.Ends.{takers_port, taken_of, told_of, WasEmpty};
ghost use Rattle.gate_outside.specs.Causes.{HasCause, Rose};
ghost use Rattle.gateway_links.specs.WrittenParcels.{parcel_bytes};
ghost use Rattle.gateway_links.specs.Turns.{Moves, Gathers, GathersFrom, Empties, DoesTurn, is_failure, turn_of};
ghost use Rattle.gateway_links.specs.declared.turn.WriterTurn.TheVariants as turns;

use crate::{Gather, MOST_PARCELS, WriterTurn};
use client_ports::{Parcel, Taker};
use gate_outside::{Failed, Outlet, Sink, write_all};
use std::mem;
use std::sync::Wait;
use text_pool::TextPool;

/// An outlet, the end of the port whose parcels are written to it, and what was taken and is not written yet.
#[derive(Drop)]
pub struct LinkEnd<O: Outlet> {
    pub outlet: O,
    pub taker: Taker,
    pub held: Gather,
    /// Whether much may be held for an outlet that takes nothing for now.
    pub patient: bool,
    /// Whether the outlet has failed.
    pub failed: bool,
}

/// The bytes of a parcel.
fn bytes_of(parcel: &Parcel) -> &[u8]
    ensures { result.now ≡ parcel_bytes parcel.now }
{
    match parcel {
        Parcel::Item(item) => item.bytes.as_bytes(),
        Parcel::Bytes(text) => text.as_bytes(),
    }
}

/// Keeps the text of a parcel that is done with.
fn keep(spent: &mut TextPool, parcel: Parcel) {
    match parcel {
        Parcel::Item(item) => spent.keep(item.bytes),
        Parcel::Bytes(text) => spent.keep(text),
    }
}

/// Writes what is held, however long that takes.
fn write_out<O: Sink>(outlet: &mut O, held: &mut Gather) -> Result<(), Failed>
    ensures moves { Moves (O.written outlet.old) (O.written outlet.new) held.old held.new [] result }
    ensures empty { Empties result held.new }
    ensures cause { HasCause (O.faults outlet.old) (O.faults outlet.new) result }
{
    write_all(outlet, held.as_bytes())?;
    held.clear();
    Ok(())
}

/// Puts the bytes behind those that are held. Where there is no room, what is held is written first; and where they don't
/// fit into the whole buffer they are written from where they stand.
fn add<O: Sink>(outlet: &mut O, held: &mut Gather, bytes: &[u8]) -> Result<(), Failed>
    ensures moves { Moves (O.written outlet.old) (O.written outlet.new) held.old held.new bytes.now result }
    ensures cause { HasCause (O.faults outlet.old) (O.faults outlet.new) result }
{
    if held.add(bytes) {
        return Ok(());
    }
    write_out(outlet, held)?;
    if held.add(bytes) {
        return Ok(());
    }
    write_all(outlet, bytes)
}

/// Takes the parcels that are there, as far as there is room and so many at most, and keeps their texts.
fn gather_more<O: Sink, R: Wait>(
    rt: &R,
    outlet: &mut O,
    taker: &mut Taker,
    held: &mut Gather,
    spent: &mut TextPool,
) -> Result<(), Failed>
    ensures port { takers_port taker.new ≡ takers_port taker.old }
    ensures told { told_of taker.new ≡ told_of taker.old }
    ensures gathers { Gathers (O.written outlet.old) (O.written outlet.new) (taken_of taker.old)
        (taken_of taker.new) held.old held.new result }
    ensures cause { HasCause (O.faults outlet.old) (O.faults outlet.new) result }
{
    for _ in 1..MOST_PARCELS {
        if held.is_full() {
            return Ok(());
        }
        let Some(parcel) = taker.take(rt) else {
            return Ok(());
        };
        add(outlet, held, bytes_of(&parcel))?;
        keep(spent, parcel);
    }
    Ok(())
}

/// Offers what is held to the outlet, where it is some. Whether it took any.
fn offer<O: Outlet>(outlet: &mut O, held: &mut Gather) -> Result<bool, Failed>
    ensures moves { Moves (O.Sink.written outlet.old) (O.Sink.written outlet.new) held.old held.new []
        result }
    ensures cause { HasCause (O.Sink.faults outlet.old) (O.Sink.faults outlet.new) result }
{
    if held.is_empty() {
        return Ok(true);
    }
    let count = outlet.offer(held.as_bytes())?;
    held.forget(count);
    Ok(count > 0)
}

impl<O: Outlet> LinkEnd<O> {
    /// Takes another buffer in place of its own, which is left there, where nothing is held in either.
    pub fn exchange(&mut self, buffer: &mut Gather)
        ensures outlet { self.new.outlet ≡ self.old.outlet }
        ensures taker { self.new.taker ≡ self.old.taker }
        ensures held { self.new.held ≡ self.old.held }
        ensures failed { self.new.failed ≡ self.old.failed }
        ensures buffer { buffer.new ≡ buffer.old }
    {
        if self.held.is_empty() && buffer.is_empty() {
            mem::swap(&mut self.held, buffer);
        }
    }

    /// Writes what is held, however long that takes. No parcel is taken.
    pub fn finish(&mut self) -> WriterTurn
        ensures taker { self.new.taker ≡ self.old.taker }
        ensures failed { self.new.failed ≡ is_failure result }
        ensures did { DoesTurn result (O.written self.old.outlet) (O.written self.new.outlet)
            (taken_of self.old.taker) (taken_of self.new.taker) self.old.held self.new.held }
        ensures later { O.faults self.old.outlet ≤ O.faults self.new.outlet }
        ensures rose { result ≡ turns.Failed
            → self.old.failed ≡ false
            → Rose (O.faults self.old.outlet) (O.faults self.new.outlet) }
        ensures done { self.new.failed ≡ false → self.new.held ≡ [] }
        ensures over { self.old.failed ≡ true → self.new ≡ self.old }
    {
        if self.failed {
            return WriterTurn::Failed;
        }
        match write_out(&mut self.outlet, &mut self.held) {
            Ok(()) => WriterTurn::Idle,
            Err(Failed) => {
                self.failed = true;
                WriterTurn::Failed
            }
        }
    }

    /// Takes the parcels that are there, as far as there is room, and offers what is held to the outlet, where that has not
    /// failed. Texts that are done with go to the pool.
    pub fn turn<R: Wait>(&mut self, rt: &R, spent: &mut TextPool) -> WriterTurn
        ensures port { takers_port self.new.taker ≡ takers_port self.old.taker }
        ensures told { told_of self.new.taker ≡ told_of self.old.taker }
        ensures failed { self.new.failed ≡ is_failure result }
        ensures did { DoesTurn result (O.written self.old.outlet) (O.written self.new.outlet)
            (taken_of self.old.taker) (taken_of self.new.taker) self.old.held self.new.held }
        ensures later { O.faults self.old.outlet ≤ O.faults self.new.outlet }
        ensures rose { result ≡ turns.Failed
            → self.old.failed ≡ false
            → Rose (O.faults self.old.outlet) (O.faults self.new.outlet) }
        ensures empty { result ≡ turns.Idle → WasEmpty self.new.taker }
        ensures over { self.old.failed ≡ true → self.new ≡ self.old }
    {
        if self.failed {
            return WriterTurn::Failed;
        }
        if self.held.is_full() {
            let wrote = self.offer_held();
            return self.turn_of(wrote);
        }
        match self.taker.take(rt) {
            Some(first) => {
                let wrote = self.forward(rt, spent, &first);
                keep(spent, first);
                self.turn_of(wrote)
            }
            None if self.held.is_empty() => WriterTurn::Idle,
            None => {
                let wrote = self.offer_held();
                self.turn_of(wrote)
            }
        }
    }

    /// The turn in which an offer had this outcome, which is kept where it failed.
    fn turn_of(&mut self, wrote: Result<bool, Failed>) -> WriterTurn
        requires { self.old.failed ≡ false }
        ensures turn { result ≡ turn_of wrote }
        ensures failed { self.new.failed ≡ is_failure result }
        ensures outlet { self.new.outlet ≡ self.old.outlet }
        ensures taker { self.new.taker ≡ self.old.taker }
        ensures held { self.new.held ≡ self.old.held }
    {
        match wrote {
            Ok(true) => WriterTurn::Wrote,
            Ok(false) => WriterTurn::Stuck,
            Err(Failed) => {
                self.failed = true;
                WriterTurn::Failed
            }
        }
    }

    /// Offers what is held. Where the outlet takes nothing for now, there is room for more then, as far as much may be held.
    fn offer_held(&mut self) -> Result<bool, Failed>
        ensures taker { self.new.taker ≡ self.old.taker }
        ensures failed { self.new.failed ≡ self.old.failed }
        ensures moves { Moves (O.written self.old.outlet) (O.written self.new.outlet) self.old.held
            self.new.held [] result }
        ensures cause { HasCause (O.faults self.old.outlet) (O.faults self.new.outlet) result }
    {
        let wrote = offer(&mut self.outlet, &mut self.held)?;
        if self.patient && !wrote {
            self.held.grow();
        }
        Ok(wrote)
    }

    /// Puts the bytes of this parcel, which was taken, and of those that are there behind it to those that are held, and
    /// offers them.
    fn forward<R: Wait>(
        &mut self,
        rt: &R,
        spent: &mut TextPool,
        first: &Parcel,
    ) -> Result<bool, Failed>
        ensures port { takers_port self.new.taker ≡ takers_port self.old.taker }
        ensures told { told_of self.new.taker ≡ told_of self.old.taker }
        ensures failed { self.new.failed ≡ self.old.failed }
        ensures forwards { GathersFrom first.now (O.written self.old.outlet) (O.written self.new.outlet)
            (taken_of self.old.taker) (taken_of self.new.taker) self.old.held self.new.held result }
        ensures cause { HasCause (O.faults self.old.outlet) (O.faults self.new.outlet) result }
    {
        add(&mut self.outlet, &mut self.held, bytes_of(first))?;
        gather_more(rt, &mut self.outlet, &mut self.taker, &mut self.held, spent)?;
        self.offer_held()
    }
}
