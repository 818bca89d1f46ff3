//! The end of a port that puts.
ghost use Rattle.std.specs.Prelude.{◌≡◌, ◌≤◌, true, false, [], ◌∷◌, ◌++◌, length, IfErr, OnOk, OnErr};
ghost use Rattle.std.specs.Arc.{arc_value};
ghost use Rattle.crossbeam_queue.specs.Passes.{view, IsPassOf};
ghost use Rattle.gate_outside.specs.Causes.{counted_on};

use crate::rule::{EndPass, ParcelQueue, PutWord, Puts, TakenWord};
use crate::{Full, Parcel, Taker};
use std::sync::{Arc, Wait};

/// The end of a port that puts. It knows all that was put, and of what was taken as much as it was told.
#[derive(Drop)]
pub struct Putter {
    pub(crate) queue: Arc<ParcelQueue>,
    pub(crate) pass: EndPass,
    pub(crate) count: u64,
    pub(crate) fulls: u64,
    ghost of_queue: { IsPassOf (arc_value queue) pass },
    ghost puts: { (view pass).puts ≡ true },
    ghost counted: { count ≡ length (view pass).put },
}

impl Putter {
    ghost use Rattle.client_ports.specs.Ends.{put_of, heard_of, taken_of, fulls_of, capacity_of, OfOnePort, KeepsPutter, IsSamePutter, IsSameTaker, HeldLast, WasFull};
    ghost use Rattle.client_ports.specs.Rule.{knows};

    /// The end of this queue whose pass has put nothing.
    pub(crate) fn new(queue: Arc<ParcelQueue>, pass: EndPass) -> Putter
        requires queue { IsPassOf (arc_value queue) pass }
        requires puts { (view pass).puts ≡ true }
        requires first { (view pass).put ≡ [] }
        ensures queue { result.queue ≡ queue }
        ensures pass { result.pass ≡ pass }
        ensures fulls { result.fulls ≡ 0 }
    {
        Putter {
            queue,
            pass,
            count: 0,
            fulls: 0,
        }
    }

    /// Puts a parcel behind those that were put. Where the port holds as many as it can, and none of them is one that the
    /// putter was told was taken, it is handed back, and counted as one that found it full. It takes no memory.
    pub fn put<R: Wait>(&mut self, rt: &R, parcel: Parcel) -> Result<(), Full>
        ensures end { KeepsPutter self.old self.new }
        ensures heard { heard_of self.new ≡ heard_of self.old }
        ensures put { OnOk result (put_of self.new ≡ put_of self.old ++ parcel ∷ []) }
        ensures ok { OnOk result (fulls_of self.new ≡ fulls_of self.old) }
        ensures back { IfErr result (λ full. full.parcel ≡ parcel) }
        ensures same { OnErr result (put_of self.new ≡ put_of self.old) }
        ensures rose { OnErr result (fulls_of self.new ≡ counted_on (fulls_of self.old)) }
        ensures full { OnErr result (WasFull self.old) }
    {
        if self.count == u64::MAX {
            // The queue itself waits for ever after fewer parcels than this.
            for _ in rt.forever() {}
            unreachable!()
        }
        match self.queue.push_as::<Puts, R>(rt, &mut self.pass, parcel) {
            Ok(()) => {
                self.count += 1;
                Ok(())
            }
            Err(parcel) => {
                self.fulls = self.fulls.saturating_add(1);
                Err(Full { parcel })
            }
        }
    }

    /// Tells the putter of all that the taker of its port has taken so far.
    pub fn hear(&mut self, taker: &mut Taker)
        requires { OfOnePort self.old taker.old }
        ensures end { KeepsPutter self.old self.new }
        ensures put { put_of self.new ≡ put_of self.old }
        ensures heard { heard_of self.new ≡ taken_of taker.old }
        ensures fulls { fulls_of self.new ≡ fulls_of self.old }
        ensures taker { IsSameTaker taker.old taker.new }
    {
        let word = taker.word();
        self.queue.absorb::<TakenWord>(&mut self.pass, word);
    }

    /// How many parcels waited at one moment of the call: the last of those that were put, which were not taken yet, and so
    /// none that the putter was told was taken.
    pub fn waiting<R: Wait>(&mut self, rt: &R) -> usize
        ensures same { IsSamePutter self.old self.new }
        ensures held { HeldLast result self.old }
        ensures within { result ≤ capacity_of self.old }
    {
        self.queue.len_as::<Puts, R>(rt, &mut self.pass)
    }

    /// How many parcels the port can hold.
    pub fn capacity(&self) -> usize
        ensures { result ≡ capacity_of self.now }
    {
        self.queue.capacity()
    }

    /// A new pass that knows what was put so far, and neither puts nor takes.
    pub(crate) fn word(&mut self) -> EndPass
        ensures putter { IsSamePutter self.old self.new }
        ensures queue { IsPassOf (arc_value self.old.queue) result }
        ensures knows { view result ≡ knows false false [] [] (put_of self.old) [] }
    {
        self.queue.another::<PutWord>(&mut self.pass)
    }

    /// How many parcels were put.
    pub fn count(&self) -> u64
        ensures { result ≡ length (put_of self.now) }
    {
        self.count
    }

    /// How often a parcel found the port full, as far as 64 bits count.
    pub fn fulls(&self) -> u64
        ensures { result ≡ fulls_of self.now }
    {
        self.fulls
    }
}
