//! The end of a port that takes.
ghost use Rattle.std.specs.Prelude.{◌≡◌, true, false, [], ◌∷◌, ◌++◌, length, IfSome, IfNone};
ghost use Rattle.std.specs.Arc.{arc_value};
ghost use Rattle.crossbeam_queue.specs.Passes.{view, IsPassOf};

use crate::rule::{EndPass, ParcelQueue, PutWord, TakenWord, Takes};
use crate::{Parcel, Putter};
use std::sync::{Arc, Wait};

/// The end of a port that takes. It knows all that was taken.
#[derive(Drop)]
pub struct Taker {
    pub(crate) queue: Arc<ParcelQueue>,
    pub(crate) pass: EndPass,
    pub(crate) count: u64,
    ghost of_queue: { IsPassOf (arc_value queue) pass },
    ghost takes: { (view pass).takes ≡ true },
    ghost counted: { count ≡ length (view pass).taken },
}

/// What a taker had taken at one moment. Only [`Taker::taken`] makes one, and it neither puts nor takes; so what it tells of
/// went through a port.
#[derive(Drop)]
pub struct TakenParcels {
    pass: EndPass,
}

impl Taker {
    ghost use Rattle.client_ports.specs.Ends.{put_of, taken_of, told_of, takers_port, OfOnePort, IsSamePutter, IsSameTaker, WasEmpty};
    ghost use Rattle.client_ports.specs.PortTakes.{taken_in, parcels_port};
    ghost use Rattle.client_ports.specs.Rule.{knows};

    /// The end of this queue whose pass has taken nothing.
    pub(crate) fn new(queue: Arc<ParcelQueue>, pass: EndPass) -> Taker
        requires queue { IsPassOf (arc_value queue) pass }
        requires takes { (view pass).takes ≡ true }
        requires first { (view pass).taken ≡ [] }
        ensures queue { result.queue ≡ queue }
        ensures pass { result.pass ≡ pass }
    {
        Taker {
            queue,
            pass,
            count: 0,
        }
    }

    /// Takes the oldest parcel that was put and not taken. There is none only where the port was empty, and none that
    /// the taker was told of was left. It takes no memory.
    pub fn take<R: Wait>(&mut self, rt: &R) -> Option<Parcel>
        ensures port { takers_port self.new ≡ takers_port self.old }
        ensures told { told_of self.new ≡ told_of self.old }
        ensures some { IfSome result (λ parcel. taken_of self.new ≡ taken_of self.old ++ parcel ∷ []) }
        ensures none { IfNone result (taken_of self.new ≡ taken_of self.old) }
        ensures empty { IfNone result (WasEmpty self.old) }
    {
        if self.count == u64::MAX {
            // The queue itself waits for ever after fewer parcels than this.
            for _ in rt.forever() {}
            unreachable!()
        }
        let parcel = self.queue.pop_as::<Takes, R>(rt, &mut self.pass)?;
        self.count += 1;
        Some(parcel)
    }

    /// Tells the taker of all that the putter of its port has put so far.
    pub fn hear(&mut self, putter: &mut Putter)
        requires { OfOnePort putter.old self.old }
        ensures port { takers_port self.new ≡ takers_port self.old }
        ensures told { told_of self.new ≡ put_of putter.old }
        ensures taken { taken_of self.new ≡ taken_of self.old }
        ensures putter { IsSamePutter putter.old putter.new }
    {
        let word = putter.word();
        self.queue.absorb::<PutWord>(&mut self.pass, word);
    }

    /// What was taken so far. That is still told once the taker is given away.
    pub fn taken(&mut self) -> TakenParcels
        ensures taker { IsSameTaker self.old self.new }
        ensures port { parcels_port result ≡ takers_port self.old }
        ensures taken { taken_in result ≡ taken_of self.old }
    {
        TakenParcels { pass: self.word() }
    }

    /// A new pass that knows what was taken so far, and neither puts nor takes.
    pub(crate) fn word(&mut self) -> EndPass
        ensures taker { IsSameTaker self.old self.new }
        ensures queue { IsPassOf (arc_value self.old.queue) result }
        ensures knows { view result ≡ knows false false [] [] [] (taken_of self.old) }
    {
        self.queue.another::<TakenWord>(&mut self.pass)
    }

    /// How many parcels were taken.
    pub fn count(&self) -> u64
        ensures { result ≡ length (taken_of self.now) }
    {
        self.count
    }
}
