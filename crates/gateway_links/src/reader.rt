//! What comes in by one link.
ghost use Rattle.std.specs.Prelude.{◌≡◌, ◌≢◌, ℕ, ◌<◌, ◌≤◌, List, [], Option, None, true, false, length};
ghost use Rattle.client_ports.specs.Ends.{put_of, fulls_of, KeepsPutter, WasFull};
ghost use Rattle.gate_outside.specs.Causes.{Rose, counted_on};
ghost use Rattle.gateway_links.specs.PutParcels.{PutsOne};
ghost use Rattle.gateway_links.specs.declared.answers.Read.TheVariants as reads;
ghost use Rattle.gateway_links.specs.declared.answers.Push.TheVariants as pushes;

use crate::next::next_item;
use crate::{Push, Read};
use client_ports::{Full, Parcel, Putter};
use gate_bytes::{Memory, before};
use gate_outside::{Failed, Got, Inlet};
use rtsp_frame::Framer;
use rtsp_head::{Item, ItemKind};
use std::alloc::Global;
use std::mem;
use std::sync::Wait;
use text_pool::TextPool;

/// What comes in by one link: an inlet, whose bytes are framed into items, and the end of the port into which they are put.
#[derive(Drop)]
pub struct Reader<I: Inlet> {
    inlet: I,
    framer: Framer,
    inward: Putter,
    waiting: Option<Item>,
    over: bool,
    /// Whether a message was put since that was asked last.
    said: bool,
    /// Whether the last read filled its buffer.
    filled: bool,
}

impl<I: Inlet> Reader<I> {
    ghost use Rattle.gateway_links.specs.ReadItems.{ReadsItems, ReadsFront, PutAll, DoesRead, is_want};

    /// A reader of an inlet of which nothing came, and which puts into this end of a port. It takes no memory.
    pub fn new(alloc: Global, inlet: I, inward: Putter) -> Reader<I>
        requires { put_of inward ≡ [] }
        ensures inlet { result.inlet ≡ inlet }
        ensures inward { result.inward ≡ inward }
        ensures reads { ReadsItems I.rest (I.rest inlet) result }
        ensures on { result.over ≡ false }
    {
        Reader {
            inlet,
            framer: Framer::new(alloc),
            inward,
            waiting: None,
            over: false,
            said: false,
            filled: false,
        }
    }

    /// Reads once from the inlet, into the buffer, and frames what came. Where memory was wanting, now or before, the
    /// reader is over: what came in that read is lost, and it reads no more.
    pub fn read(&mut self, alloc: Global, buffer: &mut [u8]) -> Read
        requires { 0 < length buffer.old }
        ensures inward { self.new.inward ≡ self.old.inward }
        ensures waiting { self.new.waiting ≡ self.old.waiting }
        ensures over { self.new.over ≡ is_want result }
        ensures stays { self.old.over ≡ true → self.new ≡ self.old }
        ensures reads { result ≢ reads.Memory
            → (first : Option (List ℕ))
            → ReadsItems I.rest first self.old
            → ReadsItems I.rest first self.new }
        ensures front { (first : Option (List ℕ)) → ReadsFront I.rest first self.old
            → ReadsFront I.rest first self.new }
        ensures did { DoesRead I.rest self.old self.new result }
        ensures faults { I.faults self.old.inlet ≤ I.faults self.new.inlet }
        ensures waits { I.waits self.old.inlet ≤ I.waits self.new.inlet }
        ensures ends { I.ends self.old.inlet ≤ I.ends self.new.inlet }
        ensures failed { result ≡ reads.Failed → Rose (I.faults self.old.inlet) (I.faults self.new.inlet) }
        ensures not_yet { result ≡ reads.NotYet → Rose (I.waits self.old.inlet) (I.waits self.new.inlet) }
        ensures end { result ≡ reads.End → Rose (I.ends self.old.inlet) (I.ends self.new.inlet) }
    {
        if self.over {
            return Read::Memory;
        }
        self.filled = false;
        match self.inlet.read(buffer) {
            Ok(Got::Bytes(count)) => {
                self.filled = count >= buffer.len();
                match self.framer.feed(alloc, before(buffer, count)) {
                    Ok(()) => Read::Came,
                    Err(Memory) => {
                        self.over = true;
                        Read::Memory
                    }
                }
            }
            Ok(Got::End) => Read::End,
            Ok(Got::NotYet) => Read::NotYet,
            Err(Failed) => Read::Failed,
        }
    }

    /// Whether more may be at hand: what came last filled the buffer into which it was read.
    pub fn has_more(&self) -> bool
        ensures { result ≡ self.now.filled }
    {
        self.filled
    }

    /// Takes texts that are done with, in whose memory those of the next items are made.
    pub fn refill(&mut self, pool: &mut TextPool)
        ensures inlet { self.new.inlet ≡ self.old.inlet }
        ensures framer { self.new.framer ≡ self.old.framer }
        ensures inward { self.new.inward ≡ self.old.inward }
        ensures waiting { self.new.waiting ≡ self.old.waiting }
        ensures over { self.new.over ≡ self.old.over }
    {
        self.framer.refill(pool);
    }

    /// Puts the next item that came into the port. Where that is full the item waits here, and is the next one again. It
    /// takes no memory.
    pub fn push<R: Wait>(&mut self, rt: &R) -> Push
        ensures inlet { self.new.inlet ≡ self.old.inlet }
        ensures over { self.new.over ≡ self.old.over }
        ensures port { KeepsPutter self.old.inward self.new.inward }
        ensures reads { (first : Option (List ℕ)) → ReadsItems I.rest first self.old
            → ReadsItems I.rest first self.new }
        ensures front { (first : Option (List ℕ)) → ReadsFront I.rest first self.old
            → ReadsFront I.rest first self.new }
        ensures put { result ≡ pushes.Put → PutsOne (put_of self.old.inward) (put_of self.new.inward) }
        ensures same { result ≢ pushes.Put → put_of self.new.inward ≡ put_of self.old.inward }
        ensures full { result ≡ pushes.Full → WasFull self.old.inward }
        ensures rose { result ≡ pushes.Full
            → fulls_of self.new.inward ≡ counted_on (fulls_of self.old.inward) }
        ensures kept { result ≢ pushes.Full → fulls_of self.new.inward ≡ fulls_of self.old.inward }
        ensures empty { result ≡ pushes.Empty
            → (first : Option (List ℕ))
            → ReadsItems I.rest first self.old
            → PutAll I.rest first self.new }
    {
        let Some(item) = next_item(&mut self.framer, &mut self.waiting) else {
            return Push::Empty;
        };
        self.said = self.said || item.kind != ItemKind::Frame;
        match self.inward.put(rt, Parcel::Item(item)) {
            Ok(()) => Push::Put,
            Err(
                Full {
                    parcel: Parcel::Item(item),
                },
            ) => {
                self.waiting = Some(item);
                Push::Full
            }
            Err(
                Full {
                    parcel: Parcel::Bytes(_),
                },
            ) => unreachable!(),
        }
    }

    /// Whether a message was put since this was asked last; else all that was put are frames.
    pub fn has_said(&mut self) -> bool
        ensures inlet { self.new.inlet ≡ self.old.inlet }
        ensures over { self.new.over ≡ self.old.over }
        ensures inward { self.new.inward ≡ self.old.inward }
        ensures reads { (first : Option (List ℕ)) → ReadsItems I.rest first self.old
            → ReadsItems I.rest first self.new }
        ensures front { (first : Option (List ℕ)) → ReadsFront I.rest first self.old
            → ReadsFront I.rest first self.new }
        ensures all { (first : Option (List ℕ)) → PutAll I.rest first self.old
            → PutAll I.rest first self.new }
    {
        mem::take(&mut self.said)
    }

    /// Whether the next item that came is a frame. It waits here then. It takes no memory.
    pub fn next_is_frame(&mut self) -> bool
        ensures inlet { self.new.inlet ≡ self.old.inlet }
        ensures over { self.new.over ≡ self.old.over }
        ensures inward { self.new.inward ≡ self.old.inward }
        ensures reads { (first : Option (List ℕ)) → ReadsItems I.rest first self.old
            → ReadsItems I.rest first self.new }
        ensures front { (first : Option (List ℕ)) → ReadsFront I.rest first self.old
            → ReadsFront I.rest first self.new }
    {
        self.waiting = next_item(&mut self.framer, &mut self.waiting);
        is_frame(&self.waiting)
    }

    /// Ends the link both ways, so that its writer is let go. What is told of the inlet stays.
    pub fn shut(&mut self)
        ensures rest { I.rest self.new.inlet ≡ I.rest self.old.inlet }
        ensures faults { I.faults self.new.inlet ≡ I.faults self.old.inlet }
        ensures ends { I.ends self.new.inlet ≡ I.ends self.old.inlet }
        ensures framer { self.new.framer ≡ self.old.framer }
        ensures inward { self.new.inward ≡ self.old.inward }
        ensures waiting { self.new.waiting ≡ self.old.waiting }
        ensures over { self.new.over ≡ self.old.over }
        ensures reads { (first : Option (List ℕ)) → ReadsItems I.rest first self.old
            → ReadsItems I.rest first self.new }
        ensures all { (first : Option (List ℕ)) → PutAll I.rest first self.old
            → PutAll I.rest first self.new }
    {
        self.inlet.shut();
    }

    /// Its inlet and its end of the port.
    pub fn into_ends(self) -> (I, Putter)
        ensures inlet { result.0 ≡ self.inlet }
        ensures inward { result.1 ≡ self.inward }
    {
        (self.inlet, self.inward)
    }
}

/// Whether the item that waits is a frame.
fn is_frame(waiting: &Option<Item>) -> bool {
    match waiting {
        Some(item) => item.kind == ItemKind::Frame,
        None => false,
    }
}
