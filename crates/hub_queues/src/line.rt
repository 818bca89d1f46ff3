//! One connection of the hub: its ends of the two ports, or its receipt.
ghost use Rattle.std.specs.Prelude.{◌≡◌, ◌<◌, ◌+◌, true, Some, None};
ghost use Rattle.hub_queues.specs.Places.{PutsBytes, PutsInto, CountsItem, Closes, Fetches, FetchesLine, PutsFirst, Changes, line_of, receipt_of};
ghost use Rattle.hub_queues.specs.Room.{HasParcelRoom, HasRoomFor, IsLookedAt};

use crate::{Close, OUTWARD_CAPACITY, Receipt};
use client_ports::{Parcel, Putter, Taker};
use gate_bytes::Text;
use rtsp_head::Item;
use std::sync::Wait;

/// What the hub keeps of a connection that is not retired.
#[derive(Drop)]
pub struct HubConnection {
    /// The end that takes the client's items.
    pub inward: Taker,
    /// The end that puts what the client is handed.
    pub outward: Putter,
    /// The item that was taken, and is first in line since an event of it was refused.
    pub first: Option<Item>,
    /// How many items were taken as events.
    pub arrived: u64,
    /// How it was closed, unless the end of the connection to the server closed it.
    pub close: Option<Close>,
}

/// A connection that entered. What is kept of one that is retired takes little.
#[derive(Drop)]
pub enum Place {
    /// It is not retired.
    Seated(Box<HubConnection>),
    /// It is retired.
    Retired(Receipt),
}

/// Puts bytes, and tells whether the port was full. They are dropped then.
pub fn put_bytes<W: Wait>(rt: &W, outward: &mut Putter, bytes: Text) -> bool
    ensures { PutsInto bytes result outward.old outward.new }
{
    match outward.put(rt, Parcel::Bytes(bytes)) {
        Ok(()) => false,
        Err(_) => true,
    }
}

/// Takes the first item in line: the one that was left first, or else the next one that the port has. Bytes that stand
/// before it are dropped, since they are no item.
#[tactic(auto, using(crate::proofs::FrontLemmas::begins_same))]
pub fn next_item<W: Wait>(rt: &W, inward: &mut Taker, first: &mut Option<Item>) -> Option<Item>
    ensures { Fetches first.old inward.old result first.new inward.new }
{
    if let Some(item) = first.take() {
        return Some(item);
    }
    next_in_port(rt, inward)
}

/// Takes the next item that a port has.
#[tactic(auto, using(crate::proofs::FrontLemmas::begins_same))]
fn next_in_port<W: Wait>(rt: &W, inward: &mut Taker) -> Option<Item>
    ensures { Fetches None inward.old result None inward.new }
{
    for _ in rt.forever() {
        match inward.take(rt) {
            Some(Parcel::Item(item)) => return Some(item),
            Some(Parcel::Bytes(_)) => {}
            None => return None,
        }
    }
    None
}

impl HubConnection {
    /// The line of a connection that enters, with the hub's ends of its two ports.
    pub fn new(inward: Taker, outward: Putter) -> HubConnection
        ensures { result
            ≡ record { inward = inward; outward = outward; first = None; arrived = 0; close = None } }
    {
        HubConnection {
            inward,
            outward,
            first: None,
            arrived: 0,
            close: None,
        }
    }

    /// Counts an arrival more. Each is one of the parcels that were taken.
    fn count_arrival(&mut self)
        ensures { CountsItem self.old self.new }
    {
        if self.arrived < self.inward.count() {
            self.arrived += 1;
        }
    }

    /// Notes how the connection was closed, where it was not closed before.
    fn close_as(&mut self, close: Close)
        ensures { Closes close self.old self.new }
    {
        if self.close.is_none() {
            self.close = Some(close);
        }
    }

    /// Takes the first item in line.
    fn next<W: Wait>(&mut self, rt: &W) -> Option<Item>
        ensures { FetchesLine result self.old self.new }
    {
        next_item(rt, &mut self.inward, &mut self.first)
    }

    /// Puts an item first in line.
    fn put_first(&mut self, item: Item)
        ensures { PutsFirst item self.old self.new }
    {
        self.first = Some(item);
    }

    /// How many parcels more the port for the client took at one moment of the call.
    fn room<W: Wait>(&mut self, rt: &W) -> usize
        ensures line { IsLookedAt self.old self.new }
        ensures room { HasParcelRoom result self.old.outward }
    {
        let capacity = self.outward.capacity();
        let waiting = self.outward.waiting(rt);
        capacity - waiting
    }

    /// Puts bytes for the client, and tells whether its port was full.
    fn put<W: Wait>(&mut self, rt: &W, bytes: Text) -> bool
        ensures { PutsBytes bytes result self.old self.new }
    {
        put_bytes(rt, &mut self.outward, bytes)
    }
}

impl Place {
    /// Counts an arrival more of a connection that is not retired.
    pub fn count_arrival(&mut self)
        ensures line { Changes true CountsItem (line_of (Some self.old)) (line_of (Some self.new)) }
        ensures receipt { receipt_of (Some self.new) ≡ receipt_of (Some self.old) }
    {
        match self {
            Place::Seated(line) => line.count_arrival(),
            Place::Retired(_) => {}
        }
    }

    /// Notes how a connection that is not retired was closed, where it was not closed before.
    pub fn close_as(&mut self, close: Close)
        ensures line { Changes true (Closes close) (line_of (Some self.old)) (line_of (Some self.new)) }
        ensures receipt { receipt_of (Some self.new) ≡ receipt_of (Some self.old) }
    {
        match self {
            Place::Seated(line) => line.close_as(close),
            Place::Retired(_) => {}
        }
    }

    /// Takes the first item in line of a connection that is not retired.
    pub fn next<W: Wait>(&mut self, rt: &W) -> Option<Item>
        ensures line { Changes true (FetchesLine result) (line_of (Some self.old)) (line_of (Some self.new)) }
        ensures none { line_of (Some self.old) ≡ None → result ≡ None }
        ensures receipt { receipt_of (Some self.new) ≡ receipt_of (Some self.old) }
    {
        match self {
            Place::Seated(line) => line.next(rt),
            Place::Retired(_) => None,
        }
    }

    /// Puts an item first in line of a connection that is not retired.
    pub fn put_first(&mut self, item: Item)
        ensures line { Changes true (PutsFirst item) (line_of (Some self.old)) (line_of (Some self.new)) }
        ensures receipt { receipt_of (Some self.new) ≡ receipt_of (Some self.old) }
    {
        match self {
            Place::Seated(line) => line.put_first(item),
            Place::Retired(_) => {}
        }
    }

    /// How many parcels more the port for the client of a connection took at one moment of the call. That of one that is
    /// retired takes as many as a new one.
    pub fn room<W: Wait>(&mut self, rt: &W) -> usize
        ensures line { Changes true IsLookedAt (line_of (Some self.old)) (line_of (Some self.new)) }
        ensures receipt { receipt_of (Some self.new) ≡ receipt_of (Some self.old) }
        ensures room { HasRoomFor result (line_of (Some self.old)) }
    {
        match self {
            Place::Seated(line) => line.room(rt),
            Place::Retired(_) => OUTWARD_CAPACITY,
        }
    }

    /// Puts bytes for the client of a connection that is not retired, and tells whether its port was full.
    pub fn put<W: Wait>(&mut self, rt: &W, bytes: Text) -> bool
        ensures line { Changes true (PutsBytes bytes result) (line_of (Some self.old))
            (line_of (Some self.new)) }
        ensures receipt { receipt_of (Some self.new) ≡ receipt_of (Some self.old) }
    {
        match self {
            Place::Seated(line) => line.put(rt, bytes),
            Place::Retired(_) => false,
        }
    }
}
