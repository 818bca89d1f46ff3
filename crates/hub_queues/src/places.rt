//! The connections of the hub, by their numbers.
ghost use Rattle.std.specs.Prelude.{◌≡◌, None, is_some};
ghost use Rattle.hub_queues.specs.Places.{LineChanges, PutsBytes, CountsItem, Closes, FetchesLine, PutsFirst, HandsOut, ClosesOne, line_at};
ghost use Rattle.hub_queues.specs.Room.{HasRoomFor, IsLookedAt};

use crate::line::Place;
use crate::{Close, OUTWARD_CAPACITY};
use gate_bytes::Text;
use gateway_claim::{Closed, ToClient};
use rtsp_head::Item;
use std::sync::Wait;

/// Whether a connection entered and is not retired.
pub fn is_seated(places: &[Place], conn: u32) -> bool
    ensures { result ≡ is_some (line_at places.now conn) }
{
    matches!(places.get(conn as usize), Some(Place::Seated(_)))
}

/// Counts an arrival more of a connection.
pub fn count_arrival(places: &mut Vec<Place>, conn: u32)
    ensures { LineChanges conn CountsItem places.old.items places.new.items }
{
    if let Some(place) = places.get_mut(conn as usize) {
        place.count_arrival();
    }
}

/// Notes how a connection was closed, where it was not closed before.
fn close_one(places: &mut Vec<Place>, conn: u32, close: Close)
    ensures { LineChanges conn (Closes close) places.old.items places.new.items }
{
    if let Some(place) = places.get_mut(conn as usize) {
        place.close_as(close);
    }
}

/// Notes the close of one connection; none where none or all were closed.
pub fn note_close(places: &mut Vec<Place>, closed: Closed, by_upstream: bool)
    ensures { ClosesOne by_upstream closed places.old.items places.new.items }
{
    if let Closed::One(conn, why) = closed {
        close_one(places, conn, Close { why, by_upstream });
    }
}

/// Takes the first item in line of a connection.
pub fn next_of<W: Wait>(places: &mut Vec<Place>, rt: &W, conn: u32) -> Option<Item>
    ensures line { LineChanges conn (FetchesLine result) places.old.items places.new.items }
    ensures none { line_at places.old.items conn ≡ None → result ≡ None }
{
    match places.get_mut(conn as usize) {
        Some(place) => place.next(rt),
        None => None,
    }
}

/// Puts an item first in line of a connection.
pub fn put_first(places: &mut Vec<Place>, conn: u32, item: Item)
    ensures { LineChanges conn (PutsFirst item) places.old.items places.new.items }
{
    if let Some(place) = places.get_mut(conn as usize) {
        place.put_first(item);
    }
}

/// How many parcels more the port for the client of a connection took at one moment of the call. Where it has no line, as
/// many as a new one.
pub fn room_of<W: Wait>(places: &mut Vec<Place>, rt: &W, conn: u32) -> usize
    ensures line { LineChanges conn IsLookedAt places.old.items places.new.items }
    ensures room { HasRoomFor result (line_at places.old.items conn) }
{
    match places.get_mut(conn as usize) {
        Some(place) => place.room(rt),
        None => OUTWARD_CAPACITY,
    }
}

/// Puts bytes for the client of a connection, and tells whether its port was full.
fn put_for<W: Wait>(places: &mut Vec<Place>, rt: &W, conn: u32, bytes: Text) -> bool
    ensures { LineChanges conn (PutsBytes bytes result) places.old.items places.new.items }
{
    match places.get_mut(conn as usize) {
        Some(place) => place.put(rt, bytes),
        None => false,
    }
}

/// Puts what a client is handed, and tells whose port was full, if any was.
pub fn hand_out<W: Wait>(places: &mut Vec<Place>, rt: &W, piece: Option<ToClient>) -> Option<u32>
    ensures { HandsOut piece result places.old.items places.new.items }
{
    let piece = piece?;
    let full = put_for(places, rt, piece.conn, piece.bytes);
    if full { Some(piece.conn) } else { None }
}
