//! What came is put into a port.
ghost use Rattle.std.specs.Prelude.{◌≡◌, ℕ, List, Option, Some};
ghost use Rattle.gateway_links.specs.ReadItems.{ReadsItems, ReadsFront, PutAll};
ghost use Rattle.gateway_links.specs.declared.put.Put.TheVariants as puts;

use crate::{Push, Reader};
use gate_outside::Inlet;
use std::sync::Wait;

/// What came of putting what came.
#[derive(Clone, Copy, PartialEq, Eq)]
pub enum Put {
    /// No whole item is left of what came.
    All,
    /// Some may be left.
    More,
    /// The next item is a frame, and many parcels wait for the server.
    Held,
}

/// Puts the next items that came, so many at most, and where the server is crowded none from a frame on.
pub fn put_some<I: Inlet + Drop, W: Wait>(
    rt: &W,
    reader: &mut Reader<I>,
    most: u32,
    is_crowded: bool,
) -> Put
    ensures inlet { reader.new.inlet ≡ reader.old.inlet }
    ensures reads { (first : Option (List ℕ)) → ReadsItems I.rest first reader.old
        → ReadsItems I.rest first reader.new }
    ensures front { (first : Option (List ℕ)) → ReadsFront I.rest first reader.old
        → ReadsFront I.rest first reader.new }
    ensures all { result ≡ puts.All
        → (first : Option (List ℕ))
        → ReadsItems I.rest first reader.old
        → PutAll I.rest first reader.new }
{
    for _ in 0..most {
        if let Some(put) = put_one(rt, reader, is_crowded) {
            return put;
        }
    }
    Put::More
}

/// Puts the next item that came, and where the server is crowded no frame. None where one was put.
fn put_one<I: Inlet + Drop, W: Wait>(
    rt: &W,
    reader: &mut Reader<I>,
    is_crowded: bool,
) -> Option<Put>
    ensures inlet { reader.new.inlet ≡ reader.old.inlet }
    ensures reads { (first : Option (List ℕ)) → ReadsItems I.rest first reader.old
        → ReadsItems I.rest first reader.new }
    ensures front { (first : Option (List ℕ)) → ReadsFront I.rest first reader.old
        → ReadsFront I.rest first reader.new }
    ensures all { result ≡ Some puts.All
        → (first : Option (List ℕ))
        → ReadsItems I.rest first reader.old
        → PutAll I.rest first reader.new }
{
    if !is_crowded {
        return put_next(rt, reader);
    }
    if reader.next_is_frame() {
        return Some(Put::Held);
    }
    put_next(rt, reader)
}

/// Puts the next item that came.
fn put_next<I: Inlet + Drop, W: Wait>(rt: &W, reader: &mut Reader<I>) -> Option<Put>
    ensures inlet { reader.new.inlet ≡ reader.old.inlet }
    ensures reads { (first : Option (List ℕ)) → ReadsItems I.rest first reader.old
        → ReadsItems I.rest first reader.new }
    ensures front { (first : Option (List ℕ)) → ReadsFront I.rest first reader.old
        → ReadsFront I.rest first reader.new }
    ensures all { result ≡ Some puts.All
        → (first : Option (List ℕ))
        → ReadsItems I.rest first reader.old
        → PutAll I.rest first reader.new }
{
    match reader.push(rt) {
        Push::Put => None,
        Push::Full => Some(Put::More),
        Push::Empty => Some(Put::All),
    }
}
