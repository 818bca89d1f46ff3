//! Parcels: how items are put at a port, and what is taken from one.
ghost use Rattle.std.specs.Prelude.{◌≡◌};
ghost use Rattle.client_ports.specs.Ends.{takers_port};

use client_ports::{Parcel, Putter, Taker};
use rtsp_frame::Framer;
use rtsp_head::Item;
use std::alloc::Global;
use std::sync::Wait;
use test_text::{CaseAnswer, CaseFault, meant};

/// Puts the item that a body means. Tells `full` where there is no room for it, and answers whether it was put.
pub fn put_item<W: Wait>(
    rt: &W,
    alloc: Global,
    end: &mut Putter,
    body: &[u8],
    answer: &mut CaseAnswer,
) -> bool {
    match meant(alloc, body) {
        Ok(bytes) => put_bytes(rt, alloc, end, bytes.as_bytes(), answer),
        Err(fault) => {
            answer.fail(fault);
            false
        }
    }
}

/// The same of the item that bytes are.
fn put_bytes<W: Wait>(
    rt: &W,
    alloc: Global,
    end: &mut Putter,
    bytes: &[u8],
    answer: &mut CaseAnswer,
) -> bool {
    put_framed(rt, alloc, &mut Framer::new(alloc), end, bytes, answer)
}

/// The same with a framer that has nothing left.
pub fn put_framed<W: Wait>(
    rt: &W,
    alloc: Global,
    framer: &mut Framer,
    end: &mut Putter,
    bytes: &[u8],
    answer: &mut CaseAnswer,
) -> bool {
    match item_of(alloc, framer, bytes) {
        Ok(item) => {
            let is_put = end.put(rt, Parcel::Item(item)).is_ok();
            if !is_put {
                answer.push(b"full");
            }
            is_put
        }
        Err(fault) => {
            answer.fail(fault);
            false
        }
    }
}

/// The item that bytes are.
fn item_of(alloc: Global, framer: &mut Framer, bytes: &[u8]) -> Result<Item, CaseFault> {
    framer.feed(alloc, bytes)?;
    framer.next().ok_or(CaseFault::Unreadable)
}

/// Puts the item that a body means, and tells whether there was room for it.
pub fn tell_put<W: Wait>(
    rt: &W,
    alloc: Global,
    end: &mut Putter,
    body: &[u8],
    answer: &mut CaseAnswer,
) {
    if put_item(rt, alloc, end, body, answer) {
        answer.push(b"put");
    }
}

/// Takes the next parcel of an end, and tells its bytes; `none` where there is none.
pub fn tell_next<W: Wait>(rt: &W, end: &mut Taker, answer: &mut CaseAnswer)
    ensures { takers_port end.new ≡ takers_port end.old }
{
    match end.take(rt) {
        Some(parcel) => tell_parcel(&parcel, answer),
        None => answer.push(b"none"),
    }
}

/// Tells the bytes of a parcel.
pub fn tell_parcel(parcel: &Parcel, answer: &mut CaseAnswer) {
    match parcel {
        Parcel::Bytes(bytes) => answer.push_shown(bytes.as_bytes()),
        Parcel::Item(item) => {
            answer.push(b"item ");
            answer.push_shown(item.bytes.as_bytes());
        }
    }
}

/// Tells the bytes of an item that was taken; `none` where there was none.
pub fn tell_item(item: &Option<Item>, answer: &mut CaseAnswer) {
    match item {
        Some(item) => answer.push_shown(item.bytes.as_bytes()),
        None => answer.push(b"none"),
    }
}
