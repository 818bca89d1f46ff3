//! A port and a bell, by one thread.
ghost use Rattle.std.specs.Prelude.{◌≡◌};
ghost use Rattle.client_ports.specs.Ends.{OfOnePort, putters_port};

use crate::parcels::{tell_next, tell_parcel};
use client_ports::{Bell, Parcel, Putter, Taker, meet, port};
use gate_bytes::Text;
use std::alloc::Global;
use std::sync::Wait;
use std::time::{Clock, Duration};
use test_text::{CaseAnswer, CaseFault, first_word};

/// The two ends of one port.
#[derive(Drop)]
struct PortEnds {
    putter: Putter,
    taker: Taker,
    ghost one: { OfOnePort putter taker },
}

impl PortEnds {
    /// Has a word put, or a parcel taken where it is `take`, and tells what came.
    fn play<W: Wait>(&mut self, rt: &W, alloc: Global, word: &[u8], answer: &mut CaseAnswer) {
        if word == b"take".as_slice() {
            tell_next(rt, &mut self.taker, answer);
        } else {
            put(rt, alloc, &mut self.putter, word, answer);
        }
        answer.push(b", ");
    }

    /// Tells how many parcels wait, and how many the port holds; how many were put, how often it was full, and how many were
    /// taken; and what its two ends come to.
    fn end<W: Wait>(self, rt: &W, alloc: Global, answer: &mut CaseAnswer) {
        let PortEnds {
            mut putter,
            mut taker,
        } = self;
        answer.push_debug(alloc, &(putter.waiting(rt), putter.capacity()));
        taker.hear(&mut putter);
        answer.push(b", ");
        answer.push_debug(alloc, &(putter.count(), putter.fulls(), taker.count()));
        answer.push(b", ");
        answer.push_debug(alloc, &meet(putter, taker));
    }
}

/// Has the words of a line put at a new port that holds two parcels, and taken from it where they are `take`. What came of
/// each is told, and then what the port came to.
pub fn play_port<W: Wait>(rt: &W, alloc: Global, words: &[u8], answer: &mut CaseAnswer) {
    match port(alloc, 2) {
        Ok((putter, taker)) => {
            let mut ends = PortEnds { putter, taker };
            play_words(rt, alloc, &mut ends, words, answer);
            ends.end(rt, alloc, answer);
        }
        Err(_memory) => answer.fail(CaseFault::Memory),
    }
}

/// Has each word put or taken.
fn play_words<W: Wait>(
    rt: &W,
    alloc: Global,
    ends: &mut PortEnds,
    words: &[u8],
    answer: &mut CaseAnswer,
) {
    let mut left = words;
    for _ in 0..words.len() {
        if left.is_empty() {
            break;
        }
        let (word, more) = first_word(left);
        ends.play(rt, alloc, word, answer);
        left = more;
    }
}

/// Puts these bytes, and tells whether there was room, and else the bytes that came back.
fn put<W: Wait>(rt: &W, alloc: Global, putter: &mut Putter, bytes: &[u8], answer: &mut CaseAnswer)
    ensures { putters_port putter.new ≡ putters_port putter.old }
{
    match Text::copy(alloc, bytes) {
        Ok(bytes) => match putter.put(rt, Parcel::Bytes(bytes)) {
            Ok(()) => answer.push(b"put"),
            Err(full) => {
                answer.push(b"full ");
                tell_parcel(&full.parcel, answer);
            }
        },
        Err(_memory) => answer.fail(CaseFault::Memory),
    }
}

/// Rings a bell twice before a pause, and once softly behind it. How often it rang is told, by the pause and by the bell, how
/// often it rang loud after a rest of a millisecond, and again how often it rang after a pause of a millisecond.
pub fn play_bell<W: Wait + Clock>(rt: &W, answer: &mut CaseAnswer) {
    let bell = Bell::new();
    let seen = bell.rings();
    bell.ring();
    bell.ring();
    answer.push_number(bell.pause(rt, seen));
    answer.push(b", ");
    answer.push_number(bell.rings());
    bell.ring_softly();
    bell.rest_within(rt, bell.loud_rings(), Duration::from_millis(1));
    answer.push(b", ");
    answer.push_number(bell.loud_rings());
    bell.pause_within(rt, bell.rings(), Duration::from_millis(1));
    answer.push(b", ");
    answer.push_number(bell.rings());
}
