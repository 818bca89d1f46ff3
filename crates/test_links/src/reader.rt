//! A reader that reads an inlet to its end.
ghost use Rattle.std.specs.Prelude.{◌<◌};

use crate::draft::Draft;
use crate::links::{new_inlet, number_in};
use client_ports::{Parcel, Taker, port};
use gate_bytes::Text;
use gate_outside::MemoryInlet;
use gateway_links::{Push, Read, Reader};
use std::alloc::Global;
use std::sync::Wait;
use test_text::{CaseAnswer, CaseFault};
use text_pool::TextPool;

/// The most reads of one inlet.
const MOST_READS: u32 = 10_000;

/// The most parcels that are put or taken at once.
const MOST_PARCELS: u32 = 8;

/// Reads what the draft says into a port that holds so many items, until the end of it, and tells what came.
pub fn read_all<W: Wait>(
    rt: &W,
    alloc: Global,
    draft: &mut Draft,
    more: &[u8],
    answer: &mut CaseAnswer,
) {
    match new_reader(alloc, draft, more) {
        Ok((mut reader, mut taker)) => {
            let was_full = read_to_end(rt, alloc, &mut reader, &mut taker, answer);
            answer.push(b", full ");
            answer.push_debug(alloc, &was_full);
            answer.push(b", put ");
            answer.push_number(reader.into_ends().1.count());
        }
        Err(fault) => answer.fail(fault),
    }
}

/// A reader of what the draft says, and the end that takes its items, of which the port holds as many as a line says. It has
/// one text that is done with, in whose memory it makes one of its own.
fn new_reader(
    alloc: Global,
    draft: &mut Draft,
    more: &[u8],
) -> Result<(Reader<MemoryInlet>, Taker), CaseFault> {
    let capacity = number_in(more)? as usize;
    if capacity == 0 {
        return Err(CaseFault::Unreadable);
    }
    let mut spent = TextPool::new(alloc);
    spent.keep(Text::copy(alloc, &[0; 600])?);
    let inlet = new_inlet(alloc, draft, 0)?;
    let (putter, taker) = port(alloc, capacity)?;
    let mut reader = Reader::new(alloc, inlet, putter);
    reader.refill(&mut spent);
    Ok((reader, taker))
}

/// Reads, puts and takes until the end. The bytes of the items are told in one text, and whether the port was ever full is
/// the answer.
fn read_to_end<W: Wait>(
    rt: &W,
    alloc: Global,
    reader: &mut Reader<MemoryInlet>,
    taker: &mut Taker,
    answer: &mut CaseAnswer,
) -> bool {
    let mut came = CaseAnswer::new(alloc);
    let mut was_full = false;
    let mut buffer = [0u8; 100];
    for _ in 0..MOST_READS {
        let read = reader.read(alloc, &mut buffer);
        let pushed = push_all(rt, reader);
        take_all(rt, taker, &mut came);
        was_full = was_full || pushed == Push::Full;
        if read == Read::End && pushed == Push::Empty {
            break;
        }
    }
    answer.push_shown(came.as_bytes());
    was_full
}

/// Puts what came, as far as the port takes it.
fn push_all<W: Wait>(rt: &W, reader: &mut Reader<MemoryInlet>) -> Push {
    for _ in 0..MOST_PARCELS {
        match reader.push(rt) {
            Push::Put => {}
            other => return other,
        }
    }
    Push::Put
}

/// Takes the items that are there, and lays their bytes one behind another.
fn take_all<W: Wait>(rt: &W, taker: &mut Taker, into: &mut CaseAnswer) {
    for _ in 0..MOST_PARCELS {
        match taker.take(rt) {
            Some(Parcel::Item(item)) => into.push(item.bytes.as_bytes()),
            _ => break,
        }
    }
}
