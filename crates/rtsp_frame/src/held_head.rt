//! Pieces of a head.
ghost use Rattle.std.specs.Prelude.{◌≡◌, ◌+◌, ◌-◌, ◌*◌, ◌<◌, ◌≤◌, None, length, take, IfOk, OnErr};
ghost use Rattle.gate_bytes.specs.Ascii.{lf};
ghost use Rattle.gate_bytes.specs.Places.{place_of};
ghost use Rattle.rtsp_frame.specs.CutItems.{Fed, IsHeldOn, Same};
ghost use Rattle.rtsp_frame.specs.Fronts.{IsKnownFront, IsHeadFront, head_held};

use crate::cut_items::{Queue, feed_found};
use crate::item_front::{ItemFront, StreamFront};
use crate::message::message_span;
use gate_bytes::{Memory, Steps, before, find, seek};
use rtsp_head::{HeadMarks, MOST_HEAD};
use std::alloc::Global;
use std::sync::ledger::Ledger;

/// Cuts the front of a head that was held, whose last line begins at this place, and a piece that follows it: a piece in
/// which no line ends is put behind it, and that is all.
pub fn feed_head<L: Ledger>(
    alloc: Global,
    queue: &mut Queue,
    rest: &mut Vec<u8>,
    front: &mut ItemFront,
    line: usize,
    piece: &[u8],
    steps: &mut Steps<L>,
) -> Result<bool, Memory>
    requires known { IsHeadFront rest.old.items line }
    requires front { front.old ≡ ItemFront.Line line }
    ensures ok { IfOk result (λ goes_on.
        Fed queue.old.waiting.items queue.new.waiting.items rest.old.items rest.new.items piece.now goes_on) }
    ensures err { OnErr result (
        Same queue.old.waiting.items queue.new.waiting.items rest.old.items rest.new.items) }
    ensures known { IsKnownFront rest.new.items front.new }
    ensures steps { IfOk result (λ goes_on. steps.new + 4 * head_held front.new (length rest.new.items)
        ≤ steps.old + 4 * head_held front.old (length rest.old.items) + 8 * length piece.now + 4) }
{
    let room = (MOST_HEAD - 1 - rest.len()).min(piece.len());
    let clear = clear_run(before(piece, room), steps);
    if clear < piece.len() {
        return feed_line(alloc, queue, rest, front, line, clear, piece, steps);
    }
    rest.extend_from_slice(piece)?;
    Ok(true)
}

/// Puts a piece behind the front of an item that was held, where that is a head that goes on behind the piece, since no line
/// ends in it. Whether it did: else, and where memory is wanting, nothing changes.
#[inline(always)]
pub fn hold(rest: &mut Vec<u8>, front: ItemFront, piece: &[u8]) -> Result<bool, Memory>
    requires { IsKnownFront rest.old.items front }
    ensures ok { IfOk result (λ held. IsHeldOn rest.old.items rest.new.items piece.now held) }
    ensures err { OnErr result (rest.new.items ≡ rest.old.items) }
    ensures known { IsKnownFront rest.new.items front }
{
    let ItemFront::Line(_) = front else {
        return Ok(false);
    };
    if rest.len() + piece.len() >= MOST_HEAD || find(b'\n', piece).is_some() {
        return Ok(false);
    }
    rest.extend_from_slice(piece)?;
    Ok(true)
}

/// How many bytes stand before the first end of a line: all of them, where there is none.
fn clear_run<L: Ledger>(bytes: &[u8], steps: &mut Steps<L>) -> usize
    ensures clear { place_of lf (take result bytes.now) ≡ None }
    ensures within { result ≤ length bytes.now }
    ensures steps { steps.new ≤ steps.old + result + 1 }
{
    match seek(bytes, b'\n', steps) {
        Some(at) => at,
        None => bytes.len(),
    }
}

/// The same where so many bytes of the piece are known to end no line.
#[inline(never)]
fn feed_line<L: Ledger>(
    alloc: Global,
    queue: &mut Queue,
    rest: &mut Vec<u8>,
    front: &mut ItemFront,
    line: usize,
    clear: usize,
    piece: &[u8],
    steps: &mut Steps<L>,
) -> Result<bool, Memory>
    requires known { IsHeadFront rest.old.items line }
    requires front { front.old ≡ ItemFront.Line line }
    requires clear { place_of lf (take clear piece.now) ≡ None }
    requires within { clear ≤ length piece.now }
    requires short { length rest.old.items + clear < MOST_HEAD }
    ensures ok { IfOk result (λ goes_on.
        Fed queue.old.waiting.items queue.new.waiting.items rest.old.items rest.new.items piece.now goes_on) }
    ensures err { OnErr result (
        Same queue.old.waiting.items queue.new.waiting.items rest.old.items rest.new.items) }
    ensures known { IsKnownFront rest.new.items front.new }
    ensures steps { IfOk result (λ goes_on. steps.new + 4 * head_held front.new (length rest.new.items)
        ≤ steps.old + 4 * head_held front.old (length rest.old.items) + 8 * length piece.now - 2 * clear) }
{
    let held = rest.len();
    rest.extend_from_slice(piece)?;
    let mut marks = HeadMarks::unknown();
    let found = message_span(rest.as_slice(), line, held + clear, steps, &mut marks);
    let first = StreamFront::at_once(found);
    feed_found(alloc, queue, rest, front, held, first, &mut marks, steps)
}
