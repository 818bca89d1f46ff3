//! Cutting bytes into items.
ghost use Rattle.std.specs.Prelude.{◌≡◌, ◌+◌, ◌-◌, ◌*◌, Some, [], length, take, drop, ◌≤◌, IfOk, IfSome, OnErr};
ghost use Rattle.rtsp_head.specs.Items.{first_extent, shape_at};
ghost use Rattle.rtsp_head.specs.Shapes.{shape_of};
ghost use Rattle.rtsp_frame.specs.CutItems.{Joined, Fed, Same, IsUndone, IsWhole, used_of, IsLeftover, due_after};
ghost use Rattle.rtsp_frame.specs.Fronts.{IsKnownFront, IsItemFront, head_held};
ghost use Rattle.rtsp_frame.specs.StreamFronts.{IsStreamFront, IsMarkedFront, owed};
ghost use Rattle.rtsp_head.specs.MarkedHeads.{IsMarkedHead};

use crate::extent::{front_with, stream_front};
use crate::held_head::feed_head;
use crate::item_front::{ItemFront, Leftover, StreamFront};
use gate_bytes::{Memory, Steps, after, before};
use rtsp_head::{Extent, HeadMarks, Item, Span};
use std::alloc::Global;
use std::collections::VecDeque;
use std::marker::Brand;
use std::sync::ledger::{Blank, Ledger};
use text_pool::TextPool;

/// The items that wait to be given, and the texts in whose memory those of the next items are made.
#[derive(Drop)]
pub struct Queue {
    pub waiting: VecDeque<Item>,
    pub pool: TextPool,
}

/// Cuts what was held and a piece that follows it, and keeps what is left of both. Whether the
/// stream goes on: it does not where the last item is bad. Where memory is wanting, nothing changes.
pub fn feed<L: Ledger>(
    alloc: Global,
    queue: &mut Queue,
    rest: &mut Vec<u8>,
    front: &mut ItemFront,
    piece: &[u8],
    steps: &mut Steps<L>,
) -> Result<bool, Memory>
    requires { IsKnownFront rest.old.items front.old }
    ensures ok { IfOk result (λ goes_on.
        Fed queue.old.waiting.items queue.new.waiting.items rest.old.items rest.new.items piece.now goes_on) }
    ensures err { OnErr result (
        Same queue.old.waiting.items queue.new.waiting.items rest.old.items rest.new.items) }
    ensures known { IsKnownFront rest.new.items front.new }
    ensures steps { IfOk result (λ goes_on. steps.new + 4 * head_held front.new (length rest.new.items)
        ≤ steps.old + 4 * head_held front.old (length rest.old.items) + 8 * length piece.now + 4) }
{
    if rest.is_empty() {
        return feed_fresh(alloc, queue, rest, front, piece, steps);
    }
    match *front {
        ItemFront::Line(line) => feed_head(alloc, queue, rest, front, line, piece, steps),
        ItemFront::End(span) if span.len - rest.len() <= piece.len() => {
            feed_end(alloc, queue, rest, front, span, piece, steps)
        }
        _ => feed_more(alloc, queue, rest, front, piece, steps),
    }
}

/// The same where nothing was held: the items are cut straight from the piece.
fn feed_fresh<L: Ledger>(
    alloc: Global,
    queue: &mut Queue,
    rest: &mut Vec<u8>,
    front: &mut ItemFront,
    piece: &[u8],
    steps: &mut Steps<L>,
) -> Result<bool, Memory>
    requires known { IsKnownFront rest.old.items front.old }
    requires nothing { rest.old.items ≡ [] }
    ensures ok { IfOk result (λ goes_on.
        Fed queue.old.waiting.items queue.new.waiting.items rest.old.items rest.new.items piece.now goes_on) }
    ensures err { OnErr result (
        Same queue.old.waiting.items queue.new.waiting.items rest.old.items rest.new.items) }
    ensures known { IsKnownFront rest.new.items front.new }
    ensures steps { IfOk result (λ goes_on. steps.new + 4 * head_held front.new (length rest.new.items)
        ≤ steps.old + 4 * head_held front.old (length rest.old.items) + 8 * length piece.now + 4) }
{
    let waited = queue.waiting.len();
    let mut marks = HeadMarks::unknown();
    let first = stream_front(piece, steps, &mut marks);
    let Some(left) = cut(alloc, queue, piece, first, &mut marks, steps)? else {
        *front = ItemFront::Nothing;
        return Ok(false);
    };
    if rest.extend_from_slice(after(piece, left.used)).is_err() {
        queue.waiting.truncate(waited);
        return Err(Memory);
    }
    *front = left.front;
    Ok(true)
}

/// The same where the front of an item was held whose last byte is in the piece: the bytes that it lacks join it alone,
/// and the items behind it are cut straight from the piece. It is not inlined, so that heads cost nothing of it.
#[inline(never)]
fn feed_end<L: Ledger>(
    alloc: Global,
    queue: &mut Queue,
    rest: &mut Vec<u8>,
    front: &mut ItemFront,
    span: Span,
    piece: &[u8],
    steps: &mut Steps<L>,
) -> Result<bool, Memory>
    requires known { IsItemFront rest.old.items span }
    requires front { front.old ≡ ItemFront.End span }
    requires come { span.len ≤ length rest.old.items + length piece.now }
    ensures ok { IfOk result (λ goes_on.
        Fed queue.old.waiting.items queue.new.waiting.items rest.old.items rest.new.items piece.now goes_on) }
    ensures err { OnErr result (
        Same queue.old.waiting.items queue.new.waiting.items rest.old.items rest.new.items) }
    ensures known { IsKnownFront rest.new.items front.new }
    ensures steps { IfOk result (λ goes_on. steps.new + 4 * head_held front.new (length rest.new.items)
        ≤ steps.old + 4 * head_held front.old (length rest.old.items) + 8 * length piece.now + 4) }
{
    let waited = queue.waiting.len();
    let result = end_item(alloc, queue, rest, front, span, piece, steps);
    if result.is_err() {
        queue.waiting.truncate(waited);
    }
    result
}

/// The same, where items that were cut already may stay when memory is wanting.
fn end_item<L: Ledger>(
    alloc: Global,
    queue: &mut Queue,
    rest: &mut Vec<u8>,
    front: &mut ItemFront,
    span: Span,
    piece: &[u8],
    steps: &mut Steps<L>,
) -> Result<bool, Memory>
    requires known { IsItemFront rest.old.items span }
    requires front { front.old ≡ ItemFront.End span }
    requires come { span.len ≤ length rest.old.items + length piece.now }
    ensures ok { IfOk result (λ goes_on.
        Fed queue.old.waiting.items queue.new.waiting.items rest.old.items rest.new.items piece.now goes_on) }
    ensures err { OnErr result (
        IsUndone queue.old.waiting.items queue.new.waiting.items rest.old.items rest.new.items) }
    ensures known { IsKnownFront rest.new.items front.new }
    ensures steps { IfOk result (λ goes_on. steps.new + 4 * head_held front.new (length rest.new.items)
        ≤ steps.old + 8 * length piece.now) }
{
    let missing = span.len - rest.len();
    let bytes = queue
        .pool
        .join(alloc, rest.as_slice(), before(piece, missing))?;
    queue.waiting.push_back(Item {
        kind: span.kind,
        bytes,
        head: span.head,
        marks: HeadMarks::unknown(),
    })?;
    let more = after(piece, missing);
    let mut marks = HeadMarks::unknown();
    let first = stream_front(more, steps, &mut marks);
    let Some(left) = cut(alloc, queue, more, first, &mut marks, steps)? else {
        rest.clear();
        *front = ItemFront::Nothing;
        return Ok(false);
    };
    *rest = Vec::from_slice(alloc, after(more, left.used))?;
    *front = left.front;
    Ok(true)
}

/// The same where something else was held: the piece joins it in place.
#[inline(never)]
fn feed_more<L: Ledger>(
    alloc: Global,
    queue: &mut Queue,
    rest: &mut Vec<u8>,
    front: &mut ItemFront,
    piece: &[u8],
    steps: &mut Steps<L>,
) -> Result<bool, Memory>
    requires { IsKnownFront rest.old.items front.old }
    ensures ok { IfOk result (λ goes_on.
        Fed queue.old.waiting.items queue.new.waiting.items rest.old.items rest.new.items piece.now goes_on) }
    ensures err { OnErr result (
        Same queue.old.waiting.items queue.new.waiting.items rest.old.items rest.new.items) }
    ensures known { IsKnownFront rest.new.items front.new }
    ensures steps { IfOk result (λ goes_on. steps.new + 4 * head_held front.new (length rest.new.items)
        ≤ steps.old + 4 * head_held front.old (length rest.old.items) + 8 * length piece.now + 4) }
{
    let held = rest.len();
    rest.extend_from_slice(piece)?;
    let mut marks = HeadMarks::unknown();
    let first = front_with(rest.as_slice(), *front, held, steps, &mut marks);
    feed_found(alloc, queue, rest, front, held, first, &mut marks, steps)
}

/// Cuts these bytes, of which so many were held before and this stands first, and keeps what is left of them. Where memory
/// is wanting, those are left that were held.
#[inline(always)]
pub fn feed_found<L: Ledger>(
    alloc: Global,
    queue: &mut Queue,
    rest: &mut Vec<u8>,
    front: &mut ItemFront,
    held: usize,
    first: StreamFront,
    marks: &mut HeadMarks,
    steps: &mut Steps<L>,
) -> Result<bool, Memory>
    requires first { IsStreamFront rest.old.items first }
    requires marks { IsMarkedFront rest.old.items first marks.old }
    requires within { held ≤ length rest.old.items }
    requires known { IsKnownFront (take held rest.old.items) front.old }
    ensures ok { IfOk result (λ goes_on.
        Fed queue.old.waiting.items queue.new.waiting.items [] rest.new.items rest.old.items goes_on) }
    ensures err { OnErr result (
        Same queue.old.waiting.items queue.new.waiting.items (take held rest.old.items) rest.new.items) }
    ensures known { IsKnownFront rest.new.items front.new }
    ensures steps { IfOk result (λ goes_on. steps.new + 4 * head_held front.new (length rest.new.items)
        ≤ steps.old + owed first (length rest.old.items)) }
{
    if let StreamFront::Begun {
        skipped: 0,
        front: more,
    } = first
    {
        *front = more;
        return Ok(true);
    }
    match cut(alloc, queue, rest.as_slice(), first, marks, steps) {
        Ok(Some(left)) => {
            drop_front(rest, left.used);
            *front = left.front;
            Ok(true)
        }
        Ok(None) => {
            rest.clear();
            *front = ItemFront::Nothing;
            Ok(false)
        }
        Err(Memory) => {
            rest.truncate(held);
            Err(Memory)
        }
    }
}

/// Takes off so many bytes at the front, in place.
fn drop_front(bytes: &mut Vec<u8>, count: usize)
    requires { count ≤ length bytes.old.items }
    ensures { bytes.new.items ≡ drop count bytes.old.items }
{
    if count == 0 {
        return;
    }
    let left = bytes.len() - count;
    bytes.copy_within(count.., 0);
    bytes.truncate(left);
}

/// Cuts the items of these bytes, of which this stands first, and which join the queue. What is left behind them and
/// the empty lines that follow; none where the last of them is bad. Where memory is wanting, nothing changes.
fn cut<L: Ledger>(
    alloc: Global,
    queue: &mut Queue,
    bytes: &[u8],
    first: StreamFront,
    marks: &mut HeadMarks,
    steps: &mut Steps<L>,
) -> Result<Option<Leftover>, Memory>
    requires first { IsStreamFront bytes.now first }
    requires marks { IsMarkedFront bytes.now first marks.old }
    ensures ok { IfOk result (λ left. Joined queue.old.waiting.items queue.new.waiting.items bytes.now (used_of left)) }
    ensures left { IfOk result (λ left. IsLeftover bytes.now left) }
    ensures err { OnErr result (queue.new.waiting.items ≡ queue.old.waiting.items) }
    ensures steps { IfOk result (λ left. steps.new + due_after left (length bytes.now)
        ≤ steps.old + owed first (length bytes.now)) }
{
    let waited = queue.waiting.len();
    let result = cut_on(alloc, queue, bytes, first, marks, steps);
    if result.is_err() {
        queue.waiting.truncate(waited);
    }
    result
}

/// The same, where items that were cut already may stay when memory is wanting.
fn cut_on<L: Ledger>(
    alloc: Global,
    queue: &mut Queue,
    bytes: &[u8],
    first: StreamFront,
    marks: &mut HeadMarks,
    steps: &mut Steps<L>,
) -> Result<Option<Leftover>, Memory>
    requires first { IsStreamFront bytes.now first }
    requires marks { IsMarkedFront bytes.now first marks.old }
    ensures ok { IfOk result (λ left. Joined queue.old.waiting.items queue.new.waiting.items bytes.now (used_of left)) }
    ensures left { IfOk result (λ left. IsLeftover bytes.now left) }
    ensures err { OnErr result
        (take (length queue.old.waiting.items) queue.new.waiting.items ≡ queue.old.waiting.items) }
    ensures steps { IfOk result (λ left. steps.new + due_after left (length bytes.now)
        ≤ steps.old + owed first (length bytes.now)) }
{
    let mut used = 0;
    let mut left = bytes;
    let mut next = first;
    'items: loop {
        match next {
            StreamFront::Whole(extent) => {
                let item = copy_item(alloc, &mut queue.pool, left, extent, marks)?;
                queue.waiting.push_back(item)?;
                if extent.span.kind.is_bad() {
                    return Ok(None);
                }
                let taken = extent.skipped + extent.span.len;
                used += taken;
                left = after(left, taken);
                next = stream_front(left, steps, marks);
            }
            StreamFront::Begun { skipped, front } => {
                return Ok(Some(Leftover {
                    used: used + skipped,
                    front,
                }));
            }
        }
    }
}

/// The first item of a stream. It is not inlined, so that a piece in which no item ends costs nothing of it.
#[inline(never)]
fn copy_item(
    alloc: Global,
    pool: &mut TextPool,
    stream: &[u8],
    extent: Extent,
    marks: &HeadMarks,
) -> Result<Item, Memory>
    requires first { first_extent stream.now ≡ Some extent }
    requires marks { IsMarkedHead (take extent.span.head (drop extent.skipped stream.now)) marks.now }
    ensures { IfOk result (λ item. shape_of item ≡ shape_at stream.now extent) }
{
    let bytes = before(after(stream, extent.skipped), extent.span.len);
    Ok(Item {
        kind: extent.span.kind,
        bytes: pool.copy(alloc, bytes)?,
        head: extent.span.head,
        marks: *marks,
    })
}

/// The item that these bytes are, where they are one whole item and nothing else.
pub fn whole(bytes: &[u8], marks: &mut HeadMarks) -> Option<Span>
    ensures whole { IfSome result (IsWhole bytes.now) }
    ensures marks { IfSome result (λ span. IsMarkedHead (take span.head bytes.now) marks.new) }
{
    whole_with::<Brand>(bytes, marks, Blank::new(1))
}

/// The same, with steps of a ledger of their own.
fn whole_with<L: Ledger>(bytes: &[u8], marks: &mut HeadMarks, blank: Blank) -> Option<Span>
    requires name { blank.name ≡ L.name }
    requires parts { blank.parts ≡ L.parts }
    requires share { blank.parts ≡ 1 }
    ensures whole { IfSome result (IsWhole bytes.now) }
    ensures marks { IfSome result (λ span. IsMarkedHead (take span.head bytes.now) marks.new) }
{
    match stream_front(bytes, &mut Steps::<L>::new(blank), marks) {
        StreamFront::Whole(extent) if extent.skipped == 0 && extent.span.len == bytes.len() => {
            Some(extent.span)
        }
        _ => None,
    }
}
