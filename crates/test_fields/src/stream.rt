//! Streams and their items.
ghost use Rattle.std.specs.Prelude.{◌<◌};

use crate::answer::{keep, push_named, push_part};
use crate::content::fed;
use crate::singly::tell_singly;
use crate::words::Words;
use gate_bytes::{after, before};
use rtsp_frame::{Framer, Item};
use std::alloc::Global;
use test_text::{CaseAnswer, CaseFault};

/// The bytes of the longest stream that is cut everywhere. A longer one comes byte by byte alone, since each cut costs time.
const LONGEST_CUT: usize = 128;

/// Tells the answer of a case with one of these names; whether it has one.
pub fn tell(framer: &mut Framer, name: &str, words: Words<'_>, answer: &mut CaseAnswer) -> bool {
    match name {
        "items" => tell_items(words, answer),
        "new-stream" => {
            *framer = Framer::new(words.alloc);
            answer.push(b"begun");
        }
        "take" => tell_taken(framer, words, answer),
        "singly" => tell_singly(words, answer),
        "next" => push_item(words.alloc, answer, &framer.next()),
        _ => return false,
    }
    true
}

/// The item that a piece is which is moved in, or the first that it gives.
fn tell_taken(framer: &mut Framer, words: Words<'_>, answer: &mut CaseAnswer) {
    let mut piece = words.all(answer);
    match framer.take(words.alloc, &mut piece) {
        Ok(item) => push_item(words.alloc, answer, &item),
        Err(_memory) => answer.fail(CaseFault::Memory),
    }
}

/// Tells an item, and `nothing` where there is none.
fn push_item(alloc: Global, answer: &mut CaseAnswer, item: &Option<Item>) {
    match item {
        Some(item) => push_whole(alloc, answer, item),
        None => answer.push(b"nothing"),
    }
}

/// Tells an item: what it is, its head and its body.
fn push_whole(alloc: Global, answer: &mut CaseAnswer, item: &Item) {
    answer.push_debug(alloc, &item.kind);
    push_part(answer, b" head ", item.head_bytes());
    push_part(answer, b" body ", item.body_bytes());
}

/// The items of a stream, and the cuts that give others.
fn tell_items(words: Words<'_>, answer: &mut CaseAnswer) {
    let mut framer = fed(words.alloc, words.whole, answer);
    push_item(words.alloc, answer, &framer.next());
    for _ in 0..u64::MAX {
        let Some(item) = framer.next() else {
            break;
        };
        answer.push(b", then ");
        push_whole(words.alloc, answer, &item);
    }
    push_differences(words.alloc, words.whole, answer);
}

/// Tells a line for each way to cut a stream in which other items come of it than of the whole.
fn push_differences(alloc: Global, stream: &[u8], answer: &mut CaseAnswer) {
    let cuts = if stream.len() > LONGEST_CUT {
        1
    } else {
        stream.len() + 1
    };
    for at in 0..cuts {
        if !is_same_in_pieces(alloc, stream, at + 1, answer) {
            push_named(answer, b"\ndiffers in pieces of ", Some(at as u64 + 1));
        }
        if !is_same_cut(alloc, stream, at, answer) {
            push_named(answer, b"\ndiffers where it is cut at ", Some(at as u64));
        }
    }
}

/// Whether the same items come of a stream in pieces of so many bytes, each taken as soon as it came.
fn is_same_in_pieces(alloc: Global, stream: &[u8], size: usize, answer: &mut CaseAnswer) -> bool
    requires { 0 < size }
{
    let mut whole = fed(alloc, stream, answer);
    let mut framer = Framer::new(alloc);
    let mut is_same = true;
    for piece in stream.chunks(size) {
        let taken = framer.feed(alloc, piece);
        keep(answer, taken);
        is_same &= gives_next(&mut framer, &mut whole);
    }
    is_same && whole.next().is_none()
}

/// Whether the same items come of a stream in two pieces, the first of so many bytes at most.
fn is_same_cut(alloc: Global, stream: &[u8], at: usize, answer: &mut CaseAnswer) -> bool {
    let at = at.min(stream.len());
    let mut whole = fed(alloc, stream, answer);
    let mut framer = fed(alloc, before(stream, at), answer);
    let taken = framer.feed(alloc, after(stream, at));
    keep(answer, taken);
    gives_next(&mut framer, &mut whole) && whole.next().is_none()
}

/// Whether all items that a framer has are the next ones of another.
fn gives_next(framer: &mut Framer, other: &mut Framer) -> bool {
    for _ in 0..u64::MAX {
        let Some(item) = framer.next() else {
            break;
        };
        if !is_next(&item, other) {
            return false;
        }
    }
    true
}

/// Whether an item is the next one of a framer.
fn is_next(item: &Item, framer: &mut Framer) -> bool {
    match framer.next() {
        Some(next) => is_same(item, &next),
        None => false,
    }
}

/// Whether these two are the same item.
fn is_same(item: &Item, wanted: &Item) -> bool {
    item.kind == wanted.kind
        && item.head == wanted.head
        && item.bytes.as_bytes() == wanted.bytes.as_bytes()
}
