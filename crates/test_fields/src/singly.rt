//! A stream that comes byte by byte, and how often its bytes are looked at.
ghost use Rattle.std.specs.Prelude.{◌≡◌, ◌≤◌, ◌+◌, ◌*◌, length, OnOk};
ghost use Rattle.rtsp_frame.specs.Fronts.{unfinished_of};

use crate::answer::keep;
use crate::words::Words;
use gate_bytes::{Memory, Steps, after, before};
use rtsp_frame::Framer;
use std::alloc::Global;
use std::marker::Brand;
use std::sync::ledger::{Blank, Ledger};
use test_text::CaseAnswer;

/// The most steps for a byte that comes alone: eight for the byte, and four for the piece.
const MOST_STEPS: u64 = 12;

/// Tells how many steps a stream takes at most that comes byte by byte, and how much of an unfinished head is held behind
/// each byte. No run can count the steps: the contract of `feed_singly` bounds them.
pub fn tell_singly(words: Words<'_>, answer: &mut CaseAnswer) {
    let stream = words.whole;
    let mut framer = Framer::new(words.alloc);
    let taken = feed_with::<Brand>(words.alloc, &mut framer, stream, Blank::new(1));
    keep(answer, taken);
    answer.push_number(MOST_STEPS.saturating_mul(stream.len() as u64));
    answer.push(b" steps at most, held");
    push_held(words.alloc, stream, answer);
}

/// Tells how much of an unfinished head is held behind each byte.
fn push_held(alloc: Global, stream: &[u8], answer: &mut CaseAnswer) {
    let mut framer = Framer::new(alloc);
    for piece in stream.chunks(1) {
        let taken = framer.feed(alloc, piece);
        keep(answer, taken);
        answer.push(b" ");
        answer.push_number(framer.unfinished() as u64);
    }
}

/// Feeds a stream byte by byte, with steps of a ledger of their own.
fn feed_with<L: Ledger>(
    alloc: Global,
    framer: &mut Framer,
    stream: &[u8],
    blank: Blank,
) -> Result<(), Memory>
    requires name { blank.name ≡ L.name }
    requires parts { blank.parts ≡ L.parts }
    requires share { blank.parts ≡ 1 }
{
    feed_singly(alloc, framer, stream, &mut Steps::<L>::new(blank))
}

/// Feeds a stream byte by byte, in twelve steps a byte.
fn feed_singly<L: Ledger>(
    alloc: Global,
    framer: &mut Framer,
    stream: &[u8],
    steps: &mut Steps<L>,
) -> Result<(), Memory>
    ensures { OnOk result (steps.new + 4 * unfinished_of framer.new.rest
        ≤ steps.old + 4 * unfinished_of framer.old.rest + 12 * length stream.now) }
{
    let mut left = stream;
    while !left.is_empty() {
        framer.feed_counted(alloc, before(left, 1), steps)?;
        left = after(left, 1);
    }
    Ok(())
}
