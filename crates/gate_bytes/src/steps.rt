//! Looking at bytes, counted.
ghost use Rattle.std.specs.Prelude.{◌≡◌, ◌+◌, ◌<◌, length, slice_index, IfSome};
ghost use Rattle.gate_bytes.specs.Places.{place_of, looked_at};

use crate::place::find;
use std::marker::Model;
use std::sync::ledger::{Blank, Book, Ledger, Share};

/// How many steps were taken: how often a byte was looked at. Contracts see that number. It takes no bytes and no code,
/// and no program can read it: it is there for contracts that bound the work.
#[derive(Drop)]
pub struct Steps<L: Ledger> {
    book: Book<L>,
    share: Share<L>,
}

impl<L: Ledger> Model for Steps<L> {
    ghost use Rattle.std.specs.Prelude.{ℕ, ◌<◌};

    ghost Value = { ℕ };

    ghost view = { λ s. s.book.total };

    ghost invariant = { λ s. 0 < s.share.parts };
}

impl<L: Ledger> Steps<L> {
    /// No step, in a ledger that no type stands for yet.
    pub fn new(blank: Blank) -> Steps<L>
        requires name { blank.name ≡ L.name }
        requires parts { blank.parts ≡ L.parts }
        requires share { blank.parts ≡ 1 }
        ensures { result ≡ 0 }
    {
        let (book, share) = blank.open::<L>();
        Steps { book, share }
    }

    /// So many steps more, for bytes that are looked at in another way than by [`look`] and [`seek`].
    pub fn add(&mut self, steps: usize)
        ensures { self.new ≡ self.old + steps }
    {
        self.book.add(&mut self.share, steps as u64);
    }
}

/// The byte at `at`, which is a place in the text. One step.
pub fn look<L: Ledger>(bytes: &[u8], at: usize, steps: &mut Steps<L>) -> u8
    requires { at < length bytes.now }
    ensures byte { result ≡ slice_index bytes.now at }
    ensures steps { steps.new ≡ steps.old + 1 }
{
    steps.add(1);
    bytes[at]
}

/// The first place of a byte in a text. A step for each byte up to and with it, and for each byte of the text where the
/// byte is not in it.
pub fn seek<L: Ledger>(bytes: &[u8], byte: u8, steps: &mut Steps<L>) -> Option<usize>
    ensures place { result ≡ place_of byte bytes.now }
    ensures within { IfSome result (λ at. at < length bytes.now) }
    ensures steps { steps.new ≡ steps.old + looked_at byte bytes.now }
{
    let found = find(byte, bytes);
    match found {
        Some(at) => steps.add(at + 1),
        None => steps.add(bytes.len()),
    }
    found
}
