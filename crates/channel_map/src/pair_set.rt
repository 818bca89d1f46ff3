//! Sets of pairs of channels.
ghost use Rattle.std.specs.Prelude.{◌≡◌, ◌<◌, ◌==◌, ◌||◌, ℕ, false};
ghost use Rattle.channel_map.specs.declared.map.TheConstants.{PAIRS};
ghost use Rattle.channel_map.specs.PairSets.{is_in_set};

use crate::map::PAIRS;

/// A set of pairs of channels: the bit of each pair, from the lowest on, tells whether it is in it.
#[derive(Clone, Copy, Debug, PartialEq, Eq)]
pub struct PairSet {
    bits: u128,
}

impl PairSet {
    /// No pair.
    pub fn new() -> PairSet
        ensures { (p : ℕ) → is_in_set result p ≡ false }
    {
        PairSet { bits: 0 }
    }

    /// A pair is put into it. There is no pair from [`PAIRS`] on.
    pub fn insert(&mut self, pair: u8)
        ensures { (p : ℕ) → p < PAIRS → is_in_set self.new p ≡ (p == pair || is_in_set self.old p) }
    {
        if usize::from(pair) < PAIRS {
            self.bits |= 1 << pair;
        }
    }

    /// Its bits, that of each pair from the lowest on.
    pub(crate) fn bits(self) -> u128
        ensures { result ≡ self.bits }
    {
        self.bits
    }

    /// Whether a pair is in it.
    pub fn contains(self, pair: u8) -> bool
        ensures { result ≡ is_in_set self pair }
    {
        usize::from(pair) < PAIRS && (self.bits >> pair) & 1 == 1
    }
}
