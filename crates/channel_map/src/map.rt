//! Which pairs of channels are held, and by whom.
ghost use Rattle.channel_map.specs.Pairs.{held_at, is_free, kept, first_free, lowest_free};
ghost use Rattle.channel_map.specs.Bits.{HasBitWhere};
ghost use Rattle.std.specs.Prelude.{Bool, length, ◌<◌, ◌≡◌, ◌==◌, ◌/◌, ◌↔◌, ℕ, false, true, None, Some, IsSome, IsNone, IfSome, IfNone, if◌then◌else◌};

use crate::pair_set::PairSet;
use std::marker::Model;

/// How many pairs of channels there are. A channel is one byte (RFC 7826, 14), and a pair has two.
pub const PAIRS: usize = 128;

/// A pair of channels that a connection holds.
#[derive(Clone, Copy, Debug, PartialEq, Eq)]
pub struct Held {
    /// The connection's number.
    pub conn: u32,
    /// The pair: its channels are twice this number, and the next one.
    pub pair: u8,
    /// Whether the server granted it; else its SETUP is open.
    pub granted: bool,
}

/// What a reply of the server frees.
#[derive(Clone, Copy, Debug, PartialEq, Eq)]
pub enum Freed {
    /// No pair.
    Nothing,
    /// A pair whose SETUP was refused.
    Pair(u8),
    /// The granted ones of these pairs, which are those of a session's streams.
    Granted(PairSet),
}

impl Freed {
    ghost use Rattle.channel_map.specs.Pairs.{frees};

    /// Whether a pair that is held is freed.
    fn frees(self, held: Held) -> bool
        ensures { result ≡ frees self held }
    {
        match self {
            Freed::Nothing => false,
            Freed::Pair(pair) => held.pair == pair,
            Freed::Granted(pairs) => held.granted && pairs.contains(held.pair),
        }
    }

    /// What is left of a place of the table.
    fn kept(self, place: Option<Held>) -> Option<Held>
        ensures { result ≡ kept self place }
    {
        let held = place?;
        if self.frees(held) { None } else { Some(held) }
    }

    /// Whether a place of the table is free then.
    fn leaves_free(self, place: Option<Held>) -> bool
        ensures { result ≡ is_free (kept self place) }
    {
        self.kept(place).is_none()
    }
}

/// The table of all pairs: who holds each, and a bit for each, the pair's number from the lowest on,
/// which is set where nobody does.
#[derive(Drop)]
pub struct ChannelMap {
    table: [Option<Held>; PAIRS],
    free: u128,
}

impl Model for ChannelMap {
    ghost use Rattle.std.specs.Prelude.{List, Option};
    ghost use Rattle.channel_map.specs.declared.map.Held.{Held};
    ghost use Rattle.channel_map.specs.Pairs.{IsTable, held_at, is_free};
    ghost use Rattle.channel_map.specs.Bits.{HasBitWhere};

    ghost Value = { List (Option Held) };

    ghost view = { λ map. map.table };

    ghost invariant = { λ map. IsTable map.table × HasBitWhere map.free (λ p. is_free (held_at p map.table)) };
}

impl ChannelMap {
    ghost use Rattle.channel_map.specs.Pairs.{granted_now, lowest_free, held_count};

    /// No pair is held.
    pub fn new() -> ChannelMap
        ensures { (p : ℕ) → held_at p result ≡ None }
    {
        ChannelMap {
            table: [None; PAIRS],
            free: u128::MAX,
        }
    }

    /// Reserves the lowest pair that is not held, for a connection.
    pub fn reserve(&mut self, conn: u32) -> Option<u8>
        ensures lowest { result ≡ lowest_free (λ p. is_free (held_at p self.old)) }
        ensures full { IsNone result ↔ (held_count self.old ≡ PAIRS) }
        ensures reserved { IfSome result (λ pair.
            (p : ℕ)
            → held_at p self.new
            ≡ (if p == pair
            then Some (record { conn = conn; pair = pair; granted = false })
            else held_at p self.old)) }
        ensures none { IfNone result (self.new ≡ self.old) }
    {
        let pair = lowest(self.free)?;
        self.hold(Held {
            conn,
            pair,
            granted: false,
        });
        Some(pair)
    }

    /// The lowest pair that is not held once what a reply frees is freed. Nothing is freed yet.
    pub fn free_after(&self, freed: Freed) -> Option<u8>
        ensures lowest { result ≡ lowest_free (λ p. is_free (kept freed (held_at p self.now))) }
    {
        match freed {
            Freed::Nothing => lowest(self.free),
            Freed::Pair(pair) => {
                if usize::from(pair) < PAIRS {
                    lowest(self.free | 1 << pair)
                } else {
                    lowest(self.free)
                }
            }
            Freed::Granted(_) => match first_free(&self.table, freed) {
                Some(place) => Some(place as u8),
                None => None,
            },
        }
    }

    /// The server granted a pair.
    pub fn grant(&mut self, pair: u8)
        requires { IsSome (held_at pair self.old) }
        ensures { (p : ℕ)
            → held_at p self.new
            ≡ (if p == pair then granted_now (held_at p self.old) else held_at p self.old) }
    {
        if let Some(held) = self.table[usize::from(pair)] {
            self.hold(Held {
                granted: true,
                ..held
            });
        }
    }

    /// Who holds a channel of the server's connection.
    pub fn owner(&self, channel: u8) -> Option<Held>
        ensures { result ≡ held_at (channel / 2) self.now }
    {
        self.table[usize::from(channel / 2)]
    }

    /// A pair is held no longer.
    pub fn release(&mut self, pair: u8)
        requires { IsSome (held_at pair self.old) }
        ensures { (p : ℕ) → held_at p self.new ≡ (if p == pair then None else held_at p self.old) }
    {
        self.table[usize::from(pair)] = None;
        self.free |= 1 << pair;
    }

    /// Frees what a reply frees.
    pub fn free(&mut self, freed: Freed)
        ensures { (p : ℕ) → held_at p self.new ≡ kept freed (held_at p self.old) }
    {
        match freed {
            Freed::Nothing => {}
            Freed::Pair(pair) => {
                if let Some(Some(_)) = self.table.get(usize::from(pair)) {
                    self.release(pair);
                }
            }
            Freed::Granted(pairs) => {
                let mut left = pairs.bits() & !self.free;
                while let Some(pair) = lowest(left) {
                    left &= !(1 << pair);
                    self.free_pair(pair, freed);
                }
            }
        }
    }

    /// How many pairs are held.
    pub fn held(&self) -> usize
        ensures { result ≡ held_count self.now }
    {
        PAIRS - self.free.count_ones() as usize
    }

    /// Writes who holds a pair.
    fn hold(&mut self, held: Held)
        requires { held.pair < PAIRS }
        ensures { (p : ℕ) → held_at p self.new ≡ (if p == held.pair then Some held else held_at p self.old) }
    {
        self.table[usize::from(held.pair)] = Some(held);
        self.free &= !(1 << held.pair);
    }

    /// Frees a pair where what a reply frees has it.
    fn free_pair(&mut self, pair: u8, freed: Freed)
        requires { pair < PAIRS }
        ensures { (p : ℕ)
            → held_at p self.new
            ≡ (if p == pair then kept freed (held_at p self.old) else held_at p self.old) }
    {
        if let Some(held) = self.table[usize::from(pair)] {
            if freed.frees(held) {
                self.release(pair);
            }
        }
    }
}

/// The lowest pair of those whose bits are set.
fn lowest(free: u128) -> Option<u8>
    ensures { (is : ℕ → Bool) → HasBitWhere free is → result ≡ lowest_free is }
{
    if free == 0 {
        None
    } else {
        Some(free.trailing_zeros() as u8)
    }
}

/// The first place of a table that is free once what a reply frees is freed.
fn first_free(table: &[Option<Held>], freed: Freed) -> Option<usize>
    ensures first { result
        ≡ first_free (length table.now) 0 (λ p. is_free (kept freed (held_at p table.now))) }
    ensures within { IfSome result (λ place. place < length table.now) }
{
    for (place, held) in table.iter().enumerate() {
        if freed.leaves_free(*held) {
            return Some(place);
        }
    }
    None
}
