//! A set of connections.
ghost use Rattle.std.specs.Prelude.{◌≡◌, ◌<◌, ℕ, ◌==◌, ◌||◌, false, List, get_or, OnOk, OnErr};

use gate_bytes::Memory;
use std::alloc::Global;
use std::collections::HashSet;

/// How many numbers stand in a table, which has a byte for each up to the greatest that entered (this project's own).
const LOW_NUMBERS: usize = 4_096;

/// The connections that have entered.
#[derive(Drop)]
pub struct EnteredNumbers {
    low: Vec<bool>,
    numbers: HashSet<u32>,
}

impl EnteredNumbers {
    ghost use Rattle.gate_transcript.specs.Connections.{has};
    ghost use Rattle.std.specs.Prelude.{nat_eq};
    ghost use Rattle.std.specs.HashSet.{contains};

    /// No connection. It takes no memory.
    pub fn new(alloc: Global) -> EnteredNumbers
        ensures { (conn : ℕ) → has result conn ≡ false }
    {
        EnteredNumbers {
            low: Vec::new(alloc),
            numbers: HashSet::new(alloc),
        }
    }

    /// Whether the connection has entered.
    #[inline(always)]
    pub fn has(&self, conn: u32) -> bool
        ensures { result ≡ has self.now conn }
    {
        self.is_low(conn) || self.is_high(conn)
    }

    /// Whether the table has it.
    #[inline(always)]
    fn is_low(&self, conn: u32) -> bool
        ensures { result ≡ get_or self.now.low.items conn false }
    {
        match self.low.get(conn as usize) {
            Some(entered) => *entered,
            None => false,
        }
    }

    /// Whether it is among those that stand in no table. It is not inlined, since few do.
    #[inline(never)]
    fn is_high(&self, conn: u32) -> bool
        ensures { result ≡ contains nat_eq self.now.numbers conn }
    {
        self.numbers.contains(&conn)
    }

    /// Lets a connection enter.
    pub fn insert(&mut self, conn: u32) -> Result<(), Memory>
        ensures ok { OnOk result ((other : ℕ) → has self.new other ≡ (conn == other || has self.old other)) }
        ensures err { OnErr result ((other : ℕ) → has self.new other ≡ has self.old other) }
    {
        let place = conn as usize;
        if place < LOW_NUMBERS {
            return insert_low(&mut self.low, place);
        }
        self.numbers.insert(conn)?;
        Ok(())
    }
}

/// Marks a place of a table, which grows to hold it.
fn insert_low(low: &mut Vec<bool>, place: usize) -> Result<(), Memory>
    requires { place < LOW_NUMBERS }
    ensures ok { OnOk result ((other : ℕ) →
        get_or low.new.items other false ≡ (place == other || get_or low.old.items other false)) }
    ensures err { OnErr result (low.new.items ≡ low.old.items) }
{
    if low.len() <= place {
        low.resize(place + 1, false)?;
    }
    low[place] = true;
    Ok(())
}
