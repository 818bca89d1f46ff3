//! Rising numbers, and a key beside each.
ghost use Rattle.std.specs.Prelude.{◌≡◌, ◌==◌, ℕ, length, true, None, Some, IfSome, OnOk, is_some, if◌then◌else◌};
ghost use Rattle.connection_table.specs.RisingNumbers.{IsRising};

use gate_bytes::Memory;
use std::alloc::Global;

/// The numbers of the connections that are kept, rising, and the key under which each is kept.
#[derive(Drop)]
pub struct Directory {
    numbers: Vec<u32>,
    keys: Vec<usize>,
    ghost rising: { IsRising numbers.items },
    ghost paired: { length keys.items ≡ length numbers.items },
}

impl Directory {
    ghost use Rattle.connection_table.specs.Directories.{key_of, IsNextNumber, HasPlace};

    /// No number. It takes no memory.
    pub fn new(alloc: Global) -> Directory
        ensures { (i : ℕ) → key_of result i ≡ None }
    {
        Directory {
            numbers: Vec::new(alloc),
            keys: Vec::new(alloc),
        }
    }

    /// The key of a number; nothing where it isn't there.
    pub fn key(&self, conn: u32) -> Option<usize>
        ensures { result ≡ key_of self.now conn }
    {
        match self.numbers.binary_search(&conn) {
            Ok(place) => Some(self.keys[place]),
            Err(_) => None,
        }
    }

    /// The first number from this one on that is there.
    pub fn next(&self, from: u32) -> Option<u32>
        ensures next { IsNextNumber self.now from result }
        ensures entered { IfSome result (λ conn. is_some (key_of self.now conn) ≡ true) }
    {
        let Err(place) = self.numbers.binary_search(&from) else {
            return Some(from);
        };
        if place < self.numbers.len() {
            Some(self.numbers[place])
        } else {
            None
        }
    }

    /// Makes place for one number more. Where memory is wanting, the numbers stay, and the answer is [`Memory`].
    pub fn reserve(&mut self) -> Result<(), Memory>
        ensures keys { (i : ℕ) → key_of self.new i ≡ key_of self.old i }
        ensures place { OnOk result (HasPlace self.new) }
    {
        self.numbers.reserve(1)?;
        self.keys.reserve(1)?;
        Ok(())
    }

    /// Adds a number with its key, where it has a place. It takes no memory.
    pub fn add(&mut self, conn: u32, key: usize)
        requires place { HasPlace self.old }
        requires new { key_of self.old conn ≡ None }
        ensures { (i : ℕ) → key_of self.new i ≡ (if conn == i then Some key else key_of self.old i) }
    {
        let Err(place) = self.numbers.binary_search(&conn) else {
            unreachable!();
        };
        let Ok(()) = self.numbers.insert(place, conn) else {
            unreachable!();
        };
        let Ok(()) = self.keys.insert(place, key) else {
            unreachable!();
        };
    }

    /// Takes a number out, with its key. It takes no memory, and gives none back.
    pub fn remove(&mut self, conn: u32)
        ensures keys { (i : ℕ) → key_of self.new i ≡ (if conn == i then None else key_of self.old i) }
        ensures place { HasPlace self.old → HasPlace self.new }
    {
        if let Ok(place) = self.numbers.binary_search(&conn) {
            self.numbers.remove(place);
            self.keys.remove(place);
        }
    }
}
