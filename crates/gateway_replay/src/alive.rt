//! The connections that are alive.
ghost use Rattle.std.specs.Prelude.{◌≡◌, ◌==◌, ◌<◌, ◌&&◌, ◌||◌, ℕ, false, not, OnOk, OnErr, IfSome, IfNone};

use gate_bytes::Memory;
use std::alloc::Global;
use std::collections::BTreeSet;

/// The numbers of the connections that are alive.
#[derive(Drop)]
pub struct Living {
    numbers: BTreeSet<u32>,
}

impl Living {
    ghost use Rattle.gateway_replay.specs.Alive.{lives, IsFirstLiving, how_many_live};

    /// No connection. It takes no memory.
    pub fn new(alloc: Global) -> Living
        ensures { (i : ℕ) → lives result i ≡ false }
    {
        Living {
            numbers: BTreeSet::new(alloc),
        }
    }

    /// A connection is alive from now on.
    pub fn add(&mut self, conn: u32) -> Result<(), Memory>
        ensures ok { OnOk result ((i : ℕ) → lives self.new i ≡ (conn == i || lives self.old i)) }
        ensures err { OnErr result ((i : ℕ) → lives self.new i ≡ lives self.old i) }
    {
        self.numbers.insert(conn)?;
        Ok(())
    }

    /// A connection is not alive from now on.
    pub fn remove(&mut self, conn: u32)
        ensures { (i : ℕ) → lives self.new i ≡ (not (conn == i) && lives self.old i) }
    {
        self.numbers.remove(&conn);
    }

    /// Takes the one with the lowest number, where any is alive.
    pub fn take_first(&mut self) -> Option<u32>
        ensures first { IfSome result (IsFirstLiving self.old) }
        ensures taken { IfSome result (λ conn.
            (i : ℕ) → lives self.new i ≡ (not (conn == i) && lives self.old i)) }
        ensures fewer { IfSome result (λ conn. how_many_live self.new < how_many_live self.old) }
        ensures none { IfNone result ((i : ℕ) → lives self.old i ≡ false) }
        ensures kept { IfNone result ((i : ℕ) → lives self.new i ≡ lives self.old i) }
    {
        self.numbers.pop_first()
    }
}
