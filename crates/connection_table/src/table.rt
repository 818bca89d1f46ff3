//! The connections, in a slab, each under its number.
ghost use Rattle.std.specs.Prelude.{◌≡◌, ◌≢◌, ◌==◌, ℕ, true, false, None, Some, OnOk, OnErr, IfSome, IsOk, is_some, IsSome, if◌then◌else◌, option_map};
ghost use Rattle.slab.specs.Slab.{get as slab_get};
ghost use Rattle.client_slot.specs.Client.{new_client};
ghost use Rattle.client_machine.specs.Plans.{IsReady, IsShortPlan, IsShortDone};
ghost use Rattle.connection_table.specs.CarryOut.{IsCarriedAt};
ghost use Rattle.connection_table.specs.Over.{is_over};
ghost use Rattle.connection_table.specs.Directories.{key_of, HasPlace};

use crate::Directory;
use client_machine::{Done, PlannedStep};
use client_slot::Slot;
use gate_bytes::Memory;
use slab::Slab;
use std::alloc::Global;

/// A connection where it is kept. A plan for it tells the key, so its number is not searched for again when the plan is carried out.
#[derive(Clone, Copy)]
pub struct KeyedSlot<'a> {
    /// The key of its slot.
    pub key: usize,
    /// What is kept of it.
    pub slot: &'a Slot,
}

/// The connections that entered and are not over. Spare is the key of a slot for the next one, where
/// that was made.
#[derive(Drop)]
pub struct ConnectionTable {
    directory: Directory,
    slots: Slab<Slot>,
    spare: Option<usize>,
    ghost held: { (i k : ℕ) → key_of directory i ≡ Some k → is_some (slab_get slots k) ≡ true },
    ghost apart: { (i j k : ℕ) → key_of directory i ≡ Some k → key_of directory j ≡ Some k → i ≡ j },
    ghost place: { IsSome spare → HasPlace directory },
    ghost fresh: { (k : ℕ) → spare ≡ Some k → slab_get slots k ≡ Some new_client },
    ghost alone: { (i k : ℕ) → spare ≡ Some k → key_of directory i ≢ Some k },
}

impl ConnectionTable {
    ghost use Rattle.connection_table.specs.Over.{unless_over};
    ghost use Rattle.connection_table.specs.Tables.{client_at, is_ready, under_key, IsKeyOf, IsSeatAt, IsNextSeat};

    /// No connection. It takes no memory.
    pub fn new(alloc: Global) -> ConnectionTable
        ensures none { (i : ℕ) → client_at result i ≡ None }
        ensures ready { is_ready result ≡ false }
    {
        ConnectionTable {
            directory: Directory::new(alloc),
            slots: Slab::new(alloc),
            spare: None,
        }
    }

    /// Where a connection is kept; nothing where it never entered or is over.
    pub fn seat(&self, conn: u32) -> Option<KeyedSlot<'_>>
        ensures { IsSeatAt self.now conn result }
    {
        self.seat_at(self.directory.key(conn)?)
    }

    /// What is kept under a key, and the key: where the connection is kept that has it. Its number is not searched for.
    pub fn seat_at(&self, key: usize) -> Option<KeyedSlot<'_>>
        ensures seat { (conn : ℕ) → IsKeyOf self.now conn key → IsSeatAt self.now conn result }
        ensures none { result ≡ None → under_key self.now key ≡ None }
    {
        let slot = self.slots.get(key)?;
        Some(KeyedSlot { key, slot })
    }

    /// What is kept under a key.
    pub fn at(&self, key: usize) -> Option<&Slot>
        ensures { option_map (λ slot. slot.now) result ≡ under_key self.now key }
    {
        self.slots.get(key)
    }

    /// What is kept of a connection; nothing where it never entered or is over.
    pub fn slot(&self, conn: u32) -> Option<&Slot>
        ensures { option_map (λ slot. slot.now) result ≡ client_at self.now conn }
    {
        Some(self.seat(conn)?.slot)
    }

    /// The first number from this one on of a connection that is kept.
    pub fn next(&self, from: u32) -> Option<u32>
        ensures next { IsNextSeat self.now from result }
        ensures kept { IfSome result (λ conn. is_some (client_at self.now conn) ≡ true) }
    {
        self.directory.next(from)
    }

    /// Whether the next connection can enter without memory.
    pub fn is_ready(&self) -> bool
        ensures { result ≡ is_ready self.now }
    {
        self.spare.is_some()
    }

    /// Takes the memory for one connection more. Where it is wanting, the connections stay, and the answer is [`Memory`].
    pub fn prepare(&mut self, alloc: Global) -> Result<(), Memory>
        ensures clients { (i : ℕ) → client_at self.new i ≡ client_at self.old i }
        ensures ready { OnOk result (is_ready self.new ≡ true) }
        ensures free { is_ready self.old ≡ true → IsOk result }
        ensures err { OnErr result (is_ready self.new ≡ is_ready self.old) }
    {
        if self.spare.is_some() {
            return Ok(());
        }
        self.directory.reserve()?;
        let key = self.slots.insert(Slot::new(alloc)?)?;
        self.spare = Some(key);
        Ok(())
    }

    /// Adds a connection. It takes no memory.
    pub fn enter(&mut self, conn: u32)
        requires ready { is_ready self.old ≡ true }
        requires new { client_at self.old conn ≡ None }
        ensures clients { (i : ℕ)
            → client_at self.new i ≡ (if conn == i then Some new_client else client_at self.old i) }
        ensures ready { is_ready self.new ≡ false }
    {
        let Some(key) = self.spare.take() else {
            unreachable!();
        };
        self.directory.add(conn, key);
    }

    /// Forgets a connection where it is over: nothing can come of its events any more. It takes no
    /// memory.
    pub fn forget(&mut self, conn: u32, key: usize)
        requires { IsKeyOf self.old conn key }
        ensures others { (i : ℕ) → conn ≢ i → client_at self.new i ≡ client_at self.old i }
        ensures here { client_at self.new conn ≡ unless_over (client_at self.old conn) }
        ensures ready { is_ready self.new ≡ is_ready self.old }
    {
        let Some(slot) = self.slots.get(key) else {
            return;
        };
        if is_over(slot) {
            self.directory.remove(conn);
            empty_at(&mut self.slots, key);
        }
    }

    /// Carries out a plan for a connection, which is kept under this key, by the numbers of its open
    /// request and of the next one. What it hands out is moved out of the plan, which is not to be used again.
    #[inline(always)]
    pub fn commit(
        &mut self,
        alloc: Global,
        conn: u32,
        key: usize,
        plan: &mut PlannedStep,
        number: u32,
        next: u32,
    ) -> Option<Done>
        requires key { IsKeyOf self.old conn key }
        requires ready { IfSome (client_at self.old conn) (λ client. IsReady client plan.old) }
        ensures others { (i : ℕ) → conn ≢ i → client_at self.new i ≡ client_at self.old i }
        ensures key { IsKeyOf self.new conn key }
        ensures none { client_at self.old conn ≡ None → (result ≡ None) }
        ensures here { IsSome (client_at self.old conn)
            → IfSome result (λ done.
            IsCarriedAt (client_at self.old conn) (client_at self.new conn) plan.old number next done) }
        ensures some { IsSome (client_at self.old conn) → IsSome result }
        ensures short { IsShortPlan plan.old → IfSome result IsShortDone }
        ensures ready { is_ready self.new ≡ is_ready self.old }
    {
        commit_at(alloc, &mut self.slots, key, plan, number, next)
    }
}

/// Whether a connection is over: it was closed, has no request open, and no session that a TEARDOWN
/// would go up for.
fn is_over(slot: &Slot) -> bool
    ensures { result ≡ is_over slot.now }
{
    !slot.alive() && !slot.busy() && slot.closing_place().is_none()
}

/// Nothing is kept under a key any longer.
fn empty_at(slots: &mut Slab<Slot>, key: usize)
    ensures here { slab_get slots.new key ≡ None }
    ensures others { (other : ℕ) → other ≢ key → slab_get slots.new other ≡ slab_get slots.old other }
{
    drop(slots.try_remove(key));
}

/// Carries out a plan for the connection at a key.
fn commit_at(
    alloc: Global,
    slots: &mut Slab<Slot>,
    key: usize,
    plan: &mut PlannedStep,
    number: u32,
    next: u32,
) -> Option<Done>
    requires { IfSome (slab_get slots.old key) (λ client. IsReady client plan.old) }
    ensures here { IsSome (slab_get slots.old key)
        → IfSome result (λ done.
        IsCarriedAt (slab_get slots.old key) (slab_get slots.new key) plan.old number next done) }
    ensures some { IsSome (slab_get slots.old key) → IsSome result }
    ensures none { slab_get slots.old key ≡ None → (result ≡ None) }
    ensures short { IsShortPlan plan.old → IfSome result IsShortDone }
    ensures others { (other : ℕ) → other ≢ key → slab_get slots.new other ≡ slab_get slots.old other }
    ensures held { (other : ℕ) → is_some (slab_get slots.old other) ≡ true
        → is_some (slab_get slots.new other) ≡ true }
{
    let slot = slots.get_mut(key)?;
    Some(plan.commit(alloc, slot, number, next))
}
