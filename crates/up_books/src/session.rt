//! The sessions by their ids.
ghost use Rattle.std.specs.Prelude.{◌≡◌, ◌+◌, ◌<◌, ℕ, List, None, Some, Ok, Err, is_some, position, OnOk, OnErr, IfErr, if◌then◌else◌};
ghost use Rattle.std.specs.Str.{bytes_eq};
ghost use Rattle.up_books.specs.Entries.{IsGapFor};
ghost use Rattle.up_books.specs.Ids.{id_end, id_order};

use crate::entry::BookEntry;
use gate_bytes::{Memory, Text};
use std::alloc::Global;
use std::cmp::Ordering;
use std::marker::Model;

/// An id that can't be bound, since it is another connection's.
#[derive(Drop)]
pub struct BoundElsewhere {
    /// The id, given back.
    pub id: Text,
    /// The connection that it is bound to.
    pub owner: u32,
}

/// The sessions by their ids, which rise. Spare is the number of further sessions that need no memory.
#[derive(Drop)]
pub struct SessionBook {
    spare: usize,
    bound: Vec<BookEntry<Text>>,
}

impl Model for SessionBook {
    ghost use Rattle.up_books.specs.Ids.{Ids, IsIds};
    ghost use Rattle.std.specs.Prelude.{◌+◌, ◌≤◌, vec_len, vec_capacity};

    ghost Value = { Ids };

    ghost view = { λ book. record { spare = book.spare; bound = book.bound.items } };

    ghost invariant = { λ book. IsIds book.bound.items × (vec_len book.bound + book.spare ≤ vec_capacity book.bound) };
}

impl SessionBook {
    ghost use Rattle.up_books.specs.Ids.{holder_of, binding};
    ghost use Rattle.std.specs.Result.{result_ok};

    /// No id is bound. It takes no memory, and nothing is spare.
    pub fn new(alloc: Global) -> SessionBook
        ensures spare { result.spare ≡ 0 }
        ensures bound { (id : List ℕ) → holder_of result id ≡ None }
    {
        SessionBook {
            spare: 0,
            bound: Vec::new(alloc),
        }
    }

    /// Makes room for one session more.
    pub fn room(&mut self) -> Result<(), Memory>
        ensures ok { OnOk result (self.new ≡ record self.old { spare = self.old.spare + 1 }) }
        ensures err { OnErr result (self.new ≡ self.old) }
    {
        let spare = self.spare.checked_add(1).ok_or(Memory)?;
        self.bound.reserve(spare)?;
        self.spare = spare;
        Ok(())
    }

    /// Binds an id to a connection, where no connection has it. It takes no memory, and uses one
    /// that is spare.
    pub fn bind(&mut self, id: Text, conn: u32) -> Result<(), BoundElsewhere>
        requires { 0 < self.old.spare }
        ensures taken { result ≡ binding id (holder_of self.old id) }
        ensures spare { OnOk result (self.new.spare + 1 ≡ self.old.spare) }
        ensures bound { OnOk result
            ((other : List ℕ)
            → holder_of self.new other
            ≡ (if bytes_eq other id then Some conn else holder_of self.old other)) }
        ensures err { OnErr result (self.new ≡ self.old) }
    {
        match self.place(id.as_bytes()) {
            Ok(place) => {
                let owner = self.bound[place].conn;
                Err(BoundElsewhere { id, owner })
            }
            Err(place) => {
                let Ok(()) = self.bound.insert(place, BookEntry { key: id, conn }) else {
                    unreachable!();
                };
                self.spare -= 1;
                Ok(())
            }
        }
    }

    /// The connection that an id is bound to.
    pub fn owner(&self, id: &[u8]) -> Option<u32>
        ensures { result ≡ holder_of self.now id.now }
    {
        let place = self.place(id).ok()?;
        Some(self.bound[place].conn)
    }

    /// An id is bound no longer. Its place is spare again, where it was bound.
    pub fn free(&mut self, id: &[u8])
        ensures spare { self.new.spare
            ≡ (if is_some (holder_of self.old id.now) then self.old.spare + 1 else self.old.spare) }
        ensures bound { (other : List ℕ)
            → holder_of self.new other ≡ (if bytes_eq other id.now then None else holder_of self.old other) }
    {
        if let Ok(place) = self.place(id) {
            let BookEntry { key: _, conn: _ } = self.bound.remove(place);
            self.spare += 1;
        }
    }

    /// Where an id stands in the book; where it doesn't, where it would.
    fn place(&self, id: &[u8]) -> Result<usize, usize>
        ensures found { result_ok result ≡ position (λ entry. bytes_eq entry.key id.now) self.now.bound }
        ensures gap { IfErr result (λ place. IsGapFor id_order id.now place self.now.bound) }
    {
        self.bound.binary_search_by(|entry| compare(&entry.key, id))
    }
}

/// The order of a key to an id: by their ends, and then by all of their bytes. Two ids of one server
/// may begin alike and seldom end alike, and their ends are compared at once.
fn compare(key: &Text, id: &[u8]) -> Ordering
    ensures { result ≡ id_order key.now id.now }
{
    let key = key.as_bytes();
    match id_end(key).cmp(&id_end(id)) {
        Ordering::Equal => key.cmp(id),
        order => order,
    }
}

/// The last eight bytes of an id as one number; 0 where it has fewer.
fn id_end(id: &[u8]) -> u64
    ensures { result ≡ id_end id.now }
{
    match id.last_chunk::<8>() {
        Some(end) => u64::from_le_bytes(*end),
        None => 0,
    }
}
