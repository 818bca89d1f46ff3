//! Owned lists.
ghost use Rattle.std.specs.Prelude.{◌≡◌, ◌<◌, ◌↔◌, [], ◌∷◌, ◌++◌, length, slice_get, Some, IsTrue, IfErr, OnOk, OnErr};

use crate::Memory;
use std::alloc::Global;
use std::marker::Model;

/// An owned list of items of one type. Contracts see it as the list of its items.
#[derive(Drop)]
pub struct OwnedList<T> {
    items: Vec<T>,
}

impl<T> Model for OwnedList<T> {
    ghost use Rattle.std.specs.Prelude.{List};

    ghost Value = { List T };

    ghost view = { λ list. list.items.items };
}

impl<T: Drop> OwnedList<T> {
    /// The empty list. It takes no memory.
    pub fn new(alloc: Global) -> OwnedList<T>
        ensures { result ≡ [] }
    {
        OwnedList {
            items: Vec::new(alloc),
        }
    }

    /// The number of items.
    pub fn len(&self) -> usize
        ensures { result ≡ length self.now }
    {
        self.items.len()
    }

    /// Whether there is no item.
    pub fn is_empty(&self) -> bool
        ensures { IsTrue result ↔ (self.now ≡ []) }
    {
        self.items.is_empty()
    }

    /// The item at a place, counted from 0.
    pub fn at(&self, place: usize) -> &T
        requires { place < length self.now }
        ensures { slice_get self.now place ≡ Some result.now }
    {
        &self.items[place]
    }

    /// The items, in their order.
    pub fn as_slice(&self) -> &[T]
        ensures { result.now ≡ self.now }
    {
        self.items.as_slice()
    }

    /// The items, in the memory that they have.
    pub fn into_vec(self) -> Vec<T>
        ensures { result.items ≡ self }
    {
        self.items
    }

    /// Appends an item. Where memory is wanting the item comes back.
    pub fn push(&mut self, item: T) -> Result<(), (T, Memory)>
        ensures ok { OnOk result (self.new ≡ self.old ++ item ∷ []) }
        ensures err { IfErr result (λ refused. refused.0 ≡ item) }
        ensures same { OnErr result (self.new ≡ self.old) }
    {
        match self.items.push(item) {
            Ok(()) => Ok(()),
            Err(refused) => Err((refused.value, Memory)),
        }
    }
}
