//! The connections of a gateway, each kept under its number.
//!
//! A [`ConnectionTable`] keeps the slot of each connection that entered and is not over. Room for the next one is made before it
//! enters, so that entering takes no memory, and one that is over is forgotten, so that nothing is left of it. The numbers stand
//! in a [`Directory`], each with the key of its slot: they may come and go in any order, and a look-up halves them.
#![tactic(auto)]

mod directory;
mod table;

pub use directory::Directory;
pub use table::{ConnectionTable, KeyedSlot};
