//! Framing: the items of a stream, however it is cut into pieces.
//!
//! A [`Framer`] is fed the pieces of a stream and gives its items in order. Which items a stream
//! has is defined apart from it, and the laws here say of that definition that it is the one
//! reading of the stream, and that what comes later changes none of the items before.
#![tactic(auto)]

mod cut_items;
mod extent;
mod framer;
mod held_head;
mod item_front;
mod law;
mod message;
mod rest;

pub use framer::Framer;
pub use law::{computed_items, longer_streams, one_reading, one_spelling, whole_items};
pub use rtsp_head::{BadKind, Item, ItemKind};
