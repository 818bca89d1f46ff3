//! The two halves of a link, and how they work together: what comes in by it is put into a port, and what goes out by it is taken
//! of one.
//!
//! A [`Reader`] cuts the bytes of an inlet into items and puts these: the first of them, each once, in order, and nothing else.
//! Laws say that this is so however the bytes were cut and however often the port was full. A [`Writer`] keeps that what its
//! outlet was given, with what it holds behind it, is the bytes of the parcels that it took, or, where the outlet failed, that it
//! is a front of them. A writer is handed to the thread that runs it at a [`WriterDesk`], and comes back there: a reader ends
//! where it has. Nothing here knows what becomes of what was put.
#![tactic(auto)]

mod answers;
mod crew;
mod desk;
mod ends;
mod gather;
mod laws;
mod link_read;
mod next;
mod place;
mod put;
mod reader;
mod turn;
mod writer;
mod writer_return;

pub use answers::{Push, Read};
pub use crew::{Crew, ReadBuffer};
pub use desk::WriterDesk;
pub use gather::{BUFFER_SIZE, Gather, MOST_HELD, WRITE_SIZE};
pub use laws::{
    what_was_put_begins_the_items, what_was_put_begins_the_items_after_want_of_memory,
    what_was_put_begins_the_items_given,
};
pub use link_read::{ReadEnd, read_once};
pub use put::{Put, put_some};
pub use reader::Reader;
pub use turn::{MOST_PARCELS, WriterTurn};
pub use writer::Writer;
pub use writer_return::collect;
