//! The books of the one connection to the server: which player's connection asked each open
//! request, and which one each session belongs to.
//!
//! What a book may have to take memory for is taken by `room`, so that nothing else here can be
//! refused for want of it.
#![tactic(auto)]

mod cseq;
mod entry;
mod session;

pub use cseq::{CseqBook, LAST_NUMBER, Spent};
pub use session::{BoundElsewhere, SessionBook};
