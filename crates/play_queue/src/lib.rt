//! The PLAYs of one session that wait until what plays has ended (RFC 2326, 10.5): eight at most.
//!
//! Room for all of them is made at once, so that nothing but `new` takes memory.
#![tactic(auto)]

mod queue;

pub use queue::{MOST_PLAYS, PlayQueue};
