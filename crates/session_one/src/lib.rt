//! A session that a player has with the gateway: its parts, and the table of its states (RFC 2326,
//! A.2).
//!
//! The table takes no memory.
#![tactic(auto)]

mod parts;
mod table;

pub use parts::{Asked, MOST_SESSIONS, MOST_TRACKS, Play, Track};
pub use table::{State, after, allowed, is_success};
