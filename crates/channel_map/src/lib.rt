//! The pairs of channels of the one connection to the server, which all players share.
//!
//! Pair p has the channels 2p and 2p + 1 (RFC 7826, 14). A pair is reserved for a connection while
//! its SETUP is open, and granted with the server's success. Nothing here takes memory.
#![tactic(auto)]

mod map;
mod pair_set;

pub use map::{ChannelMap, Freed, Held, PAIRS};
pub use pair_set::PairSet;
