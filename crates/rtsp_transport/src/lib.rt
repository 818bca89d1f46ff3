//! The field Transport, of both versions (RFC 2326, 12.39; RFC 7826, 18.54): what a player offers,
//! what the server grants, and how the gateway writes either.
//!
//! The readers take no memory. `specs/` defines what they answer.
#![tactic(auto)]

mod alternative;
mod channels;
mod fault;
mod grant;
mod parameters;
mod split;
mod ssrc;
mod write;

pub use alternative::{Wanted, pick};
pub use channels::{CHANNEL_DIGITS, LAST_CHANNEL, Pair};
pub use fault::TransportFault;
pub use grant::{Grant, read_grant};
pub use ssrc::SSRC_DIGITS;
pub use write::{write_one, write_two};
