//! Messages of RTSP 1.0 (RFC 2326): a player's requests are read, or refused by the first rule that
//! applies, and replies to it are written.
#![tactic(auto)]

mod law;
mod refusal;
mod reply;
mod request;
mod rule;

pub use law::{replies_in_a_row, written_replies};
pub use refusal::{Refusal, RequestFault};
pub use reply::{Reply1, begin_reply, write_reply};
pub use request::{Request1, read_request};
