//! Replies of the server, of RTSP 2.0, as players get them in the words of RTSP 1.0: which headers
//! are told to which request, under the player's addresses and channels.
#![tactic(auto)]

mod content;
mod context;
mod info;
mod law;
mod line;
mod play;
mod reply;
mod session;

pub use context::Context;
pub use law::{each_header_is_told, only_told_fields_count, told_replies_are_read};
pub use reply::reply_one;
