//! The field RTP-Info: read as RTSP 2.0 spells it (RFC 7826, 18.45), and written as RTSP 1.0 does
//! (RFC 2326, 12.33).
#![tactic(auto)]

mod entry;
mod fault;
mod group;
mod info;
mod parameter;
mod part;
mod read;
mod spec;
mod write;

pub use entry::InfoEntry;
pub use fault::InfoFault;
pub use group::LABEL_DIGITS;
pub use info::Info;
pub use parameter::{LAST_RTPTIME, LAST_SEQ, RTPTIME_DIGITS, SEQ_DIGITS};
pub use read::read_two;
pub use write::{USUAL_FIELD, push_entry, write_one};
