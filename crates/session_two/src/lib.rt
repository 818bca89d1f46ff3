//! The PLAY of a session that runs at the server, and which end of stream counts (RFC 7826, 13.5).
//!
//! Nothing here takes memory.
#![tactic(auto)]

mod names;
mod running_play;

pub use names::Names;
pub use running_play::Running;
