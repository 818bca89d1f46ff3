//! The tracks of the server's sessions.

use gate_bytes::Text;

/// What is added to the number of a session, so that it has one digit more than its id tells.
pub const ID_BASE: u64 = 10_000_000;

/// A track of a session.
#[derive(Drop)]
pub struct DrillTrack {
    /// The id of the session.
    pub session: Text,
    /// The channel of its media.
    pub channel: u8,
}
