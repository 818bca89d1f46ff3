//! What a request and its reply bring to a session.

use gate_bytes::Text;
use session_one::Track;

/// What a request and its reply bring to a session.
#[derive(Drop)]
pub(crate) struct BroughtParts {
    /// The number with which the request went up.
    pub number: u32,
    /// The URI that stands for what the session is about then.
    pub control: Option<Text>,
    /// The id of a session that the server made.
    pub id: Option<Text>,
    /// The stream that a SETUP sets up.
    pub track: Option<Track>,
}
