//! What a reply is written for.

use rtsp_transport::Pair;
use rtsp_uri::Bases;

/// What a reply is written for: the addresses of the two sides, what the player's session is, and
/// what the server grants it.
#[derive(Clone, Copy)]
pub struct Context<'a> {
    /// The addresses of the two sides.
    pub bases: &'a Bases,
    /// The id of the player's session, where it has one.
    pub session: Option<&'a [u8]>,
    /// The channels that the player gets with SETUP.
    pub client: Option<&'a Pair>,
    /// The source of the packets, where the server tells it with SETUP.
    pub ssrc: Option<u32>,
    /// After how many seconds without a request the session may be closed, where the server tells it
    /// with SETUP.
    pub timeout: Option<u64>,
}
