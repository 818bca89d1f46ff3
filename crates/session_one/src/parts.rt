//! Streams that are set up, PLAYs that wait, and requests whose reply is awaited.
ghost use Rattle.std.specs.Prelude.{◌≡◌, IfOk};

use gate_bytes::{Memory, Text};
use rtsp_range::Range;
use rtsp_small::Method;
use rtsp_transport::Pair;
use std::alloc::Global;

/// The most streams of a session (this project's own).
pub const MOST_TRACKS: usize = 8;

/// The most sessions of a connection (this project's own).
pub const MOST_SESSIONS: usize = 4;

/// A stream that a player has set up.
#[derive(Drop)]
pub struct Track {
    /// Its URI, as it was sent up.
    pub uri: Text,
    /// The channels on the player's connection.
    pub client: Pair,
    /// The number of the pair of channels on the server's connection.
    pub pair: u8,
}

impl Track {
    /// The same stream once more.
    pub fn try_clone(&self, alloc: Global) -> Result<Track, Memory>
        ensures { IfOk result (λ copy. copy ≡ self.now) }
    {
        Ok(Track {
            uri: Text::copy(alloc, self.uri.as_bytes())?,
            client: self.client,
            pair: self.pair,
        })
    }
}

/// A PLAY that waits until the PLAY before it has ended (RFC 2326, 10.5).
#[derive(Drop)]
pub struct Play {
    /// Its URI, as it will be sent up.
    pub uri: Text,
    /// The range that the player asks for.
    pub range: Range,
    /// The scale, where the player asks for one.
    pub scale: Option<Text>,
    /// The place of its session, from 0 on. One that waits has one.
    pub place: Option<u8>,
}

/// What the gateway keeps of a player's request until the server's reply comes.
#[derive(Drop)]
pub struct Asked {
    /// The method of the player's request.
    pub method: Method,
    /// Its number.
    pub cseq: u64,
    /// Whether it named a session.
    pub named: bool,
    /// The URI that was sent up.
    pub uri: Text,
    /// The place of the session that it named, from 0 on.
    pub place: Option<u8>,
}
