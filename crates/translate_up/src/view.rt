//! What a request is judged by.
ghost use Rattle.std.specs.Prelude.{◌≤◌, length};
ghost use Rattle.session_one.specs.declared.parts.TheConstants.{MOST_SESSIONS};

use rtsp_uri::Bases;
use session_one::{State, Track};

/// A session of a player as a request finds it. What is lent to a request that goes up, which outlives the view, has a
/// lifetime of its own.
#[derive(Clone, Copy)]
pub struct SessionView<'s, 'a> {
    /// Its id.
    pub id: &'s [u8],
    /// Its state.
    pub state: State,
    /// Its streams, in the order in which they were set up.
    pub tracks: &'a [Track],
    /// How many PLAYs wait.
    pub queued: usize,
    /// The URI that stands for the whole of what it is about.
    pub control: &'s [u8],
}

/// A player's connection as it stands when one of its requests is treated, and what else the request
/// is judged by.
#[derive(Clone, Copy)]
pub struct View<'s, 'a> {
    /// The sessions, each at its place.
    pub sessions: &'a [Option<SessionView<'s, 'a>>],
    /// The URI that was described last, where one was.
    pub described: Option<&'s [u8]>,
    /// Whether all pairs of channels to the server are held.
    pub full: bool,
    /// What players call the gateway, and what the gateway calls the server.
    pub bases: &'s Bases,
    pub ghost few: { length sessions.now ≤ MOST_SESSIONS },
}
