//! What an event does.

use crate::turn::PlannedTurn;
use client_machine::CloseWhy;
use gate_bytes::Text;
use gateway_claim::UpCause;

/// Where a frame of the server goes.
#[derive(Clone, Copy)]
pub(crate) struct FramePath {
    /// The connection.
    pub conn: u32,
    /// The channel of its player.
    pub channel: u8,
}

/// The close of a connection.
#[derive(Clone, Copy)]
pub(crate) struct PlannedClose {
    /// The connection.
    pub conn: u32,
    /// The key under which it is kept.
    pub key: usize,
    /// Why it closes.
    pub why: CloseWhy,
}

/// What an event will do to a multiplexer while the connection to the server stands; after that it
/// does nothing. All memory for it is taken.
#[derive(Drop)]
pub(crate) enum Act {
    /// Nothing.
    Nothing,
    /// A frame of a player goes up, on this channel of the server's connection.
    Rises(u8),
    /// A frame of the server goes to a player.
    Falls(FramePath),
    /// The server is answered, and no connection has its turn.
    Answers(Text),
    /// A connection has its turn, once the server is answered, where it asked.
    Turns(Option<Text>, Box<PlannedTurn>),
    /// A connection closes. Its turn is planned when this is carried out, so that no memory is taken for that.
    Closes(PlannedClose),
    /// The connection to the server ends.
    Ends(UpCause),
}
