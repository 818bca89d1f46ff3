//! The parts of a plan, and what is handed out once it is carried out.

use crate::why::CloseWhy;
use client_slot::{MadeSession, Waiting, WaitingPlay};
use gate_bytes::Text;
use session_one::{Asked, Track};
use session_two::Names;
use std::collections::LinkedList;

/// What an event by itself does to a connection.
#[derive(Drop)]
pub(crate) enum Change {
    /// Nothing.
    Nothing,
    /// A request waits.
    Waits(Waiting),
    /// The open request has its final reply, with this code and the session that the server made, where
    /// it made one.
    Settles(u16, Option<MadeSession>),
    /// The end of what plays was told of the session at a place.
    Ends(Option<u8>, Names),
    /// The connection closes.
    Closes(CloseWhy),
}

/// What goes up then.
#[derive(Drop)]
pub(crate) enum Up {
    /// Nothing.
    Nothing,
    /// The PLAY that is due, with this text.
    Due(Text),
    /// The closing TEARDOWN. Its text is written in memory that was taken before.
    Leave,
    /// A request of the player with this text. A SETUP comes with the stream that it sets up.
    Ask(Text, Asked, Option<Track>),
}

/// What an event will do to a connection. All memory for it is taken.
#[derive(Drop)]
pub struct PlannedStep {
    pub(crate) change: Change,
    pub(crate) treated: usize,
    pub(crate) plays: LinkedList<WaitingPlay>,
    pub(crate) hand: Text,
    pub(crate) up: Up,
}

/// What an event did, beside what it changed of its connection.
#[derive(Drop)]
pub struct Done {
    /// The bytes for the connection's client.
    pub hand: Text,
    /// The text of the request that goes up.
    pub request: Option<Text>,
    /// Why the connection was closed, where it was.
    pub close: Option<CloseWhy>,
}
