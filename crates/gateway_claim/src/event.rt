//! What comes in, and what is handed out for it.

use client_machine::CloseWhy;
use gate_bytes::Text;
use gate_transcript::UpWhy;
use rtsp_head::{BadKind, Item};

/// What can happen to a gateway, but for a connection that enters.
#[derive(Drop)]
pub enum Event {
    /// A whole item of the client with this number came.
    Client(u32, Item),
    /// A whole item of the server came.
    Up(Item),
    /// The client with this number ended its connection.
    End(u32),
    /// The client with this number took its bytes too slowly.
    Slow(u32),
    /// The connection to the server ended.
    UpEnd(UpWhy),
}

/// Which connections an event closed.
#[derive(Clone, Copy, Debug, PartialEq, Eq)]
pub enum Closed {
    /// None.
    Nobody,
    /// The connection with this number.
    One(u32, CloseWhy),
    /// Each connection that was alive, since the connection to the server ended.
    All,
}

/// Why an item of the server can't be taken.
#[derive(Clone, Copy, Debug, PartialEq, Eq)]
pub enum FramingFault {
    /// It can't be read.
    Bad(BadKind),
    /// It is a message of another version than RTSP/2.0.
    Version,
    /// It is a message without a number that can be read.
    Cseq,
}

/// Why the connection to the server ended.
#[derive(Clone, Copy, Debug, PartialEq, Eq)]
pub enum UpCause {
    /// An item of the server can't be taken.
    Framing(FramingFault),
    /// A reply of the server has this number, and no open request has it.
    UnknownReply(u32),
    /// The success of the SETUP with this number grants other channels than were asked for, or names
    /// no session, or another one than that of the SETUP.
    BadGrant(u32),
    /// The success of the SETUP with this number names the session of another connection.
    SessionTaken(u32),
    /// All numbers of requests were used.
    CseqSpent,
    /// The server took its bytes too slowly.
    UpFull,
    /// The server ended it.
    Ended,
    /// Reading from it failed.
    ReadFault,
    /// Writing to it failed.
    WriteFault,
}

/// Bytes that are handed to one client.
#[derive(Drop)]
pub struct ToClient {
    /// The number of its connection.
    pub conn: u32,
    /// The bytes.
    pub bytes: Text,
}

/// A message of a player, as the server is handed it.
#[derive(Drop)]
pub enum UpMessage {
    /// A request.
    Request(Text),
    /// A frame of media.
    Frame(Text),
}

/// All that one event hands to the server: the answer to its own request, and then the message of a
/// player.
#[derive(Drop)]
pub struct ToUp {
    /// The answer.
    pub answer: Option<Text>,
    /// The message.
    pub message: Option<UpMessage>,
}

/// All that one event hands out.
#[derive(Drop)]
pub struct Outcome {
    /// Bytes that are handed to one client.
    pub to_client: Option<ToClient>,
    /// What is handed to the server.
    pub to_up: ToUp,
    /// Which connections are closed.
    pub closed: Closed,
    /// Why the connection to the server ended, at the event that ended it.
    pub fault: Option<UpCause>,
}
