//! What happens to a connection.

use head_two::Reply2;
use rtsp_head::Item;
use rtsp_small::NotifyReason;
use session_two::Names;

/// A reply of the server.
#[derive(Clone, Copy)]
pub struct ServerReply<'a> {
    /// The reply.
    pub reply: &'a Reply2<'a>,
    /// The source of RTP packets that its Transport names, where that names one.
    pub source: Option<u32>,
}

/// What happens to a connection, in the numbers of the server's one connection.
#[derive(Clone, Copy)]
pub enum Incoming<'a> {
    /// Its client sent a request.
    Request(&'a Item),
    /// The server replied to its open request.
    Reply(ServerReply<'a>),
    /// The server told about the session with this id, and named one of its requests or none.
    Notice(&'a [u8], NotifyReason, Names),
}
