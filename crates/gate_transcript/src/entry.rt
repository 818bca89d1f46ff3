//! An entry of a transcript: its kind, its connection and its body.
ghost use Rattle.std.specs.Prelude.{◌≡◌};
ghost use Rattle.gate_transcript.specs.Bodies.{end_reason_by, end_reason_in};

use gate_bytes::Text;

/// The kind byte of an entry at which a connection enters.
pub const ENTER_BYTE: u8 = b'O';

/// The kind byte of an entry with bytes of a client.
pub const CLIENT_BYTE: u8 = b'A';

/// The kind byte of an entry with bytes of the server.
pub const UPSTREAM_BYTE: u8 = b'U';

/// The kind byte of an entry at which a connection ends.
pub const END_BYTE: u8 = b'E';

/// The kind byte of an entry at which a client's queue was full.
pub const SLOW_BYTE: u8 = b'S';

/// The kind byte of an entry at which the connection to the server ends.
pub const UP_END_BYTE: u8 = b'Z';

/// The byte that tells that the server ended its connection.
pub const ENDED_REASON: u8 = b'E';

/// The byte that tells that reading from the server failed.
pub const READ_FAULT_REASON: u8 = b'R';

/// The byte that tells that writing to the server failed.
pub const WRITE_FAULT_REASON: u8 = b'W';

/// The byte that tells that the server's queue was full.
pub const FULL_REASON: u8 = b'Q';

/// What an entry tells.
#[derive(Clone, Copy, Debug, PartialEq, Eq)]
pub enum EntryKind {
    /// `O`: a connection enters. It has no body.
    Enter,
    /// `A`: bytes of a client, [`LONGEST_BODY`](crate::LONGEST_BODY) at most.
    Client,
    /// `U`: bytes of the server, as many at most. Its connection is written as 0.
    Upstream,
    /// `E`: a connection ends. It has no body.
    End,
    /// `S`: a client's queue was full. It has no body.
    Slow,
    /// `Z`: the connection to the server ends. Its connection is written as 0, and its body is the byte of a reason.
    UpEnd,
}

/// Why the connection to the server ended, where no item of the server is the cause.
#[derive(Clone, Copy, Debug, PartialEq, Eq)]
pub enum UpWhy {
    /// `E`: the server ended it.
    Ended,
    /// `R`: reading from it failed.
    ReadFault,
    /// `W`: writing to it failed.
    WriteFault,
    /// `Q`: the server took its bytes too slowly.
    UpFull,
}

impl UpWhy {
    ghost use Rattle.gate_transcript.specs.Bodies.{reason_byte};

    /// The byte that tells this reason in an entry.
    pub fn byte(self) -> u8
        ensures { result ≡ reason_byte self }
    {
        match self {
            UpWhy::Ended => ENDED_REASON,
            UpWhy::ReadFault => READ_FAULT_REASON,
            UpWhy::WriteFault => WRITE_FAULT_REASON,
            UpWhy::UpFull => FULL_REASON,
        }
    }
}

/// The reason that a body is; none where it is not the one byte of a reason.
pub fn end_reason_in(body: &[u8]) -> Option<UpWhy>
    ensures { result ≡ end_reason_in body.now }
{
    match body {
        [byte] => end_reason_by(*byte),
        _ => None,
    }
}

/// The reason that a byte tells.
fn end_reason_by(byte: u8) -> Option<UpWhy>
    ensures { result ≡ end_reason_by byte }
{
    match byte {
        ENDED_REASON => Some(UpWhy::Ended),
        READ_FAULT_REASON => Some(UpWhy::ReadFault),
        WRITE_FAULT_REASON => Some(UpWhy::WriteFault),
        FULL_REASON => Some(UpWhy::UpFull),
        _ => None,
    }
}

/// One entry of a transcript.
#[derive(Drop)]
pub struct Entry {
    /// What it tells.
    pub kind: EntryKind,
    /// The connection's number; 0 where the entry is the server's.
    pub conn: u32,
    /// The bytes of the client or of the server, or the byte of a reason; none where the kind has no body.
    pub body: Text,
}
