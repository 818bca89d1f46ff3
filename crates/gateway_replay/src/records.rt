//! The form of a record: its head and its body, written to a sink.
ghost use Rattle.std.specs.Prelude.{◌≡◌, ◌+◌, ◌++◌, ◌<◌, ◌^◌, length};
ghost use Rattle.gate_outside.specs.Causes.{HasCause};
ghost use Rattle.gate_outside.specs.Contents.{WritesAll};
ghost use Rattle.gateway_replay.specs.Records.{record_byte, record_head, record_text};

use gate_outside::{Failed, Sink, write_all};

/// The length of a record's head in bytes: a kind byte, and four bytes each for the connection and the body's length.
pub const RECORD_HEAD_LENGTH: usize = 9;

/// The kind byte of a record of bytes that a client was handed.
pub const HANDED_BYTE: u8 = b'T';

/// The kind byte of a record of bytes that the server was handed.
pub const HANDED_UP_BYTE: u8 = b'Y';

/// The kind byte of a record of a connection that was closed.
pub const CLOSED_BYTE: u8 = b'C';

/// The kind byte of a record of why the connection to the server ended.
pub const FAULT_BYTE: u8 = b'F';

/// What a record tells.
#[derive(Clone, Copy, Debug, PartialEq, Eq)]
pub enum RecordKind {
    /// `T`: bytes that were handed to the client.
    Handed,
    /// `Y`: bytes that were handed to the server.
    HandedUp,
    /// `C`: the connection was closed; the body is its cause.
    Closed,
    /// `F`: the connection to the server ended; the body is its cause.
    Fault,
}

impl RecordKind {
    /// The byte that a record of this kind begins with.
    fn byte(self) -> u8
        ensures { result ≡ record_byte self }
    {
        match self {
            RecordKind::Handed => HANDED_BYTE,
            RecordKind::HandedUp => HANDED_UP_BYTE,
            RecordKind::Closed => CLOSED_BYTE,
            RecordKind::Fault => FAULT_BYTE,
        }
    }
}

/// Writes one record: its kind, the connection, the length of the body and the body.
/// Fails only where the sink's count of faults rose; a front of the record was written then.
pub fn write_record<K: Sink>(
    sink: &mut K,
    kind: RecordKind,
    conn: u32,
    body: &[u8],
) -> Result<(), Failed>
    requires { length body.now < 2 ^ 32 }
    ensures bytes { WritesAll (K.written sink.old) (K.written sink.new)
        (record_text (record_byte kind) conn body.now) result }
    ensures cause { HasCause (K.faults sink.old) (K.faults sink.new) result }
{
    let head = record_head(kind, conn, body.len() as u32);
    let Ok(()) = write_all(sink, &head) else {
        return Err(Failed);
    };
    write_all(sink, body)
}

/// Writes one record whose body comes in two parts.
pub fn write_parted_record<K: Sink>(
    sink: &mut K,
    kind: RecordKind,
    conn: u32,
    first: &[u8],
    second: &[u8],
) -> Result<(), Failed>
    requires { length first.now + length second.now < 2 ^ 32 }
    ensures bytes { WritesAll (K.written sink.old) (K.written sink.new)
        (record_text (record_byte kind) conn (first.now ++ second.now)) result }
    ensures cause { HasCause (K.faults sink.old) (K.faults sink.new) result }
{
    let size = first.len() + second.len();
    let head = record_head(kind, conn, size as u32);
    let Ok(()) = write_all(sink, &head) else {
        return Err(Failed);
    };
    let Ok(()) = write_all(sink, first) else {
        return Err(Failed);
    };
    write_all(sink, second)
}

/// The bytes that stand before a body of this length.
fn record_head(kind: RecordKind, conn: u32, size: u32) -> [u8; RECORD_HEAD_LENGTH]
    ensures { result ≡ record_head (record_byte kind) conn size }
{
    let [c0, c1, c2, c3] = conn.to_be_bytes();
    let [s0, s1, s2, s3] = size.to_be_bytes();
    [kind.byte(), c0, c1, c2, c3, s0, s1, s2, s3]
}
