//! The head of an entry, and what may be wrong with it.
ghost use Rattle.std.specs.Prelude.{◌≡◌, ◌≤◌, ◌-◌, length, take};
ghost use Rattle.std.specs.Int.{w32, from_be_bytes};
ghost use Rattle.gate_transcript.specs.Connections.{has};
ghost use Rattle.gate_transcript.specs.Transcript.{entry_kind, may_come, entry_head, sound_head, first_head};
ghost use Rattle.gate_transcript.specs.Bodies.{may_have_length, is_body};

use crate::connections::EnteredNumbers;
use crate::entry::{
    CLIENT_BYTE, END_BYTE, ENTER_BYTE, EntryKind, SLOW_BYTE, UP_END_BYTE, UPSTREAM_BYTE,
    end_reason_in,
};
use crate::fault::BadEntryKind;
use gate_bytes::{after, before};

/// The length of an entry's head in bytes: a kind byte, and four bytes each for the connection and the body's length.
pub const HEAD_LENGTH: usize = 9;

/// The longest body of an entry with bytes of a client or of the server, in bytes.
pub const LONGEST_BODY: u32 = 131_072;

/// What the head of an entry says.
#[derive(Clone, Copy, Debug, PartialEq, Eq)]
pub struct EntryHead {
    /// What the entry tells.
    pub kind: EntryKind,
    /// The connection's number.
    pub conn: u32,
    /// The length of the body.
    pub size: u32,
}

/// The head of the entry that stands first, nothing where no byte is there, or the fault of the entry.
pub fn first_head(entered: &EnteredNumbers, bytes: &[u8]) -> Result<Option<EntryHead>, BadEntryKind>
    ensures { result ≡ first_head (has entered.now) bytes.now }
{
    let [kind, rest @ ..] = bytes else {
        return Ok(None);
    };
    if rest.len() < HEAD_LENGTH - 1 {
        return Err(BadEntryKind::Cut);
    }
    let head = sound_head(entered, entry_head(*kind, rest))?;
    let body = after(rest, HEAD_LENGTH - 1);
    if body.len() < head.size as usize {
        return Err(BadEntryKind::Cut);
    }
    if !is_body(head.kind, before(body, head.size as usize)) {
        return Err(BadEntryKind::Length);
    }
    Ok(Some(head))
}

/// The head, or its first fault: an unknown kind, a wrong connection, or a length that the kind does not have.
fn sound_head(entered: &EnteredNumbers, head: Option<EntryHead>) -> Result<EntryHead, BadEntryKind>
    ensures { result ≡ sound_head (has entered.now) head }
{
    let Some(head) = head else {
        return Err(BadEntryKind::Kind);
    };
    if !may_come(entered, head.kind, head.conn) {
        return Err(BadEntryKind::Conn);
    }
    if !may_have_length(head.kind, head.size) {
        return Err(BadEntryKind::Length);
    }
    Ok(head)
}

/// Whether an entry of this kind may come for the connection.
fn may_come(entered: &EnteredNumbers, kind: EntryKind, conn: u32) -> bool
    ensures { result ≡ may_come (has entered.now) kind conn }
{
    match kind {
        EntryKind::Enter => !entered.has(conn),
        EntryKind::Client => entered.has(conn),
        EntryKind::Upstream => conn == 0,
        EntryKind::End => entered.has(conn),
        EntryKind::Slow => entered.has(conn),
        EntryKind::UpEnd => conn == 0,
    }
}

/// Whether the body of an entry of this kind may have this length.
fn may_have_length(kind: EntryKind, size: u32) -> bool
    ensures { result ≡ may_have_length kind size }
{
    match kind {
        EntryKind::Enter => size == 0,
        EntryKind::Client => size <= LONGEST_BODY,
        EntryKind::Upstream => size <= LONGEST_BODY,
        EntryKind::End => size == 0,
        EntryKind::Slow => size == 0,
        EntryKind::UpEnd => size == 1,
    }
}

/// Whether bytes are the body of an entry of this kind: at the end of the connection to the server they tell a reason.
fn is_body(kind: EntryKind, body: &[u8]) -> bool
    ensures { result ≡ is_body kind body.now }
{
    match kind {
        EntryKind::Enter => true,
        EntryKind::Client => true,
        EntryKind::Upstream => true,
        EntryKind::End => true,
        EntryKind::Slow => true,
        EntryKind::UpEnd => end_reason_in(body).is_some(),
    }
}

/// What a kind byte and the eight bytes after it say.
fn entry_head(kind: u8, bytes: &[u8]) -> Option<EntryHead>
    requires { HEAD_LENGTH - 1 ≤ length bytes.now }
    ensures { result ≡ entry_head kind bytes.now }
{
    let kind = entry_kind(kind)?;
    Some(EntryHead {
        kind,
        conn: first_number(bytes),
        size: first_number(after(bytes, 4)),
    })
}

/// The kind that a byte names.
fn entry_kind(byte: u8) -> Option<EntryKind>
    ensures { result ≡ entry_kind byte }
{
    match byte {
        ENTER_BYTE => Some(EntryKind::Enter),
        CLIENT_BYTE => Some(EntryKind::Client),
        UPSTREAM_BYTE => Some(EntryKind::Upstream),
        END_BYTE => Some(EntryKind::End),
        SLOW_BYTE => Some(EntryKind::Slow),
        UP_END_BYTE => Some(EntryKind::UpEnd),
        _ => None,
    }
}

/// The number in the first four bytes, with the greatest byte first.
fn first_number(bytes: &[u8]) -> u32
    requires { 4 ≤ length bytes.now }
    ensures { result ≡ from_be_bytes w32 (take 4 bytes.now) }
{
    u32::from_be_bytes([bytes[0], bytes[1], bytes[2], bytes[3]])
}
