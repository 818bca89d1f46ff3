//! The field Session: an id, and how long the server keeps the session.
ghost use Rattle.std.specs.Prelude.{◌≡◌, ◌<◌, ◌^◌, true, not, Some, ◌++◌, length, position, IfSome, IfOk, OnOk, option_map};
ghost use Rattle.std.specs.List.{list_all};
ghost use Rattle.gate_bytes.specs.Ascii.{semicolon};
ghost use Rattle.gate_bytes.specs.Places.{parts_at};
ghost use Rattle.rtsp_small.specs.declared.session.TheConstants.{TIMEOUT_DIGITS};
ghost use Rattle.rtsp_small.specs.Sessions.{is_session_byte, is_session_id, timeout_in, first_timeout, session_with, session_of, timeout_text, session_text};
ghost use Rattle.rtsp_small.specs.Views.{session_seen};

use gate_bytes::{Memory, Text, after, before, push_decimal, read_decimal, split_once, trim};
use std::alloc::Global;

/// The most bytes of a session's id (RFC 7826, 20.2).
pub const LONGEST_SESSION_ID: usize = 256;

/// The most digits of a timeout in seconds (this project's own).
pub const TIMEOUT_DIGITS: u32 = 10;

/// What a Session field says (RFC 2326, 12.37; RFC 7826, 18.49).
#[derive(Clone, Copy, Debug)]
pub struct SessionField<'a> {
    /// The id: 1 to [`LONGEST_SESSION_ID`] letters, digits or bytes of `$-_.+`.
    pub id: &'a [u8],
    /// After so many seconds without a request the server may close the session.
    pub timeout: Option<u64>,
}

/// What a Session field says: the id, which is not trimmed, and then parameters after semicolons,
/// which are. The first `timeout=` with 1 to [`TIMEOUT_DIGITS`] digits counts, and other parameters
/// are ignored.
pub fn read_session(value: &[u8]) -> Option<SessionField<'_>>
    ensures { option_map session_seen result ≡ session_of value.now }
{
    let Some(end) = foreign_byte(value) else {
        return session(value, None);
    };
    if value[end] != b';' {
        return None;
    }
    session(before(value, end), first_timeout(after(value, end + 1)))
}

/// The place of the first byte that no session id has. Values are short, so this one walk takes less
/// than a search for the semicolon and a walk of the id before it.
fn foreign_byte(text: &[u8]) -> Option<usize>
    ensures place { result ≡ position (λ b. not (is_session_byte b)) text.now }
    ensures within { IfSome result (λ at. at < length text.now) }
{
    text.iter().position(|byte| !is_session_byte(*byte))
}

/// A session with an id of bytes that may stand in one, where it has as many as an id may have.
fn session(id: &[u8], timeout: Option<u64>) -> Option<SessionField<'_>>
    requires { list_all is_session_byte id.now ≡ true }
    ensures { option_map session_seen result ≡ session_with id.now timeout }
{
    if id.is_empty() || id.len() > LONGEST_SESSION_ID {
        return None;
    }
    Some(SessionField { id, timeout })
}

/// Whether a byte may stand in a session id.
fn is_session_byte(byte: u8) -> bool
    ensures { result ≡ is_session_byte byte }
{
    byte.is_ascii_alphanumeric() || matches!(byte, b'$' | b'-' | b'_' | b'.' | b'+')
}

/// The first timeout among parameters that semicolons part.
fn first_timeout(parameters: &[u8]) -> Option<u64>
    ensures { result ≡ first_timeout (parts_at semicolon parameters.now) }
{
    let mut rest = parameters;
    while let Some((parameter, more)) = split_once(b';', rest) {
        let timeout = read_timeout(trim(parameter));
        if timeout.is_some() {
            return timeout;
        }
        rest = more;
    }
    read_timeout(trim(rest))
}

/// The seconds of a parameter `timeout=`.
fn read_timeout(parameter: &[u8]) -> Option<u64>
    ensures { result ≡ timeout_in parameter.now }
{
    let seconds = parameter.strip_prefix(b"timeout=".as_slice())?;
    read_decimal(seconds, TIMEOUT_DIGITS)
}

/// A Session field with this id, and this timeout in seconds where there is one. [`read_session`]
/// gives both back.
pub fn write_session(alloc: Global, id: &[u8], timeout: Option<u64>) -> Result<Text, Memory>
    requires id { is_session_id id.now ≡ true }
    requires timeout { IfSome timeout (λ seconds. seconds < 10 ^ TIMEOUT_DIGITS) }
    ensures text { IfOk result (λ text. text ≡ session_text (record { id = id.now; timeout = timeout })) }
    ensures read { IfOk result (λ text. session_of text ≡ Some (record { id = id.now; timeout = timeout })) }
{
    let mut text = Text::copy(alloc, id)?;
    push_timeout(&mut text, timeout)?;
    Ok(text)
}

/// Appends the parameter with a timeout, where there is one.
fn push_timeout(text: &mut Text, timeout: Option<u64>) -> Result<(), Memory>
    ensures { OnOk result (text.new ≡ text.old ++ timeout_text timeout) }
{
    match timeout {
        Some(seconds) => {
            text.push_slice(b";timeout=")?;
            push_decimal(text, seconds)
        }
        None => Ok(()),
    }
}
