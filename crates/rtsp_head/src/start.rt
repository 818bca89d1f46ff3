//! The first line of a head.
ghost use Rattle.std.specs.Prelude.{◌≡◌, option_map};
ghost use Rattle.rtsp_head.specs.Lines.{result_map};
ghost use Rattle.rtsp_head.specs.Starts.{plain_start_of, names_protocol, is_unspaced, code_of, request_of, status_of, start_of};
ghost use Rattle.rtsp_head.specs.Heads.{is_request};
ghost use Rattle.rtsp_head.specs.Views.{start_seen};

use crate::HeadFault;
use crate::line::Line;
use gate_bytes::{read_decimal, split_once};

/// The least code of a status line (RFC 2326, 7.1.1; RFC 7826, 8.1.1).
pub const LEAST_CODE: u16 = 100;

/// The greatest code of a status line: three digits.
pub const GREATEST_CODE: u16 = 999;

/// The digits of a code.
const CODE_DIGITS: u32 = 3;

/// What the first line of a head says, with its parts where they stand in it.
#[derive(Clone, Copy)]
pub enum StartLine<'a> {
    /// A request line: three parts without a space, of which the version begins with `RTSP/`.
    Request {
        /// The method, as it was written; it need not be a token.
        method: &'a [u8],
        /// The URI, as it was written.
        uri: &'a [u8],
        /// The version.
        version: &'a [u8],
    },
    /// A status line.
    Status {
        /// The version, which begins with `RTSP/`.
        version: &'a [u8],
        /// The code, [`LEAST_CODE`] to [`GREATEST_CODE`].
        code: u16,
        /// The reason, which may be empty.
        reason: &'a [u8],
    },
}

impl StartLine<'_> {
    /// Whether it begins a request.
    pub(crate) fn is_request(&self) -> bool
        ensures { result ≡ is_request (start_seen self.now) }
    {
        matches!(self, StartLine::Request { .. })
    }
}

/// What a first line says: a status line where it begins with `RTSP/`, else a request line.
pub(crate) fn start_line(line: Line<'_>) -> Result<StartLine<'_>, HeadFault>
    ensures { result_map start_seen result ≡ start_of line.entry }
{
    if line.has_control() {
        return Err(HeadFault::Control);
    }
    match plain_start(line.text()) {
        Some(start) => Ok(start),
        None => Err(HeadFault::Start),
    }
}

/// What a first line without control bytes says, where it is sound.
#[inline(always)]
pub(crate) fn plain_start(line: &[u8]) -> Option<StartLine<'_>>
    ensures { option_map start_seen result ≡ plain_start_of line.now }
{
    if names_protocol(line) {
        status_line(line)
    } else {
        request_line(line)
    }
}

/// Three parts with one space between them, of which the third begins with `RTSP/`
/// (RFC 2326, 6.1; RFC 7826, 20.2).
fn request_line(line: &[u8]) -> Option<StartLine<'_>>
    ensures { option_map start_seen result ≡ request_of line.now }
{
    let (method, rest) = split_once(b' ', line)?;
    let (uri, version) = split_once(b' ', rest)?;
    if !method.is_empty() && !uri.is_empty() && is_unspaced(version) && names_protocol(version) {
        Some(StartLine::Request {
            method,
            uri,
            version,
        })
    } else {
        None
    }
}

/// A version, a code, and nothing or a space and a reason (RFC 2326, 7.1; RFC 7826, 20.2).
fn status_line(line: &[u8]) -> Option<StartLine<'_>>
    ensures { option_map start_seen result ≡ status_of line.now }
{
    let (version, rest) = split_once(b' ', line)?;
    let (code, reason) = match split_once(b' ', rest) {
        Some(parts) => parts,
        None => (rest, b"".as_slice()),
    };
    let code = read_code(code)?;
    Some(StartLine::Status {
        version,
        code,
        reason,
    })
}

/// A code of three digits that does not begin with 0.
fn read_code(text: &[u8]) -> Option<u16>
    ensures { result ≡ code_of text.now }
{
    let code = read_decimal(text, CODE_DIGITS)?;
    if code < u64::from(LEAST_CODE) {
        return None;
    }
    Some(code as u16)
}

/// Whether a text begins with `RTSP/`.
fn names_protocol(text: &[u8]) -> bool
    ensures { result ≡ names_protocol text.now }
{
    text.starts_with(b"RTSP/")
}

/// Whether no byte of a text is a space.
fn is_unspaced(text: &[u8]) -> bool
    ensures { result ≡ is_unspaced text.now }
{
    text.iter().all(|byte| *byte != b' ')
}
