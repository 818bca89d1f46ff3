//! The lines of a head after the first.
ghost use Rattle.std.specs.Prelude.{◌≡◌, ◌<◌, ◌≤◌, ◌∷◌, ◌&&◌, length, drop, Ok, IfSome};
ghost use Rattle.gate_bytes.specs.Ascii.{colon};
ghost use Rattle.gate_bytes.specs.Tokens.{is_token_byte};
ghost use Rattle.rtsp_head.specs.Lines.{result_map};
ghost use Rattle.rtsp_head.specs.Headers.{goes_on, further_of, header_of, Begins};
ghost use Rattle.rtsp_head.specs.Names.{token_len};
ghost use Rattle.rtsp_head.specs.Views.{further_seen};

use crate::HeadFault;
use crate::line::Line;
use gate_bytes::{after, before, is_token, split_once};

/// What a line after the first one says, with its parts where they stand in it. Contracts see its text or value without
/// the blanks round it: who needs that trims it.
#[derive(Clone, Copy)]
pub(crate) enum FurtherLine<'a> {
    /// More text of the header above.
    More(&'a [u8]),
    /// A header.
    Begins { name: &'a [u8], value: &'a [u8] },
}

/// What a line after the first one says. A line that begins with a space or a tab goes on with the
/// header above (RFC 2326, 15.1; RFC 7826, 5.2).
#[inline(always)]
pub(crate) fn further_line(line: Line<'_>) -> Result<FurtherLine<'_>, HeadFault>
    ensures { result_map further_seen result ≡ further_of line.entry }
{
    if line.has_control() {
        return Err(HeadFault::Control);
    }
    let line = line.text();
    if goes_on(line) {
        return Ok(FurtherLine::More(line));
    }
    let len = token_len(line);
    match behind_colon(after(line, len)) {
        Some(value) if len > 0 => Ok(named_header(line, len, value)),
        _ => header_line(line),
    }
}

/// How many bytes of a token stand first. Four at a time are looked at while all of them may stand in one.
#[inline(always)]
fn token_len(line: &[u8]) -> usize
    ensures count { result ≡ token_len line.now }
    ensures within { result ≤ length line.now }
{
    let mut count = 0;
    let mut left = line;
    while let [one, two, three, four, more @ ..] = left {
        if !are_token_bytes(*one, *two, *three, *four) {
            break;
        }
        count += 4;
        left = more;
    }
    count + token_run(left)
}

/// The same, byte by byte.
#[inline(always)]
fn token_run(line: &[u8]) -> usize
    ensures count { result ≡ token_len line.now }
    ensures within { result ≤ length line.now }
{
    let mut count = 0;
    let mut left = line;
    while let [byte, more @ ..] = left {
        if !is_token_byte(*byte) {
            break;
        }
        count += 1;
        left = more;
    }
    count
}

/// Whether each of four bytes may stand in a token.
#[inline(always)]
fn are_token_bytes(one: u8, two: u8, three: u8, four: u8) -> bool
    ensures { result ≡ (is_token_byte one && is_token_byte two && is_token_byte three && is_token_byte four) }
{
    is_token_byte(one) && is_token_byte(two) && is_token_byte(three) && is_token_byte(four)
}

/// Whether a byte may stand in a token. HTTP has the same tokens.
#[inline(always)]
fn is_token_byte(byte: u8) -> bool
    ensures { result ≡ is_token_byte byte }
{
    httparse::is_header_name_token(byte)
}

/// What follows a colon that stands first.
#[inline(always)]
fn behind_colon(text: &[u8]) -> Option<&[u8]>
    ensures { IfSome result (λ rest. text.now ≡ colon ∷ rest.now) }
{
    match text {
        [b':', rest @ ..] => Some(rest),
        _ => None,
    }
}

/// The header that a line is which begins with a name of so many bytes and a colon. No byte of a token is a colon, so
/// that one is the first.
#[inline(always)]
fn named_header<'a>(line: &'a [u8], len: usize, value: &'a [u8]) -> FurtherLine<'a>
    requires name { len ≡ token_len line.now }
    requires some { 0 < len }
    requires within { len ≤ length line.now }
    requires colon { drop len line.now ≡ colon ∷ value.now }
    ensures { result_map Begins (header_of line.now) ≡ Ok (further_seen result) }
{
    FurtherLine::Begins {
        name: before(line, len),
        value,
    }
}

/// The header that a line is, by its first colon. It is not inlined: a line comes here that begins with no name and no colon, to
/// tell the faults.
#[inline(never)]
fn header_line(line: &[u8]) -> Result<FurtherLine<'_>, HeadFault>
    ensures { result_map further_seen result ≡ result_map Begins (header_of line.now) }
{
    let Some((name, rest)) = split_once(b':', line) else {
        return Err(HeadFault::Colon);
    };
    if !is_token(name) {
        return Err(HeadFault::Name);
    }
    Ok(FurtherLine::Begins { name, value: rest })
}

/// Whether a line goes on with the header above.
pub(crate) fn goes_on(line: &[u8]) -> bool
    ensures { result ≡ goes_on line.now }
{
    matches!(line, [b' ' | b'\t', ..])
}
