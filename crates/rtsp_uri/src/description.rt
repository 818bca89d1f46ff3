//! Session descriptions, and the addresses of streams in them.
ghost use Rattle.std.specs.Prelude.{◌≡◌, [], ◌∷◌, ◌++◌, IfOk, OnOk};
ghost use Rattle.std.specs.Str.Lines.{strip_carriage_return};
ghost use Rattle.gate_bytes.specs.Ascii.{lf};
ghost use Rattle.rtsp_uri.specs.Descriptions.{swapped_control, swapped_ended, rewritten};

use crate::base::Base;
use crate::swap::swap_authority;
use gate_bytes::{Memory, Text, after, before, split_once};
use std::alloc::Global;

/// What a line with the address of a stream begins with (RFC 2326, C.1.1).
const CONTROL: [u8; 10] = *b"a=control:";

/// The session description with the authority of `to` in the place of that of `from` in each line
/// that begins with `a=control:` (RFC 2326, C.1.1; RFC 4566). All else is as it was, line ends
/// among it.
///
/// A line ends at LF, and a CR just before that belongs to the end. What follows the last LF is a
/// line too; it has no end, so a CR there is a byte of the line.
pub fn rewrite_sdp(alloc: Global, from: &Base, to: &Base, body: &[u8]) -> Result<Text, Memory>
    ensures { IfOk result (λ text. text ≡ rewritten from.now.text to.now.text body.now) }
{
    let mut text = Text::with_room(alloc, body.len())?;
    let mut rest = body;
    while let Some((line, left)) = split_once(b'\n', rest) {
        push_ended(
            alloc,
            from,
            to,
            line,
            before(rest, line.len() + 1),
            &mut text,
        )?;
        rest = left;
    }
    push_line(alloc, from, to, rest, &mut text)?;
    Ok(text)
}

/// Appends a line that stands here without its LF and with it. Most lines have no address, and go whole.
fn push_ended(
    alloc: Global,
    from: &Base,
    to: &Base,
    line: &[u8],
    ended: &[u8],
    text: &mut Text,
) -> Result<(), Memory>
    requires { ended.now ≡ line.now ++ (lf ∷ []) }
    ensures { OnOk result
        (text.new ≡ text.old ++ (swapped_ended from.now.text to.now.text line.now ++ (lf ∷ []))) }
{
    let plain = without_return(line);
    if !plain.starts_with(&CONTROL) {
        return text.push_slice(ended);
    }
    push_line(alloc, from, to, plain, text)?;
    text.push_slice(after(ended, plain.len()))
}

/// The line without the CR at its end, if it has one.
fn without_return(line: &[u8]) -> &[u8]
    ensures { result.now ≡ strip_carriage_return line.now }
{
    match line {
        [front @ .., b'\r'] => front,
        _ => line,
    }
}

/// Appends a line without its end, swapped where it begins with `a=control:`.
fn push_line(
    alloc: Global,
    from: &Base,
    to: &Base,
    line: &[u8],
    text: &mut Text,
) -> Result<(), Memory>
    ensures { OnOk result (text.new ≡ text.old ++ swapped_control from.now.text to.now.text line.now) }
{
    if !line.starts_with(&CONTROL) {
        return text.push_slice(line);
    }
    let address = swap_authority(alloc, from, to, after(line, CONTROL.len()))?;
    text.push_slice(&CONTROL)?;
    text.push_slice(address.as_bytes())
}
