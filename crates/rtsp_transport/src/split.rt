//! Splitting a Transport field at a byte outside double quotes.
ghost use Rattle.std.specs.Prelude.{◌≡◌, ◌<◌, ◌∷◌, false, length, IfSome};
ghost use Rattle.std.specs.Option.{option_copied};
ghost use Rattle.rtsp_transport.specs.Splits.{quoted_after, has_open_quote, is_readable, place_outside, unquoted_parts, unquoted_left};

use gate_bytes::{after, before, find};
use memchr::memchr2;

/// Whether a value can be split: it is not empty, and each double quote in it is closed.
pub(crate) fn is_readable(value: &[u8]) -> bool
    ensures { result ≡ is_readable value.now }
{
    !value.is_empty() && !has_open_quote(value)
}

/// Whether a double quote is not closed: there is an odd number of them.
fn has_open_quote(value: &[u8]) -> bool
    ensures { result ≡ has_open_quote value.now }
{
    find(b'"', value).is_some() && value.iter().filter(|byte| **byte == b'"').count() % 2 == 1
}

/// The first part of a text that a byte splits outside double quotes, and what follows that byte;
/// nothing follows the last part.
pub(crate) fn first_part(byte: u8, text: &[u8]) -> (&[u8], Option<&[u8]>)
    ensures parts { unquoted_parts byte text.now
        ≡ result.0.now ∷ unquoted_left byte (option_copied result.1) }
    ensures less { IfSome result.1 (λ rest. length rest.now < length text.now) }
{
    match find_outside(byte, text) {
        Some(at) => (before(text, at), Some(after(text, at + 1))),
        None => (text, None),
    }
}

/// The first place of a byte outside double quotes. Few values have quotes, so the place is mostly
/// the first of the byte or a quote.
fn find_outside(byte: u8, text: &[u8]) -> Option<usize>
    ensures place { result ≡ place_outside byte false text.now }
    ensures within { IfSome result (λ at. at < length text.now) }
{
    let at = memchr2(byte, b'"', text)?;
    if text[at] == byte {
        return Some(at);
    }
    find_past_quotes(byte, text)
}

/// The same, where there are quotes.
fn find_past_quotes(byte: u8, text: &[u8]) -> Option<usize>
    ensures place { result ≡ place_outside byte false text.now }
    ensures within { IfSome result (λ at. at < length text.now) }
{
    let mut quoted = false;
    for (at, found) in text.iter().enumerate() {
        if *found == byte && !quoted {
            return Some(at);
        }
        quoted = quoted_after(quoted, *found);
    }
    None
}

/// Whether what follows a byte stands within double quotes.
fn quoted_after(quoted: bool, byte: u8) -> bool
    ensures { result ≡ quoted_after quoted byte }
{
    if byte == b'"' { !quoted } else { quoted }
}
