//! The field Scale: how many times as fast as recorded a stream plays.
ghost use Rattle.std.specs.Prelude.{◌≡◌};
ghost use Rattle.std.specs.List.{list_all};
ghost use Rattle.std.specs.Char.{is_ascii_digit};
ghost use Rattle.rtsp_small.specs.Scales.{without_minus, is_whole, is_fraction, is_scale};

use gate_bytes::{read_decimal, split_once};

/// The most digits before the point of a scale (this project's own).
pub const SCALE_WHOLE_DIGITS: u32 = 10;

/// The most digits behind the point of a scale (this project's own).
pub const SCALE_FRACTION_DIGITS: usize = 9;

/// Whether a text is a scale: an optional `-`, 1 to [`SCALE_WHOLE_DIGITS`] digits, and optionally `.`
/// and up to [`SCALE_FRACTION_DIGITS`] digits (RFC 2326, 12.34; RFC 7826, 18.46).
pub fn is_scale(value: &[u8]) -> bool
    ensures { result ≡ is_scale value.now }
{
    let number = without_minus(value);
    match split_once(b'.', number) {
        Some((whole, fraction)) => is_whole(whole) && is_fraction(fraction),
        None => is_whole(number),
    }
}

/// The text without the `-` at its front, if it has one.
fn without_minus(text: &[u8]) -> &[u8]
    ensures { result.now ≡ without_minus text.now }
{
    match text {
        [b'-', rest @ ..] => rest,
        _ => text,
    }
}

/// Whether a text can stand before the point.
fn is_whole(text: &[u8]) -> bool
    ensures { result ≡ is_whole text.now }
{
    read_decimal(text, SCALE_WHOLE_DIGITS).is_some()
}

/// Whether a text can stand behind the point.
fn is_fraction(text: &[u8]) -> bool
    ensures { result ≡ is_fraction text.now }
{
    text.len() <= SCALE_FRACTION_DIGITS && has_digits_alone(text)
}

/// Whether each byte of a text is a digit.
fn has_digits_alone(text: &[u8]) -> bool
    ensures { result ≡ list_all is_ascii_digit text.now }
{
    text.iter().all(|byte| byte.is_ascii_digit())
}
