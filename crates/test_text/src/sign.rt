//! The signs of a text.

use gate_bytes::{MOST_DIGITS, read_decimal, split_once};

/// What one sign of a text means.
#[derive(Clone, Copy)]
pub enum Sign {
    /// CR LF.
    LineEnd,
    /// One byte.
    Byte(u8),
    /// One byte, so many times.
    Run(u64, u8),
}

/// The first sign of a text, and what is left behind it; nothing where a backslash has nothing known after it, or where the
/// text is empty.
pub fn next_sign(text: &[u8]) -> Option<(Sign, &[u8])> {
    match text {
        [b'|', rest @ ..] => Some((Sign::LineEnd, rest)),
        [b'\\', rest @ ..] => escaped(rest),
        [b'{', rest @ ..] => Some(run(rest).unwrap_or((Sign::Byte(b'{'), rest))),
        [byte, rest @ ..] => Some((Sign::Byte(*byte), rest)),
        [] => None,
    }
}

/// The byte that stands behind a backslash.
fn escaped(text: &[u8]) -> Option<(Sign, &[u8])> {
    let (byte, rest) = match text {
        [b'n', rest @ ..] => (b'\n', rest),
        [b'r', rest @ ..] => (b'\r', rest),
        [b't', rest @ ..] => (b'\t', rest),
        [b's', rest @ ..] => (b' ', rest),
        [b'p', rest @ ..] => (b'|', rest),
        [b'\\', rest @ ..] => (b'\\', rest),
        [b'x', high, low, rest @ ..] => (hex_byte(*high, *low)?, rest),
        _ => return None,
    };
    Some((Sign::Byte(byte), rest))
}

/// The run that stands behind an opening brace: a number, a star, a byte and a closing brace.
fn run(text: &[u8]) -> Option<(Sign, &[u8])> {
    let (count, rest) = split_once(b'*', text)?;
    let count = read_decimal(count, MOST_DIGITS)?;
    match rest {
        [byte, b'}', rest @ ..] => Some((Sign::Run(count, *byte), rest)),
        _ => None,
    }
}

/// The byte that two hexadecimal digits are.
pub fn hex_byte(high: u8, low: u8) -> Option<u8> {
    Some(digit(high)? << 4 | digit(low)?)
}

/// The value of a hexadecimal digit, below 16.
fn digit(byte: u8) -> Option<u8> {
    match byte {
        b'0'..=b'9' => Some(byte - b'0'),
        b'a'..=b'f' => Some(byte - b'a' + 10),
        b'A'..=b'F' => Some(byte - b'A' + 10),
        _ => None,
    }
}
