//! What times are made of: parts that a mark begins, numbers of few digits, and fractions.
ghost use Rattle.std.specs.Prelude.{◌≡◌, ◌≤◌, IsTrue, slice_index_or, IfSome, option_map};
ghost use Rattle.std.specs.List.{list_all};
ghost use Rattle.std.specs.Char.{is_ascii_digit, digit_value};
ghost use Rattle.std.specs.Str.Parse.{digits_value};
ghost use Rattle.gate_bytes.specs.Ascii.{digit_zero};
ghost use Rattle.gate_bytes.specs.declared.decimal.TheConstants.{MOST_DIGITS};
ghost use Rattle.rtsp_range.specs.Parts.{part_at, short_number, front_number, rest_after, counted_digits, nanos_of, fraction_of};

use gate_bytes::{after, before, find, read_decimal};

/// The most digits of an hour, a minute, a second and the like, but for the hours of npt.
pub(crate) const SHORT_DIGITS: u32 = 2;

/// The last minute of an hour.
pub(crate) const LAST_MINUTE: u8 = 59;

/// The last second of a minute, but for leap seconds.
pub(crate) const LAST_SECOND: u8 = 59;

/// The digits of a fraction that count: those of billionths (this project's own).
pub const FRACTION_DIGITS: usize = 9;

/// A text without the part that a mark begins, and that part, which is empty where there is no mark.
pub(crate) fn part(mark: u8, text: &[u8]) -> (&[u8], &[u8])
    ensures { (result.0.now, result.1.now) ≡ part_at mark text.now }
{
    let place = find(mark, text).unwrap_or(text.len());
    (before(text, place), after(text, place))
}

/// The number that one or more digits write, up to [`SHORT_DIGITS`], where it is not above `most`.
pub(crate) fn short_number(text: &[u8], most: u8) -> Option<u8>
    ensures value { result ≡ short_number most text.now }
    ensures bound { IfSome result (λ number. number ≤ most) }
{
    let number = read_decimal(text, SHORT_DIGITS)?;
    if number > u64::from(most) {
        return None;
    }
    Some(number as u8)
}

/// The number that just `width` digits at the front write, where it is in bounds, and what follows
/// them.
pub(crate) fn front_number(text: &[u8], width: u32, least: u16, most: u16) -> Option<(u16, &[u8])>
    requires { width ≤ MOST_DIGITS }
    ensures value { option_map (λ found. (found.0, found.1.now)) result
        ≡ front_number width least most text.now }
    ensures bound { IfSome result (λ found. found.0 ≤ most) }
{
    let len = width as usize;
    if text.len() < len {
        return None;
    }
    let number = read_decimal(before(text, len), width)?;
    if number < u64::from(least) || number > u64::from(most) {
        return None;
    }
    Some((number as u16, after(text, len)))
}

/// What follows a byte at the front.
pub(crate) fn rest_after(byte: u8, text: &[u8]) -> Option<&[u8]>
    ensures { option_map (λ rest. rest.now) result ≡ rest_after byte text.now }
{
    match text {
        [first, rest @ ..] if *first == byte => Some(rest),
        _ => None,
    }
}

/// An optional fraction in billionths: nothing, or a point and no or more digits, of which the first
/// [`FRACTION_DIGITS`] count.
pub(crate) fn fraction(text: &[u8]) -> Option<u32>
    ensures { result ≡ fraction_of text.now }
{
    match text {
        [] => Some(0),
        [first, digits @ ..] => { if *first == b'.' { nanos(digits) } else { None } }
    }
}

/// Billionths by the digits behind a point.
fn nanos(digits: &[u8]) -> Option<u32>
    ensures { result ≡ nanos_of digits.now }
{
    if !are_digits(digits) {
        return None;
    }
    Some(counted_digits(digits))
}

/// Whether each byte is a digit.
fn are_digits(text: &[u8]) -> bool
    ensures { result ≡ list_all is_ascii_digit text.now }
{
    text.iter().all(|byte| byte.is_ascii_digit())
}

/// The number that the digits write that count, with zeros for those that are missing.
fn counted_digits(digits: &[u8]) -> u32
    requires { IsTrue (list_all is_ascii_digit digits.now) }
    ensures { result ≡ digits_value 10 (counted_digits digits.now) }
{
    let mut number: u32 = 0;
    for place in 0..FRACTION_DIGITS {
        number = number * 10 + digit_or_zero(digits, place);
    }
    number
}

/// The value of the digit at a place, 0 where there is none.
fn digit_or_zero(digits: &[u8], place: usize) -> u32
    requires { IsTrue (list_all is_ascii_digit digits.now) }
    ensures { result ≡ digit_value (slice_index_or digits.now place digit_zero) }
{
    match digits.get(place) {
        Some(byte) => u32::from(*byte - b'0'),
        None => 0,
    }
}
