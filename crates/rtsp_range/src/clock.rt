//! The unit `clock`: absolute time in UTC.
ghost use Rattle.std.specs.Prelude.{◌≡◌};
ghost use Rattle.rtsp_range.specs.Clock.{moment_of, clock_end, clock_range};

use crate::Range;
use crate::part::{LAST_MINUTE, SHORT_DIGITS, fraction, front_number, rest_after};
use gate_bytes::split_once;

/// The digits of a year.
pub const YEAR_DIGITS: u32 = 4;

/// The last year that these digits write.
pub const LAST_YEAR: u16 = 9999;

/// The last month of a year.
pub const LAST_MONTH: u8 = 12;

/// The last day of a month, whichever month it is.
pub const LAST_DAY: u8 = 31;

/// The last hour of a day.
pub const LAST_HOUR: u8 = 23;

/// The last second of a minute that has a leap second.
pub const LEAP_SECOND: u8 = 60;

/// The last billionth of a second.
pub const LAST_NANO: u32 = 999_999_999;

/// An absolute time in UTC (RFC 2326, 3.7; RFC 7826, 4.4.3). Its fields are read by their digits
/// alone, so it may be the 31st of a month of 30 days.
#[derive(Clone, Copy, Debug, PartialEq, Eq)]
pub struct Moment {
    /// 0 to [`LAST_YEAR`].
    pub year: u16,
    /// 1 to [`LAST_MONTH`].
    pub month: u8,
    /// 1 to [`LAST_DAY`].
    pub day: u8,
    /// 0 to [`LAST_HOUR`].
    pub hour: u8,
    /// 0 to 59.
    pub minute: u8,
    /// 0 to [`LEAP_SECOND`].
    pub second: u8,
    /// Billionths of a second, 0 to [`LAST_NANO`].
    pub nanos: u32,
}

/// The range that the text behind `clock=` means.
#[tactic(auto, unfolding(crate::specs::Clock::clock_range))]
pub(crate) fn clock_range(text: &[u8]) -> Option<Range>
    ensures { result ≡ clock_range text.now }
{
    let (from, to) = split_once(b'-', text)?;
    let from = read_moment(from)?;
    let to = clock_end(to)?;
    Some(Range::Clock { from, to })
}

/// An end: nothing, or a time.
fn clock_end(text: &[u8]) -> Option<Option<Moment>>
    ensures { result ≡ clock_end text.now }
{
    if text.is_empty() {
        return Some(None);
    }
    let time = read_moment(text)?;
    Some(Some(time))
}

/// `YYYYMMDDThhmmss`, an optional fraction and `Z`.
#[tactic(auto, unfolding(crate::specs::Clock::moment_of))]
fn read_moment(text: &[u8]) -> Option<Moment>
    ensures { result ≡ moment_of text.now }
{
    let (year, text) = front_number(text, YEAR_DIGITS, 0, LAST_YEAR)?;
    let (month, text) = front_number(text, SHORT_DIGITS, 1, u16::from(LAST_MONTH))?;
    let (day, text) = front_number(text, SHORT_DIGITS, 1, u16::from(LAST_DAY))?;
    let text = rest_after(b'T', text)?;
    let (hour, text) = front_number(text, SHORT_DIGITS, 0, u16::from(LAST_HOUR))?;
    let (minute, text) = front_number(text, SHORT_DIGITS, 0, u16::from(LAST_MINUTE))?;
    let (second, text) = front_number(text, SHORT_DIGITS, 0, u16::from(LEAP_SECOND))?;
    let (rest, end) = split_once(b'Z', text)?;
    let nanos = fraction(rest)?;
    if !end.is_empty() {
        return None;
    }
    Some(Moment {
        year,
        month: month as u8,
        day: day as u8,
        hour: hour as u8,
        minute: minute as u8,
        second: second as u8,
        nanos,
    })
}
