//! The unit `npt`: normal play time.
ghost use Rattle.std.specs.Prelude.{◌≡◌, min, option_map};
ghost use Rattle.rtsp_range.specs.Parts.{whole_number};
ghost use Rattle.rtsp_range.specs.Npt.{clocked_seconds, seconds_of, nanoseconds_of, npt_time, npt_part, npt_range};
ghost use Rattle.rtsp_range.specs.CappedTimes.{most_seconds, too_late, time_or_fault, part_or_fault};

use crate::part::{LAST_MINUTE, LAST_SECOND, fraction, part, short_number};
use crate::{Range, RangeFault};
use gate_bytes::split_once;

/// A normal play time (RFC 2326, 3.6; RFC 7826, 4.4.2).
#[derive(Clone, Copy, Debug, PartialEq, Eq)]
pub enum NptTime {
    /// The present moment of a live stream.
    Now,
    /// So many nanoseconds from the start, [`LATEST_SECONDS`] seconds at most.
    At(u64),
}

/// The nanoseconds of a second.
pub(crate) const SECOND: u64 = 1_000_000_000;

/// The latest time, in seconds (this project's own).
pub const LATEST_SECONDS: u64 = 9_999_999_999;

/// The latest time, in nanoseconds.
const LATEST: u64 = LATEST_SECONDS * SECOND;

/// A time that is too late, so that later ones need not be told apart.
const TOO_LATE: u64 = LATEST + 1;

/// Seconds that are too large all the same, so that larger ones need not be told apart.
const MOST_SECONDS: u64 = LATEST_SECONDS + 1;

/// The range that the text behind `npt=` means.
pub(crate) fn npt_range(text: &[u8]) -> Result<Range, RangeFault>
    ensures { result ≡ npt_range text.now }
{
    let Some((from, to)) = split_once(b'-', text) else {
        return Err(RangeFault::Time);
    };
    match (npt_part(from), npt_part(to)) {
        (Err(RangeFault::TooLarge), _) | (_, Err(RangeFault::TooLarge)) => {
            Err(RangeFault::TooLarge)
        }
        (Ok(None), Ok(None)) => Err(RangeFault::Time),
        (Ok(from), Ok(to)) => Ok(Range::Npt { from, to }),
        _ => Err(RangeFault::Time),
    }
}

/// A begin or an end: nothing, or a time.
fn npt_part(text: &[u8]) -> Result<Option<NptTime>, RangeFault>
    ensures { result ≡ part_or_fault (npt_part text.now) }
{
    if text.is_empty() {
        return Ok(None);
    }
    let time = npt_time(text)?;
    Ok(Some(time))
}

/// `now`, or a number of seconds.
fn npt_time(text: &[u8]) -> Result<NptTime, RangeFault>
    ensures { result ≡ time_or_fault (npt_time text.now) }
{
    if text == b"now".as_slice() {
        return Ok(NptTime::Now);
    }
    let Some(nanoseconds) = nanoseconds(text) else {
        return Err(RangeFault::Time);
    };
    if nanoseconds > LATEST {
        return Err(RangeFault::TooLarge);
    }
    Ok(NptTime::At(nanoseconds))
}

/// Whole seconds and an optional fraction, in nanoseconds; those that are too large are told by a
/// number that is too large.
#[tactic(auto, unfolding(crate::specs::Npt::nanoseconds_of))]
fn nanoseconds(text: &[u8]) -> Option<u64>
    ensures { result ≡ option_map (min too_late) (nanoseconds_of text.now) }
{
    let (whole, rest) = part(b'.', text);
    let seconds = seconds(whole)?;
    let nanos = fraction(rest)?;
    Some((seconds * SECOND + u64::from(nanos)).min(TOO_LATE))
}

/// Whole seconds: `h:mm:ss`, or the seconds alone.
#[tactic(auto, unfolding(crate::specs::Npt::seconds_of))]
fn seconds(text: &[u8]) -> Option<u64>
    ensures { result ≡ option_map (min most_seconds) (seconds_of text.now) }
{
    match split_once(b':', text) {
        None => whole_number(text),
        Some((hours, rest)) => clocked_seconds(hours, rest),
    }
}

/// Hours, and then minutes and seconds.
#[tactic(auto, unfolding(crate::specs::Npt::clocked_seconds))]
fn clocked_seconds(hours: &[u8], rest: &[u8]) -> Option<u64>
    ensures { result ≡ option_map (min most_seconds) (clocked_seconds hours.now rest.now) }
{
    let (minutes, seconds) = split_once(b':', rest)?;
    let hour = whole_number(hours)?;
    let minute = short_number(minutes, LAST_MINUTE)?;
    let second = short_number(seconds, LAST_SECOND)?;
    let all = hour * 3600 + u64::from(minute) * 60 + u64::from(second);
    Some(all.min(MOST_SECONDS))
}

/// One or more digits, however many.
fn whole_number(text: &[u8]) -> Option<u64>
    ensures { result ≡ option_map (min most_seconds) (whole_number text.now) }
{
    if text.is_empty() {
        return None;
    }
    let mut number: u64 = 0;
    for byte in text {
        if !byte.is_ascii_digit() {
            return None;
        }
        number = (number * 10 + u64::from(*byte - b'0')).min(MOST_SECONDS);
    }
    Some(number)
}
