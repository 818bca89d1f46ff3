//! Reading a Range header of either version.
ghost use Rattle.std.specs.Prelude.{◌≡◌, IsTrue, IfOk, option_map};
ghost use Rattle.rtsp_range.specs.Meaning.{One, Two, meaning, unit_and_times, range_in};
ghost use Rattle.rtsp_range.specs.Writable.{can_be_written};

use crate::clock::clock_range;
use crate::npt::npt_range;
use crate::smpte::smpte_range;
use crate::unit::{TimeUnit, has_time_parameter, read_unit};
use crate::{Range, RangeFault};
use gate_bytes::split_once;

/// The range that the value of a Range header of RTSP 1.0 means (RFC 2326, 12.29), or its first
/// fault.
pub fn read_one(value: &[u8]) -> Result<Range, RangeFault>
    ensures value { result ≡ meaning One value.now }
    ensures writable { IfOk result (λ range. IsTrue (can_be_written range)) }
{
    let Some((unit, text)) = unit_and_times(value) else {
        return Err(RangeFault::Unit);
    };
    if has_time_parameter(text) {
        return Err(RangeFault::TimeParameter);
    }
    range_in(unit, text)
}

/// The range that the value of a Range header of RTSP 2.0 means (RFC 7826, 18.40), or its first
/// fault, which is never [`RangeFault::TimeParameter`].
pub fn read_two(value: &[u8]) -> Result<Range, RangeFault>
    ensures value { result ≡ meaning Two value.now }
    ensures writable { IfOk result (λ range. IsTrue (can_be_written range)) }
{
    let Some((unit, text)) = unit_and_times(value) else {
        return Err(RangeFault::Unit);
    };
    range_in(unit, text)
}

/// The unit, and the text behind the first `=`.
#[tactic(auto, unfolding(crate::specs::Meaning::unit_and_times))]
fn unit_and_times(value: &[u8]) -> Option<(TimeUnit, &[u8])>
    ensures { option_map (λ found. (found.0, found.1.now)) result ≡ unit_and_times value.now }
{
    let (name, text) = split_once(b'=', value)?;
    let unit = read_unit(name)?;
    Some((unit, text))
}

/// The range of a unit that the text behind its `=` means.
fn range_in(unit: TimeUnit, text: &[u8]) -> Result<Range, RangeFault>
    ensures { result ≡ range_in unit text.now }
{
    match unit {
        TimeUnit::Npt => npt_range(text),
        TimeUnit::Smpte(rate) => smpte_range(rate, text).ok_or(RangeFault::Time),
        TimeUnit::Clock => clock_range(text).ok_or(RangeFault::Time),
    }
}
