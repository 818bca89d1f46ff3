//! Units of time, and the time parameter.
ghost use Rattle.std.specs.Prelude.{◌≡◌};
ghost use Rattle.rtsp_range.specs.Meaning.{unit_of, without_spaces, names_time, has_time_parameter};

use crate::Rate;
use gate_bytes::{before, eq_fold};

/// How the time parameter of RTSP 1.0 begins (RFC 2326, 12.29).
const TIME_PARAMETER: &[u8] = b"time=";

/// The unit that a range begins with.
#[derive(Clone, Copy, PartialEq, Eq)]
pub(crate) enum TimeUnit {
    /// Normal play time.
    Npt,
    /// SMPTE relative timestamps of a rate.
    Smpte(Rate),
    /// Absolute time.
    Clock,
}

/// The unit of this name, without ASCII case.
pub(crate) fn read_unit(name: &[u8]) -> Option<TimeUnit>
    ensures { result ≡ unit_of name.now }
{
    if eq_fold(name, b"npt") {
        Some(TimeUnit::Npt)
    } else if eq_fold(name, b"smpte") {
        Some(TimeUnit::Smpte(Rate::Thirty))
    } else if eq_fold(name, b"smpte-30-drop") {
        Some(TimeUnit::Smpte(Rate::ThirtyDrop))
    } else if eq_fold(name, b"smpte-25") {
        Some(TimeUnit::Smpte(Rate::TwentyFive))
    } else if eq_fold(name, b"clock") {
        Some(TimeUnit::Clock)
    } else {
        None
    }
}

/// Whether a `;` stands anywhere with `time=` behind it (RFC 2326, 12.29).
pub(crate) fn has_time_parameter(mut text: &[u8]) -> bool
    ensures { result ≡ has_time_parameter text.entry.now }
{
    while let [first, rest @ ..] = text {
        if *first == b';' && names_time(rest) {
            return true;
        }
        text = rest;
    }
    false
}

/// Whether `time=` stands behind spaces, without ASCII case.
fn names_time(text: &[u8]) -> bool
    ensures { result ≡ names_time text.now }
{
    let name = without_spaces(text);
    eq_fold(
        before(name, name.len().min(TIME_PARAMETER.len())),
        TIME_PARAMETER,
    )
}

/// The text without the spaces at its front.
fn without_spaces(mut text: &[u8]) -> &[u8]
    ensures { result.now ≡ without_spaces text.entry.now }
{
    while let [first, rest @ ..] = text {
        if *first != b' ' {
            break;
        }
        text = rest;
    }
    text
}
