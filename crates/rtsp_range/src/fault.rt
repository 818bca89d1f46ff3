//! The faults of a Range header.

use crate::LATEST_SECONDS;
use std::fmt;

/// The first fault of a range, in this order.
#[derive(Clone, Copy, Debug, PartialEq, Eq)]
pub enum RangeFault {
    /// There is no `=`, or what stands before it is no unit.
    Unit,
    /// A `;` is followed by `time=`. Only RTSP 1.0 has that parameter (RFC 2326, 12.29).
    TimeParameter,
    /// The begin or the end is a normal play time above [`LATEST_SECONDS`] seconds.
    TooLarge,
    /// Anything else that is not in the grammar.
    Time,
}

impl fmt::Display for RangeFault {
    fn fmt<W: fmt::Write>(&self, f: &mut fmt::Formatter<W>) -> fmt::Result {
        match self {
            RangeFault::Unit => write!(f, "the range has no known unit"),
            RangeFault::TimeParameter => write!(f, "the range has a time parameter"),
            RangeFault::TooLarge => write!(f, "a time is above {LATEST_SECONDS} seconds"),
            RangeFault::Time => write!(f, "a time is outside the grammar"),
        }
    }
}

impl std::error::Error for RangeFault {}
