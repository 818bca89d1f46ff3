//! A range, in any of the three units of time.

use crate::{Moment, NptTime, Rate, Smpte};

/// A range of times. Its end may lie before its begin: whoever plays it judges that.
#[derive(Clone, Copy, Debug, PartialEq, Eq)]
pub enum Range {
    /// Normal play time (RFC 2326, 3.6; RFC 7826, 4.4.2). A begin or an end is there.
    Npt {
        /// The begin.
        from: Option<NptTime>,
        /// The end.
        to: Option<NptTime>,
    },
    /// SMPTE relative timestamps (RFC 2326, 3.5; RFC 7826, 4.4.1).
    Smpte {
        /// The frames of a second.
        rate: Rate,
        /// The begin.
        from: Smpte,
        /// The end.
        to: Option<Smpte>,
    },
    /// Absolute time in UTC (RFC 2326, 3.7; RFC 7826, 4.4.3).
    Clock {
        /// The begin.
        from: Moment,
        /// The end.
        to: Option<Moment>,
    },
}
