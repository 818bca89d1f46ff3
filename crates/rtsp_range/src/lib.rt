//! Time ranges of RTSP 1.0 (RFC 2326, 3.5 to 3.7 and 12.29) and RTSP 2.0 (RFC 7826, 4.4 and 18.40):
//! reading them by the grammar of either version, and writing them in one form.
//!
//! Both readers answer exactly by the definitions in `specs/`, take no memory, and read back what
//! [`write`] wrote.
#![tactic(auto)]

mod clock;
mod fault;
mod laws;
mod npt;
mod part;
mod range;
mod range_read;
mod range_text;
mod smpte;
mod unit;

pub use clock::{
    LAST_DAY, LAST_HOUR, LAST_MONTH, LAST_NANO, LAST_YEAR, LEAP_SECOND, Moment, YEAR_DIGITS,
};
pub use fault::RangeFault;
pub use laws::{one_form, reads_back, spelled_so, stays_writable};
pub use npt::{LATEST_SECONDS, NptTime};
pub use part::FRACTION_DIGITS;
pub use range::Range;
pub use range_read::{read_one, read_two};
pub use range_text::write;
pub use smpte::{LAST_SHORT, Rate, Smpte};
