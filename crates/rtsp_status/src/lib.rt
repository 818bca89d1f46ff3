//! Status codes: which one of RTSP 1.0 stands for one of RTSP 2.0, and the reason of each.
#![tactic(auto)]

mod code;
mod text;

pub use code::{FIRST_SUCCESS, LAST_SUCCESS, to_one, told_codes_have_reasons};
pub use text::{LONGEST_REASON, reason, reasons_fit_a_status_line};
