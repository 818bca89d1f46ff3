//! How a run of a gateway ends: its status, with the exit status and the fault line of the program, and the text that
//! tells why the connection to the server ended. Fault lines and the records of a replay have that text from here.
#![tactic(auto)]

mod cause;
mod status;

pub use cause::{CauseText, LONGEST_CAUSE, cause_text};
pub use status::Status;
