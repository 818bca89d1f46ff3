//! Running a gateway over real links.
//!
//! All threads are made before the first player comes: a reader and a writer for each station, and the same for the server.
//! A reader has its link by value; it hands the outlet and its end of the port to its writer over a desk, and takes both back
//! the same way. All events are taken under the lock of one hub.
#![tactic(auto)]

mod crew;
mod laws;
mod whole_run;

pub use laws::{a_run_that_nothing_hinders_ends_well, a_run_without_a_fault_is_done};
pub use whole_run::serve;
