//! What is told of a run at its end: how it ended, by what is left of it, and its report.
#![tactic(auto)]

mod report;
mod run_end;
mod up_run;

pub use report::write_report;
pub use run_end::{RunEnd, after_flush, after_report};
pub use up_run::UpRun;
