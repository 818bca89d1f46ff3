//! The server's connection: it is read, and what the server said is taken.
//!
//! Its reader puts what came into the port of the hub, and takes it from there under the hub's lock, at a pace that leaves the
//! players' writers time.
#![tactic(auto)]

mod pace;
mod player_desks;
mod take;
mod threads;
mod upstream;

pub use run_report::UpRun;
pub use threads::{ServerPost, work_server};
pub use upstream::{UpBack, Upstream, run_upstream};
