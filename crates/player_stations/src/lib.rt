//! Players and the stations that serve them, one player after another.
//!
//! A station waits at the door for its next player, has it enter, reads what it says and has it taken, and retires it once its
//! connection is over. The last station to end stops the run, where no player comes any more.
#![tactic(auto)]

mod client;
mod gate;
mod next;
mod read_loop;
mod stations;
mod threads;

pub use client::{ClientWhy, Retired, run_client};
pub use gate::Gate;
pub use threads::{StationPost, work_stations};
