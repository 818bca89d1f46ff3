//! What a run of the gateway is given: the door of its players, the link to the server, and the recorder.
//!
//! A [`World`] hands these out, takes them back, and counts what happened to them. [`MemoryWorld`] is one in memory, for
//! tests.
#![tactic(auto)]

mod memory_world;
mod refusal;
mod tally;
mod world;

pub use memory_world::MemoryWorld;
pub use refusal::{NotBegun, ThreadRefusal, beside, start};
pub use tally::WorldTally;
pub use world::World;
