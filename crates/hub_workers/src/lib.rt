//! What the workers of a run share, the hub under its lock among it, and the workers that write.
//!
//! Whoever changes something under the lock that a worker may wait for wakes it.
#![tactic(auto)]

mod common;
mod life;
mod lull;
mod writer_threads;

pub use common::Common;
pub use life::Life;
pub use writer_threads::write_from;
