//! What the workers of a run tell each other: when to look for work, how writers get on, that all have begun, whose turn it is
//! at the door, and how much time has passed.
//!
//! Nothing is promised of when a worker wakes. What a worker does is proved without that.
#![tactic(auto)]

mod due;
mod flow;
mod meeting;
mod rest;
mod signals;
mod stopwatch;
mod turnstile;

pub use due::{Due, DuePlayer};
pub use flow::{Flow, PLACES};
pub use meeting::Meeting;
pub use rest::rest_for_ever;
pub use signals::{Ring, Signals};
pub use stopwatch::Stopwatch;
pub use turnstile::Turnstile;
