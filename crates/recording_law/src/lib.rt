//! What a hub noted, read as a transcript, tells its history. This joins the hub's definition of what is noted with the
//! replay's of what a transcript tells, so that neither stands on the other.
#![tactic(auto)]

mod laws;

pub use laws::what_was_noted_tells_the_history;
