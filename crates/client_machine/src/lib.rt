//! The machine of one connection: what each event does to it, hands to its player and sends up.
//!
//! The definitions in `specs/` are what the gateway's claim is made of: a connection alone, with its
//! own numbers, and the same step under the numbers of the server's one connection. The functions
//! here take that step in two parts: [`plan`] writes a plan, changes nothing else and takes all memory, as
//! [`plan_close`] does for a close, which needs none, and [`PlannedStep::commit`] takes none and can't be refused.
#![tactic(auto)]

mod after;
mod commit;
mod ends;
mod fault;
mod frames;
mod input;
mod laws;
mod onward;
mod outlook;
mod parts;
mod plans;
mod player_reply;
mod replies;
mod requests;
mod sight;
mod treat;
mod why;

pub use ends::plan_close;
pub use fault::PlanFault;
pub use frames::{StreamHalf, channel_for, half_for};
pub use input::{Incoming, ServerReply};
pub use laws::{
    a_free_pair_matters_to_a_setup_alone, a_step_keeps_any_numbering, no_more_goes_up_than_came,
    own_numbers_are_kept, own_streams_are_apart, what_is_not_closed_is_alive,
};
pub use parts::{Done, PlannedStep};
pub use plans::plan;
pub use player_reply::grant_said;
pub use why::CloseWhy;
