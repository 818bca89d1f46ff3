//! Replaying a transcript: its events are taken by a core, one after another, and what each of them hands out is written
//! as records.
//!
//! Nothing of the core is known here but what the trait [`gateway_claim::Core`] says of every core.
#![tactic(auto)]

mod alive;
mod core_records;
mod laws;
mod outcomes;
mod records;
mod run;
mod streams;
mod whole_replay;

pub use laws::{
    a_replay_walks_the_table, a_sound_transcript_is_replayed, a_transcript_of_one_player_is_its_own,
};
pub use whole_replay::{LONGEST_TRANSCRIPT, replay};
