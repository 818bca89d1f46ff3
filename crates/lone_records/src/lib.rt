//! The records of a transcript of one player are those of a gateway that has this player alone, byte
//! for byte; and what goes up stands in the records of any history.
#![tactic(auto)]

mod laws;

pub use laws::{the_records_of_one_player_are_its_own, what_goes_up_is_recorded};
