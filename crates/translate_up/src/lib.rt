//! What becomes of a player's request: the gateway answers it, keeps it until what plays has ended,
//! or sends it up as a request of RTSP 2.0.
#![tactic(auto)]

mod accept;
mod answer;
mod channels;
mod decision;
mod field;
mod laws;
mod queued_play;
mod rule;
mod subject;
mod transport;
mod upward;
mod view;

pub use decision::{Decision, decide};
pub use laws::{
    every_refusal_is_by_a_rule, the_channels_are_all_that_is_put_in,
    the_lowest_free_channels_are_given, the_numbers_of_pairs_make_no_difference,
    what_goes_up_can_be_written, what_goes_up_has_no_longer_uri, what_is_answered_is_one_reply,
    what_no_rule_refuses_has_its_place,
};
pub use queued_play::play_up;
pub use transport::with_transport;
pub use view::{SessionView, View};
