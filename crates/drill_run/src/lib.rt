//! A drill of the gateway: a large run of players against a plain server, whose every choice a number fixes.
#![tactic(auto)]

mod counts;
mod drill_core;
mod items;
mod laws;
mod mux_drill;
mod player;
mod report;
mod script;
mod stage;
mod step;
mod turn;
mod whole_drill;

pub use counts::Counts;
pub use drill_core::Drill;
pub use items::{handed_items, items_in_pieces};
pub use laws::{
    a_drill_is_written, a_player_asks_at_most_seven_times, each_turn_is_a_step_or_an_answer,
    equal_words_have_one_drill, no_drill_meets_the_limit_of_turns,
    the_server_hears_no_more_than_goes_up, the_server_is_asked_at_most_six_times_for_a_player,
    the_server_is_asked_little_more_than_players_ask,
};
pub use mux_drill::drill;
pub use player::Player;
pub use script::{PlayerWords, said_at, step_text};
pub use stage::DrillStage;
pub use step::PlayerStep;
pub use turn::Who;
pub use whole_drill::{MOST_PLAYER_TURNS, drill_on};
