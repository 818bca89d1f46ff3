//! Histories of players with sessions: what came in, what was handed out, and what each connection
//! would be handed alone.
//!
//! The types of events and outcomes stand here with the definitions that the gateway's central
//! claim is made of: the books that a history keeps of numbers, sessions and channels, and what
//! each connection takes, is handed and asks in it. The laws over these definitions are functions
//! with empty bodies.
#![tactic(auto)]

mod closes;
mod connection;
mod cores;
mod event;
mod laws;

pub use client_machine::CloseWhy;
pub use closes::{BAD_ITEM_CLOSE, END_CLOSE, SLOW_CLOSE, UPSTREAM_CLOSE, close_byte};
pub use connection::{ConnectionKey, Standing};
pub use cores::Core;
pub use event::{Closed, Event, FramingFault, Outcome, ToClient, ToUp, UpCause, UpMessage};
pub use gate_transcript::UpWhy;
pub use laws::{
    a_frame_of_a_player_goes_up_on_its_own_pair, a_frame_of_the_server_reaches_its_holder_alone,
    a_turn_is_one_step_by_the_books, at_most_one_history_of_a_core, books_and_connections_agree,
    entries_are_orderly, equal_own_events, no_two_connections_have_one_session,
    no_two_streams_share_channels, one_player_has_all_that_is_handed_out, replies_walk_the_table,
    the_last_number_is_the_greatest_read, the_server_is_asked_what_each_asks_alone,
    what_happens_has_one_history,
};
pub use rtsp_uri::{Base, Bases};
