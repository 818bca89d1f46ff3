//! The multiplexer: every connection's state, and what each event hands out.
//!
//! It does no input and no output. Where the multiplexer stands for a history, a step hands out
//! exactly the history's next entry and stands for the longer one. A step takes all memory that it
//! needs before its first change.
#![tactic(auto)]

mod act;
mod commit;
mod connections;
mod frames;
mod grant;
mod mux;
mod mux_core;
mod notice;
mod outcome;
mod player_events;
mod server;
mod server_item;
mod settlement;
mod tells;
mod turn;
mod turn_facts;
mod upstream;

pub use mux::{Mux, Plan};
