//! The words that the program is started with: its commands, what each word of them is, which word is refused, and what is
//! told of all that.
//!
//! The words after a command are told apart by a list of kinds. `clap` hands out the words of a line that was accepted by
//! their names, and lays out the usage and the help.
#![tactic(auto)]

mod arguments;
mod clap_commands;
mod help;
mod kinds;
mod options;
mod word_faults;
mod words;

pub use arguments::{Argument, Form, words_are_checked_as_arguments};
pub use help::{command_help, program_help, program_version, usage_for};
pub use kinds::{LONGEST_NAME, MOST_CLIENTS, WordsFault};
pub use options::{MOST_STATIONS, ServeOptions};
pub use word_faults::{argument_at, form_of, given_for, refusal_line};
pub use words::{Command, asks_to_serve, read_words};
