//! The commands and their arguments, as people are told of them: one table for what is refused, the usage and the help.
//! Its numbers are the constants by which words are checked.
ghost use Rattle.std.specs.Prelude.{◌≡◌, Some, map, option_map};
ghost use Rattle.command_line.specs.Words.{kinds_after};
ghost use Rattle.command_line.specs.Arguments.{form_word, arguments_of, form_named, argument_kind};
ghost use Rattle.command_line.specs.declared.arguments.Form.{Form as AnyForm};

use crate::kinds::{CLIENTS_DIGITS, LONGEST_NAME, MOST_CLIENTS, NUMBER_DIGITS, STATIONS_DIGITS};
use crate::options::MOST_STATIONS;
use crate::words::{DRILL, REPLAY, SERVE};
use rtsp_uri::{DEFAULT_PORT, LONGEST_BASE};
use std::fmt;

/// A command, by its first word.
#[derive(Clone, Copy, PartialEq, Eq)]
pub enum Form {
    /// `replay`.
    Replay,
    /// `drill`.
    Drill,
    /// `serve`.
    Serve,
}

/// All commands, in the order in which they are told.
pub const FORMS: [Form; 3] = [Form::Replay, Form::Drill, Form::Serve];

/// A word that the program is started with, by what it stands for.
#[derive(Clone, Copy, PartialEq, Eq)]
pub enum Argument {
    /// The command itself.
    Command,
    /// The address by which players name the gateway.
    Front,
    /// The address of the media server.
    Up,
    /// How many players a drill has.
    Clients,
    /// The number that fixes a drill.
    Number,
    /// The address at which players are awaited.
    Listen,
    /// How many players are served side by side.
    Stations,
    /// The file of the recording.
    Record,
}

/// All arguments behind a command, in the order in which they are told.
pub const ARGUMENTS: [Argument; 7] = [
    Argument::Front,
    Argument::Up,
    Argument::Clients,
    Argument::Number,
    Argument::Listen,
    Argument::Stations,
    Argument::Record,
];

const REPLAY_ARGUMENTS: [Argument; 2] = [Argument::Front, Argument::Up];

const DRILL_ARGUMENTS: [Argument; 2] = [Argument::Clients, Argument::Number];

const SERVE_ARGUMENTS: [Argument; 5] = [
    Argument::Front,
    Argument::Up,
    Argument::Listen,
    Argument::Stations,
    Argument::Record,
];

impl Form {
    /// The command with this first word.
    pub fn named(name: &str) -> Option<Form>
        ensures { result ≡ form_named name.now }
    {
        if name.as_bytes() == REPLAY.as_slice() {
            return Some(Form::Replay);
        }
        if name.as_bytes() == DRILL.as_slice() {
            return Some(Form::Drill);
        }
        if name.as_bytes() == SERVE.as_slice() {
            return Some(Form::Serve);
        }
        None
    }

    /// Its first word.
    pub fn name(self) -> &'static str
        ensures { result.now ≡ form_word self }
    {
        match self {
            Form::Replay => "replay",
            Form::Drill => "drill",
            Form::Serve => "serve",
        }
    }

    /// What stands behind it, in order.
    pub fn arguments(self) -> &'static [Argument]
        ensures { result.now ≡ arguments_of self }
    {
        match self {
            Form::Replay => &REPLAY_ARGUMENTS,
            Form::Drill => &DRILL_ARGUMENTS,
            Form::Serve => &SERVE_ARGUMENTS,
        }
    }

    /// What it does.
    pub fn about(self) -> &'static str {
        match self {
            Form::Replay => {
                "replays the transcript on standard input, and writes records of what is handed out"
            }
            Form::Drill => {
                "plays players against a plain server in one process, and writes eight lines of counts"
            }
            Form::Serve => "serves players over sockets, and records what happens as a transcript",
        }
    }
}

/// The kinds by which the words behind a command are checked are those of its arguments.
pub fn words_are_checked_as_arguments()
    ensures { (form : AnyForm)
        → option_map (map Some) (kinds_after (form_word form)) ≡ Some (map argument_kind (arguments_of form)) }
{}

impl Argument {
    /// Its name.
    pub fn name(self) -> &'static str {
        match self {
            Argument::Command => "COMMAND",
            Argument::Front => FRONT,
            Argument::Up => UP,
            Argument::Clients => CLIENTS,
            Argument::Number => NUMBER,
            Argument::Listen => LISTEN,
            Argument::Stations => STATIONS,
            Argument::Record => RECORD,
        }
    }

    /// What it stands for.
    pub fn about(self) -> &'static str {
        match self {
            Argument::Command => "what is done",
            Argument::Front => "how players name the gateway, as rtsp://gate.example",
            Argument::Up =>
                "where the media server is, and how it names itself, as rtsp://media.example",
            Argument::Clients => "how many players a drill has",
            Argument::Number => "what fixes each turn of a drill",
            Argument::Listen => "where players are awaited, as 0.0.0.0:8554",
            Argument::Stations => "how many players are served side by side; the next one waits",
            Argument::Record =>
                "the file that the recording is written to; /dev/null where none is wanted",
        }
    }
}

/// The name of [`Argument::Front`].
pub const FRONT: &str = "FRONT";

/// The name of [`Argument::Up`].
pub const UP: &str = "UP";

/// The name of [`Argument::Clients`].
pub const CLIENTS: &str = "CLIENTS";

/// The name of [`Argument::Number`].
pub const NUMBER: &str = "NUMBER";

/// The name of [`Argument::Listen`].
pub const LISTEN: &str = "LISTEN";

/// The name of [`Argument::Stations`].
pub const STATIONS: &str = "STATIONS";

/// The name of [`Argument::Record`].
pub const RECORD: &str = "RECORD";

/// What the word of an argument may be, to be read behind `is` or `is not`.
#[derive(Clone, Copy)]
pub struct ArgumentRule(pub Argument);

impl fmt::Display for ArgumentRule {
    fn fmt<W: fmt::Write>(&self, f: &mut fmt::Formatter<W>) -> fmt::Result {
        match self.0 {
            Argument::Command => write!(f, "replay, drill or serve"),
            Argument::Front | Argument::Up => write!(
                f,
                "an rtsp URL of at most {LONGEST_BASE} bytes with a host, perhaps a port, and nothing else"
            ),
            Argument::Clients => write!(f, "a number from 1 to {MOST_CLIENTS}"),
            Argument::Number => write!(f, "a number of 1 to {NUMBER_DIGITS} digits"),
            Argument::Listen => write!(
                f,
                "a host and a port, of 1 to {LONGEST_NAME} bytes, of which the first is no -"
            ),
            Argument::Stations => write!(f, "a number from 1 to {MOST_STATIONS}"),
            Argument::Record => write!(
                f,
                "a file's name of 1 to {LONGEST_NAME} bytes, of which the first is no -"
            ),
        }
    }
}

/// What the help says behind the [`ArgumentRule`] of an argument.
#[derive(Clone, Copy)]
pub struct Detail(pub Argument);

impl fmt::Display for Detail {
    fn fmt<W: fmt::Write>(&self, f: &mut fmt::Formatter<W>) -> fmt::Result {
        match self.0 {
            Argument::Front | Argument::Up => {
                write!(
                    f,
                    ";\n            where it has no port, that is {DEFAULT_PORT}"
                )
            }
            Argument::Clients => write!(f, ", in at most {CLIENTS_DIGITS} digits"),
            Argument::Stations => write!(f, ", in at most {STATIONS_DIGITS} digits"),
            _ => Ok(()),
        }
    }
}
