//! The commands as clap knows them. It hands out their words by name.
ghost use Rattle.std.specs.Prelude.{◌≡◌, true, IfOk, Some, map};
ghost use Rattle.std.specs.Option.{IsSome};
ghost use Rattle.clap.specs.Words.{app_of, found_of, first_value, kind_of, new_app, takes, HasMatchesOf};
ghost use Rattle.command_line.specs.Words.{replay_word, drill_word};
ghost use Rattle.command_line.specs.ClapCommands.{with_needed, clap_line, serve_line, IsClapLine, IsServeLine, replay_app, drill_app, serve_app};

use crate::arguments::{CLIENTS, FRONT, LISTEN, NUMBER, RECORD, STATIONS, UP};
use clap::error::ErrorKind;
use clap::{Arg, ArgMatches, Command, Error};
use gate_bytes::Memory;
use std::alloc::{AllocError, Global};

/// The words of a replay.
const REPLAY_WORDS: [&str; 2] = [FRONT, UP];

/// The words of a drill.
const DRILL_WORDS: [&str; 2] = [CLIENTS, NUMBER];

/// The words of `serve`.
const SERVE_WORDS: [&str; 5] = [FRONT, UP, LISTEN, STATIONS, RECORD];

/// The words of a command of two, as clap handed them out.
#[derive(Clone, Copy)]
pub struct TwoWords<'a> {
    /// The first.
    pub one: &'a str,
    /// The second.
    pub other: &'a str,
}

/// The words of `serve`, as clap handed them out.
#[derive(Clone, Copy)]
pub struct ServeWords<'a> {
    /// The address by which players name the gateway.
    pub front: &'a str,
    /// The address of the media server.
    pub up: &'a str,
    /// The address at which players are awaited.
    pub listen: &'a str,
    /// How many players are served side by side.
    pub stations: &'a str,
    /// The file of the recording.
    pub recorder: &'a str,
}

/// A command whose words have these names. Each of them is needed.
fn command_of<'a>(alloc: Global, name: &'a str, ids: &[&'a str]) -> Result<Command<'a>, AllocError>
    ensures { IfOk result (λ command.
        app_of command ≡ with_needed (new_app name.now) (map (λ id. id.now) ids.now)) }
{
    let mut command = Command::new(alloc, name);
    let mut ids = ids;
    while let [id, more @ ..] = ids {
        command = command.arg(Arg::new(alloc, *id).required(true))?;
        ids = more;
    }
    Ok(command)
}

/// The command that replays a transcript.
fn replay_command<'a>(alloc: Global) -> Result<Command<'a>, AllocError>
    ensures { IfOk result (λ command. app_of command ≡ replay_app) }
{
    command_of(alloc, "replay", REPLAY_WORDS.as_slice())
}

/// The command that plays a drill.
fn drill_command<'a>(alloc: Global) -> Result<Command<'a>, AllocError>
    ensures { IfOk result (λ command. app_of command ≡ drill_app) }
{
    command_of(alloc, "drill", DRILL_WORDS.as_slice())
}

/// The command that serves players.
fn serve_command<'a>(alloc: Global) -> Result<Command<'a>, AllocError>
    ensures { IfOk result (λ command. app_of command ≡ serve_app) }
{
    command_of(alloc, "serve", SERVE_WORDS.as_slice())
}

/// What clap makes of a line that the command takes.
fn matches_in<'a>(command: Command<'a>, line: &'a [&'a str]) -> Result<ArgMatches<'a>, Memory>
    requires { takes (app_of command) (map (λ word. word.now) line.now) ≡ true }
    ensures { IfOk result (HasMatchesOf (app_of command.entry) (map (λ word. word.now) line.now)) }
{
    match command.try_get_matches_from(line) {
        Ok(matches) => Ok(matches),
        Err(error) => Err(want_of_memory(error)),
    }
}

/// What an error of clap can be alone where it takes the words.
fn want_of_memory(error: Error) -> Memory
    requires { kind_of error ≡ ErrorKind.OutOfMemory }
{
    drop(error);
    Memory
}

/// The word that was found by this name.
fn word_by<'a>(matches: &ArgMatches<'a>, id: &str) -> &'a str
    requires { IsSome (first_value (found_of matches.now) id.now) }
    ensures { first_value (found_of matches.now) id.now ≡ Some result.now }
{
    matches.get_str(id).unwrap()
}

/// The words of a replay, as clap hands them out by name.
pub fn replay_words<'a>(alloc: Global, line: &'a [&'a str]) -> Result<TwoWords<'a>, Memory>
    requires { IsClapLine replay_word (map (λ word. word.now) line.now) }
    ensures { IfOk result (λ named.
        map (λ word. word.now) line.now ≡ clap_line replay_word named.one.now named.other.now) }
{
    let command = replay_command(alloc)?;
    let matches = matches_in(command, line)?;
    Ok(TwoWords {
        one: word_by(&matches, FRONT),
        other: word_by(&matches, UP),
    })
}

/// The words of a drill, as clap hands them out by name.
pub fn drill_words<'a>(alloc: Global, line: &'a [&'a str]) -> Result<TwoWords<'a>, Memory>
    requires { IsClapLine drill_word (map (λ word. word.now) line.now) }
    ensures { IfOk result (λ named.
        map (λ word. word.now) line.now ≡ clap_line drill_word named.one.now named.other.now) }
{
    let command = drill_command(alloc)?;
    let matches = matches_in(command, line)?;
    Ok(TwoWords {
        one: word_by(&matches, CLIENTS),
        other: word_by(&matches, NUMBER),
    })
}

/// The words of `serve`, as clap hands them out by name.
pub fn serve_words<'a>(alloc: Global, line: &'a [&'a str]) -> Result<ServeWords<'a>, Memory>
    requires { IsServeLine (map (λ word. word.now) line.now) }
    ensures { IfOk result (λ named.
        map (λ word. word.now) line.now
        ≡ serve_line named.front.now named.up.now named.listen.now named.stations.now named.recorder.now) }
{
    let command = serve_command(alloc)?;
    let matches = matches_in(command, line)?;
    Ok(ServeWords {
        front: word_by(&matches, FRONT),
        up: word_by(&matches, UP),
        listen: word_by(&matches, LISTEN),
        stations: word_by(&matches, STATIONS),
        recorder: word_by(&matches, RECORD),
    })
}
