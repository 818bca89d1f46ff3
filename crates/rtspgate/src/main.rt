//! rtspgate: a gateway between players of RTSP 1.0 and a server of RTSP 2.0.
#![tactic(auto)]

mod flush;
mod gateway;
mod plain;
mod serve;
mod standard;
mod tables;

use crate::standard::run_between;
use crate::tables::end_of_help;
use command_line::{
    Argument, Form, LONGEST_NAME, command_help, given_for, program_help, program_version,
    refusal_line, usage_for,
};
use run_status::Status;
use serve_world_tcp::TcpWorld;
use std::alloc::AllocError;
use std::env::{Env, FillError};
use std::io::ErrorKind;
use std::process::ExitCode;
use std::{env, io, str};

/// Where a word that is no UTF-8 is looked for, one of more bytes is told in its place: no word may have as many.
const WORD_ROOM: usize = LONGEST_NAME + 1;

fn main(rt: HostRuntime) -> ExitCode {
    let words = match words_of(&rt) {
        Ok(words) => words,
        Err(status) => return tell_no_words(&rt, status),
    };
    let words = words.as_slice();
    match request_in(words) {
        Request::Help(form) => print_text(&rt, help_of(&rt, form)),
        Request::Version => print_text(&rt, program_version(rt.alloc())),
        Request::Run => {
            let mut world = TcpWorld::new(&rt, rt, rt.alloc()).for_players(players_in(words));
            let status = run_between(
                &rt,
                rt.alloc(),
                words,
                &mut rt.reader(),
                &mut io::writer(&rt),
                &mut world,
            );
            tell_end(&rt, words, status, world.refusal())
        }
    }
}

/// What the words ask for.
#[derive(Clone, Copy)]
enum Request {
    /// The help of a command, or of the program.
    Help(Option<Form>),
    /// The program's version.
    Version,
    /// What the top call does, which may be to refuse them.
    Run,
}

/// The words behind the program's name, or how a run ends that can't have them.
fn words_of(rt: &HostRuntime) -> Result<Vec<String>, Status> {
    match read_words_of(rt) {
        Ok(words) => Ok(words),
        Err(error) if error.kind() == ErrorKind::InvalidData => Err(Status::Usage {
            place: place_of_no_text(rt),
        }),
        Err(_) => Err(Status::Memory),
    }
}

/// The words behind the program's name.
fn read_words_of(rt: &HostRuntime) -> io::Result<Vec<String>> {
    let mut words = Vec::new(rt.alloc());
    for word in env::args(rt)?.skip(1) {
        words.push(word)?;
    }
    Ok(words)
}

/// The place of the first word that is no UTF-8, or has more than [`WORD_ROOM`] bytes.
fn place_of_no_text(rt: &HostRuntime) -> usize {
    let mut word = [0u8; WORD_ROOM];
    for place in 1..usize::MAX {
        match rt.arg(place, &mut word) {
            Ok(length) if str::from_utf8(&word[..length]).is_ok() => {}
            Ok(_) | Err(FillError::TooLong) => return place - 1,
            Err(FillError::NotPresent) => break,
        }
    }
    0
}

/// What these words ask for. Help and the version are asked for by these words alone.
fn request_in(words: &[String]) -> Request {
    match words {
        [word] if word.as_str() == "--help" => Request::Help(None),
        [word] if word.as_str() == "--version" => Request::Version,
        [command, word] if word.as_str() == "--help" => match Form::named(command.as_str()) {
            Some(form) => Request::Help(Some(form)),
            None => Request::Run,
        },
        _ => Request::Run,
    }
}

/// What tells of a command, or of the program.
fn help_of(rt: &HostRuntime, form: Option<Form>) -> Result<String, AllocError> {
    let end = end_of_help(rt.alloc(), form)?;
    match form {
        Some(form) => command_help(rt.alloc(), form, end.as_str()),
        None => program_help(rt.alloc(), end.as_str()),
    }
}

/// Prints a text, where there was memory for it, and tells how that ended.
fn print_text(rt: &HostRuntime, text: Result<String, AllocError>) -> ExitCode {
    let status = match text {
        Ok(text) => match print!(rt; "{text}") {
            Ok(()) => Status::Done,
            Err(_) => Status::SinkFault,
        },
        Err(_) => Status::Memory,
    };
    tell_end(rt, &[], status, None)
}

/// How many players these words have served at once, where they say so.
fn players_in(words: &[String]) -> Option<u8> {
    given_for(words, Argument::Stations)?.parse().ok()
}

/// The exit status of a run that can't have its words, which the fault line tells, and where one is no UTF-8 a line behind it.
fn tell_no_words(rt: &HostRuntime, status: Status) -> ExitCode {
    let _ = match status {
        Status::Usage { place } => eprintln!(rt; "rtspgate: {status}\nword {place} is not UTF-8"),
        _ => eprintln!(rt; "rtspgate: {status}"),
    };
    ExitCode::from(status.exit_code())
}

/// The exit status of a run that ended so, which stands also where standard error can't be written.
fn tell_end(
    rt: &HostRuntime,
    words: &[String],
    status: Status,
    refusal: Option<io::Error>,
) -> ExitCode {
    let _ = tell_fault(rt, words, status, refusal);
    ExitCode::from(status.exit_code())
}

/// Prints the fault line of a run that did not end well, and then what is known of it.
fn tell_fault(
    rt: &HostRuntime,
    words: &[String],
    status: Status,
    refusal: Option<io::Error>,
) -> io::Result<()> {
    if status == Status::Done {
        return Ok(());
    }
    eprintln!(rt; "rtspgate: {status}")?;
    tell_more(rt, words, status, refusal)
}

/// Prints what is known of an end beside its fault line: the word that is refused, or what could not be had, and why.
fn tell_more(
    rt: &HostRuntime,
    words: &[String],
    status: Status,
    refusal: Option<io::Error>,
) -> io::Result<()> {
    match status {
        Status::Usage { place } => tell_refusal(rt, words, place),
        Status::ListenFault | Status::AcceptFault => {
            tell_cause(rt, words, status, Argument::Listen, refusal)
        }
        Status::RecordFault => tell_cause(rt, words, status, Argument::Record, refusal),
        Status::DialFault => tell_cause(rt, words, status, Argument::Up, refusal),
        _ => Ok(()),
    }
}

/// Prints what is wrong with the word at a place, and the usage of its command.
fn tell_refusal(rt: &HostRuntime, words: &[String], place: usize) -> io::Result<()> {
    let line = refusal_line(rt.alloc(), words, place)?;
    let usage = usage_for(rt.alloc(), words)?;
    eprintln!(rt; "{line}\n{usage}")
}

/// Prints what a fault is about, and why the system refused it, where that is known.
fn tell_cause(
    rt: &HostRuntime,
    words: &[String],
    status: Status,
    argument: Argument,
    refusal: Option<io::Error>,
) -> io::Result<()> {
    let given = given_for(words, argument).unwrap_or("");
    match refusal {
        Some(reason) => eprintln!(rt; "{status}: {given}: {reason}"),
        None => eprintln!(rt; "{status}: {given}"),
    }
}
