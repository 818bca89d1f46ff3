//! What is wrong with a word that is refused, as its writer is told.
ghost use Rattle.std.specs.Prelude.{◌≡◌, map, string_bytes};
ghost use Rattle.command_line.specs.Arguments.{form_of, argument_behind, argument_at};

use crate::arguments::{Argument, ArgumentRule, Form};
use crate::kinds::{CLIENTS_DIGITS, MOST_CLIENTS, STATIONS_DIGITS};
use crate::options::MOST_STATIONS;
use crate::words::first_word;
use gate_bytes::{MOST_DIGITS, read_decimal};
use std::alloc::{AllocError, Global};

/// The most characters of a word that are shown.
const MOST_SHOWN: usize = 64;

/// The command that words begin with.
pub fn form_of(words: &[String]) -> Option<Form>
    ensures { result ≡ form_of (map string_bytes words.now) }
{
    let (command, _) = first_word(words)?;
    Form::named(command)
}

/// The argument at a place, counted from 0 after the program's name, where the command itself stands. There is none where
/// no word belongs.
pub fn argument_at(words: &[String], place: usize) -> Option<Argument>
    ensures { result ≡ argument_at (map string_bytes words.now) place }
{
    if place == 0 {
        return Some(Argument::Command);
    }
    argument_behind(form_of(words), place - 1)
}

/// The argument at a place behind the command.
fn argument_behind(form: Option<Form>, place: usize) -> Option<Argument>
    ensures { result ≡ argument_behind form place }
{
    form?.arguments().get(place).copied()
}

/// What was given for an argument of the command that words begin with.
pub fn given_for(words: &[String], wanted: Argument) -> Option<&str> {
    let form = form_of(words)?;
    let (_, behind) = first_word(words)?;
    for (argument, word) in form.arguments().iter().zip(behind) {
        if *argument == wanted {
            return Some(word.as_str());
        }
    }
    None
}

/// What is wrong with the word at a place that is refused: the name of the argument, what was given for it, and what it may
/// be.
///
/// # Errors
///
/// An [`AllocError`] where memory ran out.
pub fn refusal_line(alloc: Global, words: &[String], place: usize) -> Result<String, AllocError> {
    match (argument_at(words, place), words.get(place)) {
        (Some(argument), Some(given)) => wrong_line(alloc, argument, given.as_str()),
        (Some(argument), None) => format!(in alloc; "{}: missing", argument.name()),
        (None, Some(given)) => surplus_line(alloc, given.as_str()),
        (None, None) => Ok(String::new(alloc)),
    }
}

/// What is wrong with what was given for an argument.
fn wrong_line(alloc: Global, argument: Argument, given: &str) -> Result<String, AllocError> {
    let name = argument.name();
    let shown = shown_part(alloc, given)?;
    let rule = ArgumentRule(argument);
    match digits_over(argument, given) {
        Some(most) => format!(in alloc; "{name}: '{shown}' has more than {most} digits"),
        None => format!(in alloc; "{name}: '{shown}' is not {rule}"),
    }
}

/// What is wrong with a word where none belongs.
fn surplus_line(alloc: Global, given: &str) -> Result<String, AllocError> {
    let shown = shown_part(alloc, given)?;
    format!(in alloc; "'{shown}' is one argument too many")
}

/// How many digits a count may have, where only their number is wrong.
fn digits_over(argument: Argument, given: &str) -> Option<u32> {
    let count = read_decimal(given.as_bytes(), MOST_DIGITS)?;
    match argument {
        Argument::Clients if 0 < count && count <= MOST_CLIENTS => Some(CLIENTS_DIGITS),
        Argument::Stations if 0 < count && count <= u64::from(MOST_STATIONS) => {
            Some(STATIONS_DIGITS)
        }
        _ => None,
    }
}

/// A word as it is shown on one line: its first characters, of which none moves the cursor.
fn shown_part(alloc: Global, word: &str) -> Result<String, AllocError> {
    let mut text = String::new(alloc);
    for one in word.chars().take(MOST_SHOWN) {
        text.push(if one.is_control() { '?' } else { one })?;
    }
    if word.chars().count() > MOST_SHOWN {
        text.push_str("..")?;
    }
    Ok(text)
}
