//! The usage and the help, from the table of arguments. `clap` lays them out.

use crate::arguments::{ARGUMENTS, Argument, ArgumentRule, Detail, FORMS, Form};
use crate::word_faults::form_of;
use clap::Command;
use std::alloc::{AllocError, Global};

/// The program's name.
const PROGRAM: &str = "rtspgate";

/// What the program is.
const ABOUT: &str = "A gateway between players of RTSP 1.0 and a server of RTSP 2.0.";

/// The usage of the command that words begin with, and of all commands where they begin with none.
///
/// # Errors
///
/// An [`AllocError`] where memory ran out.
pub fn usage_for(alloc: Global, words: &[String]) -> Result<String, AllocError> {
    let calls = match form_of(words) {
        Some(form) => call_of(alloc, form)?,
        None => all_calls(alloc)?,
    };
    told(alloc, ABOUT, calls.as_str(), "").render_usage()
}

/// The help of one command, with a text at its end.
///
/// # Errors
///
/// An [`AllocError`] where memory ran out.
pub fn command_help(alloc: Global, form: Form, more: &str) -> Result<String, AllocError> {
    let call = call_of(alloc, form)?;
    let end = end_of_help(alloc, form.arguments(), more)?;
    told(alloc, form.about(), call.as_str(), end.as_str()).render_help()
}

/// The help of the program, with a text at its end.
///
/// # Errors
///
/// An [`AllocError`] where memory ran out.
pub fn program_help(alloc: Global, more: &str) -> Result<String, AllocError> {
    let calls = all_calls(alloc)?;
    let end = end_of_help(alloc, ARGUMENTS.as_slice(), more)?;
    let mut program = told(alloc, ABOUT, calls.as_str(), end.as_str());
    for form in &FORMS {
        let command = Command::new(alloc, form.name()).about(form.about());
        program = program.subcommand(command)?;
    }
    program.render_help()
}

/// The program's name and version.
///
/// # Errors
///
/// An [`AllocError`] where memory ran out.
pub fn program_version(alloc: Global) -> Result<String, AllocError> {
    told(alloc, ABOUT, "", "").render_version()
}

/// The program as clap tells of it, with these texts.
fn told<'a>(alloc: Global, about: &'a str, usage: &'a str, end: &'a str) -> Command<'a> {
    Command::new(alloc, PROGRAM)
        .version("0.1.0")
        .about(about)
        .override_usage(usage)
        .after_help(end)
        .disable_help_flag(true)
        .disable_version_flag(true)
        .disable_help_subcommand(true)
}

/// How all commands are called: a line for each.
fn all_calls(alloc: Global) -> Result<String, AllocError> {
    let mut text = String::new(alloc);
    for form in &FORMS {
        push_call(&mut text, *form)?;
        text.push_str("\n       ")?;
    }
    text.push_str("rtspgate [COMMAND] --help\n       rtspgate --version")?;
    Ok(text)
}

/// How a command is called.
fn call_of(alloc: Global, form: Form) -> Result<String, AllocError> {
    let mut text = String::new(alloc);
    push_call(&mut text, form)?;
    Ok(text)
}

/// Appends how a command is called.
fn push_call(text: &mut String, form: Form) -> Result<(), AllocError> {
    write!(text, "{PROGRAM} {}", form.name())?;
    for argument in form.arguments() {
        write!(text, " {}", argument.name())?;
    }
    Ok(())
}

/// The end of a help: what these words may be, and then a text.
fn end_of_help(alloc: Global, arguments: &[Argument], more: &str) -> Result<String, AllocError> {
    let mut text = String::from_str(alloc, "words:\n")?;
    for argument in arguments {
        push_argument(&mut text, *argument)?;
    }
    text.push_str(more)?;
    Ok(text)
}

/// Appends what an argument stands for, and what it may be.
fn push_argument(text: &mut String, argument: Argument) -> Result<(), AllocError> {
    let name = argument.name();
    let about = argument.about();
    let rule = ArgumentRule(argument);
    let detail = Detail(argument);
    write!(text, "  {name:<10}{about}:\n            {rule}{detail}\n")
}
