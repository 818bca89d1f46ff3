//! Commands, as their words spell them.

use crate::words::Words;
use command_line::{Command, ServeOptions, WordsFault, read_words, refusal_line, usage_for};
use rtsp_uri::Bases;
use std::alloc::{AllocError, Global};
use std::str;
use test_text::{CaseAnswer, CaseFault};

/// Tells the command that words spell, or the place of the first that is refused.
pub fn tell_words(words: Words<'_>, answer: &mut CaseAnswer) {
    let list = words_of(words, answer);
    match read_words(words.alloc, list.as_slice()) {
        Ok(Command::Replay(bases)) => push_bases(answer, b"replay between ", &bases),
        Ok(Command::Drill(clients, number)) => push_drill(answer, clients, number),
        Ok(Command::Serve(options)) => push_options(answer, &options),
        Err(WordsFault::Memory) => answer.fail(CaseFault::Memory),
        Err(WordsFault::Place(place)) => {
            answer.push(b"refused at ");
            answer.push_number(place as u64);
        }
    }
}

/// The texts that all words mean.
fn words_of(mut words: Words<'_>, answer: &mut CaseAnswer) -> Vec<String> {
    let mut list = Vec::new(words.alloc);
    for _ in 0..u64::MAX {
        if words.is_empty() {
            break;
        }
        let word = words.next(answer);
        if let Err(fault) = push_word(words.alloc, &mut list, word.as_bytes()) {
            answer.fail(fault);
        }
    }
    list
}

/// Appends a word.
fn push_word(alloc: Global, list: &mut Vec<String>, word: &[u8]) -> Result<(), CaseFault> {
    match str::from_utf8(word) {
        Ok(word) => Ok(list.push(String::from_str(alloc, word)?)?),
        Err(_fault) => Err(CaseFault::Unreadable),
    }
}

/// Tells two numbers of a drill.
fn push_drill(answer: &mut CaseAnswer, clients: u32, number: u64) {
    answer.push(b"drill ");
    answer.push_number(u64::from(clients));
    answer.push(b" from ");
    answer.push_number(number);
}

/// Tells the two sides of a run behind a word.
fn push_bases(answer: &mut CaseAnswer, name: &[u8], bases: &Bases) {
    answer.push(name);
    answer.push(bases.front.text.as_bytes());
    answer.push(b" and ");
    answer.push(bases.up.text.as_bytes());
}

/// Tells how players are served.
fn push_options(answer: &mut CaseAnswer, options: &ServeOptions) {
    push_bases(answer, b"serve between ", &options.bases);
    answer.push(b" at ");
    answer.push(options.listen.as_bytes());
    answer.push(b" by ");
    answer.push_number(u64::from(options.stations));
    answer.push(b" recorded in ");
    answer.push(options.recorder.as_bytes());
}

/// Tells what is wrong with the first of some words that is refused.
pub fn tell_refusal(words: Words<'_>, answer: &mut CaseAnswer) {
    let alloc = words.alloc;
    let list = words_of(words, answer);
    match read_words(alloc, list.as_slice()) {
        Ok(_) => answer.push(b"none"),
        Err(WordsFault::Memory) => answer.fail(CaseFault::Memory),
        Err(WordsFault::Place(place)) => {
            push_text(answer, refusal_line(alloc, list.as_slice(), place))
        }
    }
}

/// Tells the usage that these words ask for.
pub fn tell_usage(words: Words<'_>, answer: &mut CaseAnswer) {
    let alloc = words.alloc;
    let list = words_of(words, answer);
    push_text(answer, usage_for(alloc, list.as_slice()));
}

/// Tells a text that was made.
fn push_text(answer: &mut CaseAnswer, text: Result<String, AllocError>) {
    match text {
        Ok(text) => answer.push_shown(text.as_bytes()),
        Err(AllocError) => answer.fail(CaseFault::Memory),
    }
}
