//! Scripts: lines that are played one after another, and told with what came.

use crate::{CaseAnswer, CaseFault, CasesFault, next_line};
use gate_bytes::Text;
use std::alloc::Global;

/// What the lines of a script are played at.
pub trait CasePlayer {
    /// Plays a line, which is not empty and does not begin with `#`, and tells what came.
    fn play(&mut self, alloc: Global, line: &[u8], answer: &mut CaseAnswer);
}

/// Plays all lines. Each is told with what came: behind a colon, or in the lines below it.
pub fn play_all<P: CasePlayer>(
    alloc: Global,
    script: &[u8],
    play: &mut P,
) -> Result<Text, CasesFault> {
    let mut told = CaseAnswer::new(alloc);
    let mut left = script;
    for number in 1..u64::MAX {
        let Some((line, rest)) = next_line(left) else {
            break;
        };
        left = rest;
        if let Err(fault) = play_line(alloc, line, play, &mut told) {
            return Err(fault.at(number));
        }
    }
    match told.done() {
        Ok(text) => Ok(text),
        Err(_fault) => Err(CasesFault::Memory),
    }
}

/// Plays a line, and tells it with what came.
fn play_line<P: CasePlayer>(
    alloc: Global,
    line: &[u8],
    play: &mut P,
    told: &mut CaseAnswer,
) -> Result<(), CaseFault> {
    let mut answer = CaseAnswer::new(alloc);
    if !line.is_empty() && !line.starts_with(b"#") {
        play.play(alloc, line, &mut answer);
    }
    tell_line(line, answer.as_bytes(), told);
    match answer.fault() {
        None => Ok(()),
        Some(fault) => Err(fault),
    }
}

/// Tells a line and what came: behind a colon, or in the lines below it.
fn tell_line(line: &[u8], answer: &[u8], told: &mut CaseAnswer) {
    told.push(line);
    if answer.starts_with(b"\n") {
        told.push(b":");
    } else if !answer.is_empty() {
        told.push(b": ");
    }
    told.push(answer);
    if !answer.ends_with(b"\n") {
        told.push(b"\n");
    }
}
