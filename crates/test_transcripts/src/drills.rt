//! Drills, their draws, and their server.

use crate::replays::script;
use crate::target::{keep, number_in};
use drill_run::drill;
use drill_server::{Draw, DrillServer};
use gate_outside::MemorySink;
use std::alloc::Global;
use std::str;
use test_text::{CaseAnswer, CaseFault, first_word, meant};

/// The most bytes that the plain server is handed at once.
const PIECE: usize = 9;

/// Draws numbers below those of a line, from its first number on, and tells them.
pub fn tell_draws(line: &[u8], answer: &mut CaseAnswer) {
    let (number, bounds) = first_word(line);
    let mut draw = Draw::new(number_in(number));
    let mut left = bounds;
    answer.push(b"\n=");
    for _ in 0..bounds.len() {
        if left.is_empty() {
            break;
        }
        let (bound, rest) = first_word(left);
        left = rest;
        answer.push(b" ");
        answer.push_number(draw.below(number_in(bound).max(1)));
    }
}

/// Does what a line says to the plain server, and tells what comes.
pub fn ask_server(alloc: Global, server: &mut DrillServer, line: &[u8], answer: &mut CaseAnswer) {
    let (word, rest) = first_word(line);
    match str::from_utf8(word).unwrap_or("") {
        "feed" => keep(feed(alloc, server, rest), answer),
        "pending" => answer.push_number(server.pending() as u64),
        "turn" => tell_turn(alloc, server, answer),
        _ => answer.unreadable(),
    }
}

/// Hands a server the bytes that a text means.
fn feed(alloc: Global, server: &mut DrillServer, text: &[u8]) -> Result<(), CaseFault> {
    let bytes = meant(alloc, text)?;
    for piece in bytes.as_bytes().chunks(PIECE) {
        server.feed(alloc, piece)?;
    }
    Ok(())
}

/// Has a server answer its oldest request, and tells the answer. Where none waits the line can't be read.
fn tell_turn(alloc: Global, server: &mut DrillServer, answer: &mut CaseAnswer) {
    if server.pending() == 0 {
        return answer.unreadable();
    }
    match server.turn(alloc) {
        Ok(text) => {
            answer.push(b"\n= ");
            answer.push_shown(text.as_bytes());
        }
        Err(_memory) => answer.fail(CaseFault::Memory),
    }
}

/// Plays the drill of a line, and tells its status and what its sink took.
pub fn tell_drill(alloc: Global, line: &[u8], answer: &mut CaseAnswer) {
    let (players, line) = first_word(line);
    let (number, line) = first_word(line);
    let (piece, call) = first_word(line);
    let players = u32::try_from(number_in(players)).unwrap_or(0);
    let Ok(script) = script(alloc, number_in(piece), number_in(call)) else {
        return answer.fail(CaseFault::Memory);
    };
    let mut sink = MemorySink::new(alloc, script);
    let status = drill(alloc, players, number_in(number), &mut sink);
    answer.push(b"\n= ");
    answer.push_debug(alloc, &status);
    answer.push(b"\n= ");
    answer.push_shown(sink.as_bytes());
}
