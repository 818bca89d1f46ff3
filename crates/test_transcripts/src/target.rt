//! What cases are played at.

use crate::calls::call;
use crate::drills::{ask_server, tell_draws, tell_drill};
use crate::entries::{call_reader, tell_reason, tell_written};
use crate::gateway::with_two_players;
use crate::recorders::{tell_kept, tell_recorded};
use crate::replays::{Cuts, How, tell_failures, tell_pieces, tell_replay};
use crate::statuses::tell_status;
use crate::trial::Trial;
use drill_server::DrillServer;
use gate_bytes::{Memory, Text, split_once};
use gate_transcript::{EntryReader, MAGIC};
use gateway_mux::Mux;
use std::alloc::Global;
use std::str;
use test_text::{
    CaseAnswer, CaseFault, CasePlayer, CasesFault, first_number, first_word, play_all, push_entry,
};

/// What cases are played at: the transcript of a case, and what is called step by step.
#[derive(Drop)]
struct Played {
    transcript: Text,
    reader: EntryReader,
    mux: Box<Mux>,
    server: DrillServer,
    trial: Box<Trial>,
}

/// Plays all cases, and tells what came.
pub fn tell_all(alloc: Global, script: &[u8]) -> Result<Text, CasesFault> {
    play_all(alloc, script, &mut begun(alloc)?)
}

/// What cases are played at first.
fn begun(alloc: Global) -> Result<Played, Memory> {
    Ok(Played {
        transcript: Text::copy(alloc, &MAGIC)?,
        mux: with_two_players(alloc)?,
        reader: EntryReader::new(alloc),
        server: DrillServer::new(alloc),
        trial: Trial::new(alloc)?,
    })
}

impl CasePlayer for Played {
    fn play(&mut self, alloc: Global, line: &[u8], answer: &mut CaseAnswer) {
        let (word, rest) = first_word(line);
        if word.len() == 1 || word == b"raw".as_slice() {
            keep(push_entry(alloc, &mut self.transcript, line), answer);
        } else {
            self.tell(alloc, str::from_utf8(word).unwrap_or(""), rest, answer);
        }
    }
}

impl Played {
    /// Does what a word of a transcript and the rest of its line say, and tells what came.
    fn tell(&mut self, alloc: Global, word: &str, rest: &[u8], answer: &mut CaseAnswer) {
        match word {
            "magic" => begin(&mut self.transcript, rest, answer),
            "each" => keep(push_each(alloc, &mut self.transcript, rest), answer),
            "run" => {
                run(alloc, self.transcript.as_bytes(), rest, answer);
                begin(&mut self.transcript, b"1", answer);
            }
            "mux" => call(alloc, &mut self.mux, rest, answer),
            _ => self.call(alloc, word, rest, answer),
        }
    }

    /// The same of a word that has to do with no transcript.
    fn call(&mut self, alloc: Global, word: &str, rest: &[u8], answer: &mut CaseAnswer) {
        match word {
            "reader" => call_reader(alloc, &mut self.reader, rest, answer),
            "reason" => tell_reason(alloc, rest, answer),
            "write" => tell_written(alloc, rest, answer),
            "status" => tell_status(alloc, rest, answer),
            _ => self.drill(alloc, word, rest, answer),
        }
    }

    /// The same of a word of drills or of one connection.
    fn drill(&mut self, alloc: Global, word: &str, rest: &[u8], answer: &mut CaseAnswer) {
        match word {
            "draw" => tell_draws(rest, answer),
            "server" => ask_server(alloc, &mut self.server, rest, answer),
            "drill" => tell_drill(alloc, rest, answer),
            _ => self.trial.tell(alloc, word, rest, answer),
        }
    }
}

/// Tells what a transcript gives, in the way that a line says.
fn run(alloc: Global, transcript: &[u8], line: &[u8], answer: &mut CaseAnswer) {
    let (word, rest) = first_word(line);
    answer.push(b"\n");
    match str::from_utf8(word).unwrap_or("") {
        "replay" => tell_pieces(alloc, How::Replay, transcript, &[1, 7], answer),
        "refuse" => tell_pieces(alloc, How::Refuse, transcript, &[1, 7], answer),
        "entries" => tell_pieces(alloc, How::Read, transcript, &[1, 2, 7, 9, 100], answer),
        "pieces" => tell_replay(alloc, How::Replay, transcript, &Cuts::read(rest), answer),
        "failures" => tell_failures(alloc, transcript, number_in(rest), answer),
        "record" => tell_recorded(alloc, transcript, number_in(rest), answer),
        "keep" => tell_kept(alloc, transcript, number_in(rest), answer),
        _ => answer.unreadable(),
    }
}

/// Begins a transcript.
fn begin(transcript: &mut Text, word: &[u8], answer: &mut CaseAnswer) {
    transcript.truncate(0);
    if word == b"1".as_slice() {
        keep(append(transcript, &MAGIC), answer);
    }
}

/// Appends bytes.
fn append(transcript: &mut Text, bytes: &[u8]) -> Result<(), CaseFault> {
    Ok(transcript.push_slice(bytes)?)
}

/// Appends an entry for each number from a first to a last.
fn push_each(alloc: Global, transcript: &mut Text, line: &[u8]) -> Result<(), CaseFault> {
    let (first, line) = first_number(line).ok_or(CaseFault::Unreadable)?;
    let (last, line) = first_number(line).ok_or(CaseFault::Unreadable)?;
    for number in first..=last {
        push_numbered(alloc, transcript, number, line)?;
    }
    Ok(())
}

/// Appends the entry of a line in which a number stands where `@` does.
fn push_numbered(
    alloc: Global,
    transcript: &mut Text,
    number: u64,
    line: &[u8],
) -> Result<(), CaseFault> {
    let Some((before, behind)) = split_once(b'@', line) else {
        return push_entry(alloc, transcript, line);
    };
    let mut numbered = CaseAnswer::new(alloc);
    numbered.push(before);
    numbered.push_number(number);
    numbered.push(behind);
    push_entry(alloc, transcript, numbered.as_bytes())
}

/// Keeps a fault, where there was one.
pub fn keep(done: Result<(), CaseFault>, answer: &mut CaseAnswer) {
    if let Err(fault) = done {
        answer.fail(fault);
    }
}

/// The number of at most 64 bits that a word is; the greatest where it is none.
pub fn number_in(word: &[u8]) -> u64 {
    match str::from_utf8(word).unwrap_or("").parse::<u64>() {
        Ok(number) => number,
        Err(_fault) => u64::MAX,
    }
}
