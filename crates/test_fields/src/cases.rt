//! Cases, one after another.

use crate::books::FieldBooks;
use crate::words::{Words, name_in, read_meant};
use crate::{bytes, code, command, head, longer, one, small, stream, two, uri};
use gate_bytes::{Memory, Text};
use rtsp_frame::Framer;
use std::alloc::Global;
use test_text::{CaseAnswer, CasePlayer, CasesFault, first_word, play_all};

/// All readers and writers that cases are handed to: what they keep from case to case.
#[derive(Drop)]
struct Readers {
    /// The framer of what comes bit by bit.
    framer: Framer,
    /// The books.
    books: FieldBooks,
}

impl CasePlayer for Readers {
    fn play(&mut self, alloc: Global, line: &[u8], answer: &mut CaseAnswer) {
        let (word, left) = first_word(line);
        let name = name_in(word);
        let whole = read_meant(alloc, left, answer);
        let words = Words::new(alloc, left, whole.as_bytes());
        let is_told = bytes::tell(name, words, answer)
            || small::tell(name, words, answer)
            || longer::tell(name, words, answer)
            || uri::tell(name, words, answer)
            || head::tell(name, words, answer)
            || tell_line(name, words, answer)
            || stream::tell(&mut self.framer, name, words, answer)
            || self.books.tell(name, words, answer);
        if !is_told {
            answer.unreadable();
        }
    }
}

impl Readers {
    /// Nothing has come.
    fn new(alloc: Global) -> Result<Readers, Memory> {
        let books = FieldBooks::new(alloc)?;
        Ok(Readers {
            framer: Framer::new(alloc),
            books,
        })
    }
}

/// Tells the answer of a case with a message, a code or words of the command line; whether it is one.
fn tell_line(name: &str, words: Words<'_>, answer: &mut CaseAnswer) -> bool {
    match name {
        "request" => one::tell_request(words, answer),
        "write-reply" => one::tell_reply(words, answer),
        "reply" => two::tell_reply(words, answer),
        "ask" => two::tell_ask(words, answer),
        "write-request" => two::tell_request(words, answer),
        "write-answer" => two::tell_answer(words, answer),
        "status" => code::tell_status(words, answer),
        "reason" => code::tell_reason(words, answer),
        "words" => command::tell_words(words, answer),
        "refusal" => command::tell_refusal(words, answer),
        "usage" => command::tell_usage(words, answer),
        _ => return false,
    }
    true
}

/// Tells the answer of each case.
pub fn tell_cases(alloc: Global, cases: &[u8]) -> Result<Text, CasesFault> {
    match Readers::new(alloc) {
        Ok(mut readers) => play_all(alloc, cases, &mut readers),
        Err(_memory) => Err(CasesFault::Memory),
    }
}
