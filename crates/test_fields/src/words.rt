//! The words of a case.

use gate_bytes::Text;
use std::alloc::Global;
use std::str;
use test_text::{CaseAnswer, CaseFault, first_word, meant};

/// What is left of a case's line. Spaces part its words.
#[derive(Clone, Copy)]
pub struct Words<'a> {
    /// What makes the texts.
    pub alloc: Global,
    /// The bytes that all words mean.
    pub whole: &'a [u8],
    left: &'a [u8],
}

impl<'a> Words<'a> {
    /// The words of a text, which means these bytes as a whole.
    pub fn new(alloc: Global, left: &'a [u8], whole: &'a [u8]) -> Words<'a> {
        Words { alloc, whole, left }
    }

    /// Whether nothing is left.
    pub fn is_empty(&self) -> bool {
        self.left.is_empty()
    }

    /// The next word as it stands.
    fn word(&mut self) -> &'a [u8] {
        let (word, left) = first_word(self.left);
        self.left = left;
        word
    }

    /// The next word, where it is a name.
    pub fn name(&mut self) -> &'a str {
        name_in(self.word())
    }

    /// The bytes that the next word means; none where no word is left.
    pub fn next(&mut self, answer: &mut CaseAnswer) -> Text {
        let word = self.word();
        read_meant(self.alloc, word, answer)
    }

    /// The bytes that all that is left means.
    pub fn all(&self, answer: &mut CaseAnswer) -> Text {
        read_meant(self.alloc, self.left, answer)
    }

    /// The number that the next word is; none where it is no number.
    pub fn optional_number(&mut self) -> Option<u64> {
        self.name().parse().ok()
    }

    /// The number that the next word is.
    pub fn number(&mut self, answer: &mut CaseAnswer) -> u64 {
        match self.optional_number() {
            Some(number) => number,
            None => {
                answer.unreadable();
                0
            }
        }
    }

    /// The number below 2 to the power of 32 that the next word is.
    pub fn short(&mut self, answer: &mut CaseAnswer) -> u32 {
        match u32::try_from(self.number(answer)) {
            Ok(number) => number,
            Err(_fault) => {
                answer.unreadable();
                0
            }
        }
    }

    /// The number below 256 that the next word is.
    pub fn byte(&mut self, answer: &mut CaseAnswer) -> u8 {
        match u8::try_from(self.number(answer)) {
            Ok(number) => number,
            Err(_fault) => {
                answer.unreadable();
                0
            }
        }
    }

    /// The number below 65,536 that the next word is.
    pub fn small(&mut self, answer: &mut CaseAnswer) -> u16 {
        match u16::try_from(self.number(answer)) {
            Ok(number) => number,
            Err(_fault) => {
                answer.unreadable();
                0
            }
        }
    }
}

/// The name that a word is; the empty one, which is none, where it is no text.
pub fn name_in(word: &[u8]) -> &str {
    match str::from_utf8(word) {
        Ok(name) => name,
        Err(_fault) => "",
    }
}

/// The bytes that a text means.
pub fn read_meant(alloc: Global, text: &[u8], answer: &mut CaseAnswer) -> Text {
    match meant(alloc, text) {
        Ok(bytes) => bytes,
        Err(fault) => {
            answer.fail(fault);
            Text::new(alloc)
        }
    }
}

/// A copy of bytes.
pub fn copy_of(alloc: Global, bytes: &[u8], answer: &mut CaseAnswer) -> Text {
    match Text::copy(alloc, bytes) {
        Ok(copy) => copy,
        Err(_memory) => {
            answer.fail(CaseFault::Memory);
            Text::new(alloc)
        }
    }
}

/// These bytes, where there is one.
pub fn some_of(bytes: &[u8]) -> Option<&[u8]> {
    if bytes.is_empty() { None } else { Some(bytes) }
}
