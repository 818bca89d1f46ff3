//! A source and a sink in memory, and a list of numbers.

use crate::draft::{Draft, boxed, calm, push};
use gate_bytes::Text;
use gate_outside::{MemorySink, MemorySource, Numbers, Script, Source, write_all};
use std::alloc::Global;
use test_text::{CaseAnswer, CaseFault, first_number, first_word, meant};

/// A source, the buffer into which it is read, and a sink.
#[derive(Drop)]
pub struct StreamsPlay {
    source: Box<MemorySource>,
    buffer: [u8; 20],
    sink: Box<MemorySink>,
}

impl StreamsPlay {
    /// A source that is empty, and a sink to which nothing was written.
    pub fn new(alloc: Global) -> Result<StreamsPlay, CaseFault> {
        Ok(StreamsPlay {
            source: boxed(alloc, MemorySource::new(Text::new(alloc), calm(alloc)))?,
            buffer: [0; 20],
            sink: boxed(alloc, MemorySink::new(alloc, calm(alloc)))?,
        })
    }

    /// A source of the bytes that a body means, which behaves as the draft says.
    pub fn open(&mut self, alloc: Global, draft: &mut Draft, body: &[u8], answer: &mut CaseAnswer) {
        match new_source(alloc, body, draft.take_script(alloc)) {
            Ok(source) => self.source = source,
            Err(fault) => answer.fail(fault),
        }
    }

    /// A sink that behaves as the draft says.
    pub fn make_sink(&mut self, alloc: Global, draft: &mut Draft, answer: &mut CaseAnswer) {
        match boxed(alloc, MemorySink::new(alloc, draft.take_script(alloc))) {
            Ok(sink) => self.sink = sink,
            Err(fault) => answer.fail(fault),
        }
    }

    /// Reads the source once. The answer and the whole buffer are told.
    pub fn read(&mut self, alloc: Global, answer: &mut CaseAnswer) {
        answer.push_debug(alloc, &self.source.read(&mut self.buffer));
        answer.push(b" ");
        answer.push_shown(&self.buffer);
    }

    /// Writes the bytes that a body means to the sink.
    pub fn write(&mut self, alloc: Global, body: &[u8], answer: &mut CaseAnswer) {
        match meant(alloc, body) {
            Ok(bytes) => write(alloc, &mut self.sink, bytes.as_bytes(), answer),
            Err(fault) => answer.fail(fault),
        }
    }

    /// What was written to the sink is told.
    pub fn tell_sink(&self, answer: &mut CaseAnswer) {
        answer.push_shown(self.sink.as_bytes());
    }
}

/// A source of the bytes that a body means, which behaves so.
fn new_source(alloc: Global, body: &[u8], script: Script) -> Result<Box<MemorySource>, CaseFault> {
    let bytes = meant(alloc, body)?;
    boxed(alloc, MemorySource::new(bytes, script))
}

/// Writes bytes to a sink, and tells whether it took them all.
fn write(alloc: Global, sink: &mut MemorySink, bytes: &[u8], answer: &mut CaseAnswer) {
    answer.push_debug(alloc, &write_all(sink, bytes));
}

/// Tells of the list of the numbers of a line whether it was empty first, how many it has, the one at place 2, and whether it
/// holds 0 and 1. A word that is no number stands for the greatest one.
pub fn tell_numbers(alloc: Global, line: &[u8], answer: &mut CaseAnswer) {
    let mut numbers = Numbers::new(alloc);
    let was_empty = numbers.is_empty();
    let mut left = line;
    for _ in 0..line.len() {
        if left.is_empty() {
            break;
        }
        let (word, more) = first_word(left);
        match first_number(word) {
            Some((number, _)) => push(&mut numbers, number, answer),
            None => push(&mut numbers, u64::MAX, answer),
        }
        left = more;
    }
    answer.push_debug(alloc, &was_empty);
    tell_list(alloc, &numbers, answer);
}

/// How many numbers a list has is told, the one at place 2, and whether it holds 0 and 1.
fn tell_list(alloc: Global, numbers: &Numbers, answer: &mut CaseAnswer) {
    if numbers.len() < 3 {
        return answer.unreadable();
    }
    answer.push(b", ");
    answer.push_number(numbers.len() as u64);
    answer.push(b", ");
    answer.push_number(*numbers.at(2));
    answer.push(b", ");
    let numbers = numbers.as_slice();
    answer.push_debug(alloc, &[numbers.contains(&0), numbers.contains(&1)]);
}
