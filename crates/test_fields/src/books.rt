//! The books: what keeps something of what came, from case to case.

use crate::words::Words;
use crate::{keys, numbers, pairs, plays};
use channel_map::ChannelMap;
use connection_table::Directory;
use gate_bytes::Memory;
use play_queue::PlayQueue;
use session_two::Running;
use std::alloc::Global;
use test_text::CaseAnswer;
use text_pool::TextPool;
use up_books::{CseqBook, SessionBook};

/// One of each book, and two pools.
#[derive(Drop)]
pub struct FieldBooks {
    numbers: CseqBook,
    sessions: SessionBook,
    pairs: ChannelMap,
    plays: PlayQueue<u32>,
    running: Running,
    directory: Directory,
    pool: TextPool,
    other: TextPool,
}

impl FieldBooks {
    /// Empty books.
    pub fn new(alloc: Global) -> Result<FieldBooks, Memory> {
        let plays = PlayQueue::new(alloc)?;
        Ok(FieldBooks {
            numbers: CseqBook::starting(alloc, 1),
            sessions: SessionBook::new(alloc),
            pairs: ChannelMap::new(),
            plays,
            running: Running::new(),
            directory: Directory::new(alloc),
            pool: TextPool::new(alloc),
            other: TextPool::new(alloc),
        })
    }

    /// Tells the answers of a case with the name of a book, one for each step; whether it has one.
    pub fn tell(&mut self, name: &str, mut words: Words<'_>, answer: &mut CaseAnswer) -> bool {
        for _ in 0..u64::MAX {
            if !self.step(name, &mut words, answer) {
                return false;
            }
            if words.is_empty() {
                break;
            }
            answer.push(b", ");
        }
        true
    }

    /// Does a step with a book, and tells the answer; whether there is this book.
    fn step(&mut self, name: &str, words: &mut Words<'_>, answer: &mut CaseAnswer) -> bool {
        match name {
            "numbers" => numbers::step(&mut self.numbers, words, answer),
            "sessions" => numbers::step_session(&mut self.sessions, words, answer),
            "pairs" => pairs::step(&mut self.pairs, words, answer),
            "plays" => plays::step(&mut self.plays, words, answer),
            "running" => plays::step_running(&mut self.running, words, answer),
            "directory" => keys::step(&mut self.directory, words, answer),
            "pool" => keys::step_pool(&mut self.pool, &mut self.other, words, answer),
            _ => return false,
        }
        true
    }
}
