//! The PLAYs that wait, and the one that runs.

use crate::answer::{push_named, push_short, push_truth};
use crate::words::{Words, some_of};
use play_queue::PlayQueue;
use session_two::{Names, Running};
use test_text::CaseAnswer;

/// Does a step with the PLAYs that wait, and tells how many there are then.
pub fn step(queue: &mut PlayQueue<u32>, words: &mut Words<'_>, answer: &mut CaseAnswer) {
    match words.name() {
        "put" => {
            let play = words.short(answer);
            put(queue, play, answer);
        }
        "next" => push_short(answer, queue.next()),
        "first" => push_short(answer, queue.first().copied()),
        "clear" => {
            queue.clear();
            answer.push(b"cleared");
        }
        "empty" => push_truth(answer, queue.is_empty()),
        _ => answer.unreadable(),
    }
    push_named(answer, b" wait ", Some(queue.len() as u64));
}

/// Puts a PLAY at the end.
fn put(queue: &mut PlayQueue<u32>, play: u32, answer: &mut CaseAnswer) {
    match queue.put(play) {
        Ok(()) => answer.push(b"put"),
        Err(play) => push_named(answer, b"given back ", Some(u64::from(play))),
    }
}

/// Does a step with the PLAY that runs, and tells which one runs then.
pub fn step_running(running: &mut Running, words: &mut Words<'_>, answer: &mut CaseAnswer) {
    match words.name() {
        "started" => {
            running.started(words.short(answer));
            answer.push(b"started");
        }
        "stop" => {
            running.stop();
            answer.push(b"stopped");
        }
        "ended" => {
            let names = names_in(words, answer);
            push_truth(answer, running.ended(names));
        }
        "names" => {
            let names = names_in(words, answer);
            answer.push_debug(words.alloc, &names);
        }
        _ => answer.unreadable(),
    }
    answer.push(b" runs ");
    push_short(answer, running.current());
}

/// Which request the field Request-Status names that the next word is; there is none where that is empty.
fn names_in(words: &mut Words<'_>, answer: &mut CaseAnswer) -> Names {
    let value = words.next(answer);
    Names::read(some_of(value.as_bytes()))
}
