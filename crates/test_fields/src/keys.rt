//! The directory of connections, and pools of texts.

use crate::answer::{push_made, push_named, push_short};
use crate::words::Words;
use connection_table::Directory;
use test_text::{CaseAnswer, CaseFault};
use text_pool::TextPool;

/// Does a step with the directory.
pub fn step(directory: &mut Directory, words: &mut Words<'_>, answer: &mut CaseAnswer) {
    let name = words.name();
    let conn = words.short(answer);
    match name {
        "add" => {
            let key = words.short(answer) as usize;
            add(directory, conn, key, answer);
        }
        "find" => find(directory, conn, answer),
        "remove" => {
            directory.remove(conn);
            answer.push(b"removed");
        }
        _ => answer.unreadable(),
    }
}

/// Adds a number that is not there, with its key.
fn add(directory: &mut Directory, conn: u32, key: usize, answer: &mut CaseAnswer) {
    match directory.reserve() {
        Ok(()) => {
            if directory.key(conn).is_none() {
                directory.add(conn, key);
                answer.push(b"added");
            }
        }
        Err(_memory) => answer.fail(CaseFault::Memory),
    }
}

/// Tells the key of a number, and the first number from this one on.
fn find(directory: &Directory, conn: u32, answer: &mut CaseAnswer) {
    match directory.key(conn) {
        Some(key) => answer.push_number(key as u64),
        None => answer.push(b"none"),
    }
    answer.push(b" next ");
    push_short(answer, directory.next(conn));
}

/// Does a step with a pool beside another one, and tells how many texts each has then.
pub fn step_pool(
    pool: &mut TextPool,
    other: &mut TextPool,
    words: &mut Words<'_>,
    answer: &mut CaseAnswer,
) {
    match words.name() {
        "keep" => {
            pool.keep(words.next(answer));
            answer.push(b"offered");
        }
        "copy" => {
            let text = words.next(answer);
            push_made(answer, pool.copy(words.alloc, text.as_bytes()));
        }
        "join" => join(pool, words, answer),
        "give" => {
            other.keep_all(pool);
            answer.push(b"given");
        }
        "refill" => {
            pool.refill(other);
            answer.push(b"refilled");
        }
        _ => answer.unreadable(),
    }
    push_named(answer, b" has ", Some(pool.len() as u64));
    push_named(answer, b" other ", Some(other.len() as u64));
}

/// Joins two words.
fn join(pool: &mut TextPool, words: &mut Words<'_>, answer: &mut CaseAnswer) {
    let front = words.next(answer);
    let back = words.next(answer);
    push_made(
        answer,
        pool.join(words.alloc, front.as_bytes(), back.as_bytes()),
    );
}
