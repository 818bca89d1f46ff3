//! The books of open requests and of sessions.
ghost use Rattle.std.specs.Prelude.{◌≡◌};

use crate::answer::{push_named, push_option, push_short};
use crate::words::Words;
use gate_bytes::{Steps, Text};
use std::marker::Brand;
use std::sync::ledger::{Blank, Ledger};
use test_text::{CaseAnswer, CaseFault};
use up_books::{CseqBook, LAST_NUMBER, SessionBook};

/// Does a step with the book of open requests.
pub fn step(book: &mut CseqBook, words: &mut Words<'_>, answer: &mut CaseAnswer) {
    match words.name() {
        "from" => {
            let first = words.short(answer).max(1).min(LAST_NUMBER);
            *book = CseqBook::starting(words.alloc, first);
            push_short(answer, book.next());
        }
        "ask" => {
            let conn = words.short(answer);
            ask(book, conn, answer);
        }
        "many" => {
            let count = words.short(answer);
            let conn = words.short(answer);
            ask_many(book, count, conn, answer);
        }
        "evens" => {
            let last = words.short(answer);
            settle_evens(book, last, answer);
        }
        "find" => {
            let number = words.short(answer);
            let place = find::<Brand>(book, number, Blank::new(1));
            push_option(answer, place.map(|place| place as u64));
        }
        "owner" => {
            let number = words.short(answer);
            push_short(answer, book.owner(number));
        }
        "settle" => {
            let number = words.short(answer);
            push_short(answer, book.settle(number));
        }
        "next" => push_short(answer, book.next()),
        "issued" => push_short(answer, Some(book.issued())),
        _ => answer.unreadable(),
    }
}

/// Issues the next number to a connection; `none` where all were issued.
fn ask(book: &mut CseqBook, conn: u32, answer: &mut CaseAnswer) {
    match book.room() {
        Ok(()) => push_short(answer, book.issue(conn).ok()),
        Err(_memory) => answer.fail(CaseFault::Memory),
    }
}

/// Issues so many numbers to a connection, and tells the last one.
fn ask_many(book: &mut CseqBook, count: u32, conn: u32, answer: &mut CaseAnswer) {
    for _ in 0..count {
        match book.room() {
            Ok(()) => {
                let _ = book.issue(conn);
            }
            Err(_memory) => {
                answer.fail(CaseFault::Memory);
                return;
            }
        }
    }
    push_short(answer, Some(book.issued()));
}

/// Settles the even numbers up to this one, and tells how many were open.
fn settle_evens(book: &mut CseqBook, last: u32, answer: &mut CaseAnswer) {
    let mut settled = 0u32;
    for half in 0..last / 2 {
        if book.settle(2 * half + 2).is_some() {
            settled = settled.saturating_add(1);
        }
    }
    push_short(answer, Some(settled));
}

/// Where an open request stands in the book.
fn find<L: Ledger>(book: &CseqBook, number: u32, blank: Blank) -> Option<usize>
    requires name { blank.name ≡ L.name }
    requires parts { blank.parts ≡ L.parts }
    requires share { blank.parts ≡ 1 }
{
    book.find(number, &mut Steps::<L>::new(blank))
}

/// Does a step with the book of sessions.
pub fn step_session(book: &mut SessionBook, words: &mut Words<'_>, answer: &mut CaseAnswer) {
    let name = words.name();
    let id = words.next(answer);
    match name {
        "bind" => {
            let conn = words.short(answer);
            bind(book, id, conn, answer);
        }
        "owner" => push_short(answer, book.owner(id.as_bytes())),
        "free" => {
            book.free(id.as_bytes());
            answer.push(b"freed");
        }
        _ => answer.unreadable(),
    }
}

/// Binds an id to a connection, where no connection has it.
fn bind(book: &mut SessionBook, id: Text, conn: u32, answer: &mut CaseAnswer) {
    match book.room() {
        Ok(()) => match book.bind(id, conn) {
            Ok(()) => answer.push(b"bound"),
            Err(taken) => push_named(answer, b"taken by ", Some(u64::from(taken.owner))),
        },
        Err(_memory) => answer.fail(CaseFault::Memory),
    }
}
