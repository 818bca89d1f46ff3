//! The connections that a gateway keeps.

use crate::calls::push_yes;
use crate::trial::Trial;
use client_machine::{CloseWhy, Done, plan_close};
use connection_table::ConnectionTable;
use rtsp_small::read_cseq_two;
use std::alloc::Global;
use std::str;
use test_text::{CaseAnswer, CaseFault, first_word};

impl Trial {
    /// Does what a line says, and tells what it asks:
    ///
    /// - `enter NUMBER`: a connection enters;
    /// - `ready`: whether the next connection can enter without memory;
    /// - `kept NUMBER`: whether a connection is kept, and `key NUMBER`: whether it is found by its key;
    /// - `next NUMBER`: the first number from this one on of one that is kept;
    /// - `close NUMBER`: whether the connection was there to be closed. It is forgotten then, since nothing else is open.
    pub fn tell_seat(&mut self, alloc: Global, line: &[u8], answer: &mut CaseAnswer) {
        let (word, number) = first_word(line);
        let conn = read_cseq_two(number).unwrap_or(0);
        match str::from_utf8(word).unwrap_or("") {
            "enter" => enter(alloc, &mut self.seats, conn, answer),
            "ready" => push_yes(self.seats.is_ready(), answer),
            "kept" => push_yes(self.seats.slot(conn).is_some(), answer),
            "key" => push_yes(has_key(&self.seats, conn), answer),
            "next" => match self.seats.next(conn) {
                Some(next) => answer.push_number(u64::from(next)),
                None => answer.push(b"none"),
            },
            "close" => push_yes(self.close_seat(alloc, conn).is_some(), answer),
            _ => answer.unreadable(),
        }
    }

    /// Closes a connection, and forgets it. What that did is there where it was kept.
    fn close_seat(&mut self, alloc: Global, conn: u32) -> Option<Done> {
        let seat = self.seats.seat(conn)?;
        let key = seat.key;
        let mut plan = plan_close(alloc, seat.slot, CloseWhy::Ended);
        let done = self.seats.commit(alloc, conn, key, &mut plan, 1, 2);
        self.seats.forget(conn, key);
        done
    }
}

/// A connection enters, which is not there yet.
fn enter(alloc: Global, seats: &mut ConnectionTable, conn: u32, answer: &mut CaseAnswer) {
    match seats.prepare(alloc) {
        Ok(()) if seats.slot(conn).is_none() => seats.enter(conn),
        Ok(()) => answer.unreadable(),
        Err(_memory) => answer.fail(CaseFault::Memory),
    }
}

/// Whether a connection is found by its key.
fn has_key(seats: &ConnectionTable, conn: u32) -> bool {
    match seats.seat(conn) {
        Some(seat) => seats.at(seat.key).is_some(),
        None => false,
    }
}
