//! Calls of a multiplexer.
ghost use Rattle.gateway_claim.specs.Cores.{IsOwnKey};
ghost use Rattle.gateway_mux.specs.Stands.{HasKey};

use crate::gateway::with_two_players;
use crate::items::item_in;
use crate::outcomes::tell_outcome;
use gateway_claim::{ConnectionKey, Event, Standing, UpCause, UpWhy};
use gateway_mux::Mux;
use rtsp_frame::Framer;
use run_status::Status;
use std::alloc::Global;
use std::str;
use test_text::{CaseAnswer, CaseFault, first_number, first_word, meant};

/// Makes the call that a line is, and tells its answer:
///
/// - `anew`: another gateway, which the connections 7 and 4 enter;
/// - `A CONNECTION BYTES` and `U BYTES`: a player or the server says bytes, and what each of their items hands out is told: the
///   records one behind another, `C all` where all connections close, and `-` where nothing happens;
/// - `E CONNECTION`: a player's connection ends, and `Z R`: reading from the server fails;
/// - `plan CONNECTION BYTES`: a player's first item, planned and carried out apart, and whether the player was busy before and
///   is busy then;
/// - `stands CONNECTION`: whether it is closed, busy or ready; and with `by_key CONNECTION BYTES` a player's first item is planned
///   by the key of one that is ready, and carried out;
/// - `alive CONNECTION`, `waiting CONNECTION` (how many of its requests wait), `next NUMBER` (the first connection from a number
///   on that is alive), `dropped` (frames) and `ended` (the cause).
pub fn call(alloc: Global, mux: &mut Box<Mux>, line: &[u8], answer: &mut CaseAnswer) {
    let (word, rest) = first_word(line);
    let (number, text) = first_number(rest).unwrap_or((0, b""));
    let conn = u32::try_from(number).unwrap_or(0);
    match str::from_utf8(word).unwrap_or("") {
        "anew" => renew(alloc, mux, answer),
        "A" => tell_said(alloc, mux, Some(conn), text, answer),
        "U" => tell_said(alloc, mux, None, rest, answer),
        "E" => tell_event(alloc, mux, Event::End(conn), answer),
        "Z" => tell_event(alloc, mux, Event::UpEnd(UpWhy::ReadFault), answer),
        word => look(alloc, mux, word, conn, text, answer),
    }
}

/// Makes the call that a word is, which says nothing to the multiplexer but the item of a plan.
fn look(alloc: Global, mux: &mut Mux, word: &str, conn: u32, text: &[u8], answer: &mut CaseAnswer) {
    match word {
        "plan" => tell_plan(alloc, mux, conn, text, answer),
        "by_key" => tell_by_key(alloc, mux, conn, text, answer),
        "stands" => answer.push(standing_word(mux.standing(conn))),
        "alive" => push_yes(mux.alive(conn), answer),
        "waiting" => answer.push_number(mux.waiting(conn) as u64),
        "next" => push_next(mux.next_alive(conn), answer),
        "dropped" => answer.push_number(mux.dropped()),
        "ended" => push_end(alloc, mux.ended(), answer),
        _ => answer.unreadable(),
    }
}

/// Another gateway.
fn renew(alloc: Global, mux: &mut Box<Mux>, answer: &mut CaseAnswer) {
    match with_two_players(alloc) {
        Ok(other) => *mux = other,
        Err(_memory) => answer.fail(CaseFault::Memory),
    }
}

/// Appends the number of a connection, where there is one.
fn push_next(conn: Option<u32>, answer: &mut CaseAnswer) {
    match conn {
        Some(conn) => answer.push_number(u64::from(conn)),
        None => answer.push(b"none"),
    }
}

/// Appends why the connection to the server ended, where it did.
fn push_end(alloc: Global, cause: Option<UpCause>, answer: &mut CaseAnswer) {
    match cause {
        Some(cause) => answer.push_display(alloc, &Status::Upstream { cause }),
        None => answer.push(b"no"),
    }
}

/// Appends yes or no.
pub fn push_yes(value: bool, answer: &mut CaseAnswer) {
    answer.push(if value { b"yes".as_slice() } else { b"no" });
}

/// Has an event happen, and tells what it hands out.
fn tell_event(alloc: Global, mux: &mut Mux, event: Event, answer: &mut CaseAnswer) {
    match mux.step(alloc, event) {
        Ok(outcome) => tell_outcome(alloc, &outcome, answer),
        Err((_event, _memory)) => answer.fail(CaseFault::Memory),
    }
}

/// Has a player say bytes, or the server, and tells what each of their items hands out.
fn tell_said(
    alloc: Global,
    mux: &mut Mux,
    conn: Option<u32>,
    text: &[u8],
    answer: &mut CaseAnswer,
) {
    match framer_of(alloc, text) {
        Ok(mut framer) => tell_items(alloc, mux, conn, &mut framer, text.len(), answer),
        Err(fault) => answer.fail(fault),
    }
}

/// A framer that was fed the bytes which a text means.
fn framer_of(alloc: Global, text: &[u8]) -> Result<Framer, CaseFault> {
    let bytes = meant(alloc, text)?;
    let mut framer = Framer::new(alloc);
    framer.feed(alloc, bytes.as_bytes())?;
    Ok(framer)
}

/// Has a player say the items of a framer, so many at most, or the server, and tells what each hands out.
fn tell_items(
    alloc: Global,
    mux: &mut Mux,
    conn: Option<u32>,
    framer: &mut Framer,
    most: usize,
    answer: &mut CaseAnswer,
) {
    for _ in 0..most {
        let Some(item) = framer.next() else {
            break;
        };
        let event = match conn {
            Some(conn) => Event::Client(conn, item),
            None => Event::Up(item),
        };
        tell_event(alloc, mux, event, answer);
    }
}

/// Has a player's first item planned and carried out, and tells what it hands out, and whether the player was busy before and is
/// busy then.
fn tell_plan(alloc: Global, mux: &mut Mux, conn: u32, text: &[u8], answer: &mut CaseAnswer) {
    let before = mux.busy(conn);
    match item_in(alloc, text) {
        Ok(item) => tell_planned(alloc, mux, Event::Client(conn, item), answer),
        Err(fault) => answer.fail(fault),
    }
    answer.push(b" busy ");
    push_yes(before, answer);
    answer.push(b" ");
    push_yes(mux.busy(conn), answer);
}

/// Has an event planned and carried out, and tells what it hands out.
fn tell_planned(alloc: Global, mux: &mut Mux, event: Event, answer: &mut CaseAnswer) {
    match mux.plan(alloc, &event) {
        Ok(plan) => tell_outcome(alloc, &mux.commit(event, plan), answer),
        Err(_memory) => answer.fail(CaseFault::Memory),
    }
}

/// The word for where a connection stands.
fn standing_word(standing: Standing) -> &'static [u8] {
    match standing {
        Standing::Closed => b"closed",
        Standing::Busy => b"busy",
        Standing::Ready(_) => b"ready",
    }
}

/// Has the first item of a player that is ready planned by its key and carried out, and tells what it hands out.
fn tell_by_key(alloc: Global, mux: &mut Mux, conn: u32, text: &[u8], answer: &mut CaseAnswer) {
    match mux.standing(conn) {
        Standing::Ready(key) => match item_in(alloc, text) {
            Ok(item) => tell_keyed(alloc, mux, Event::Client(conn, item), key, answer),
            Err(fault) => answer.fail(fault),
        },
        other => answer.push(standing_word(other)),
    }
}

/// Has an event planned by the key of its connection and carried out, and tells what it hands out.
fn tell_keyed(
    alloc: Global,
    mux: &mut Mux,
    event: Event,
    key: ConnectionKey,
    answer: &mut CaseAnswer,
)
    requires { IsOwnKey (HasKey mux.old) event key }
{
    match mux.plan_at(alloc, &event, key) {
        Ok(plan) => tell_outcome(alloc, &mux.commit(event, plan), answer),
        Err(_memory) => answer.fail(CaseFault::Memory),
    }
}
