//! What an event hands out.

use gate_bytes::Text;
use gateway_claim::{Closed, Outcome, ToClient, UpCause, UpMessage, close_byte};
use run_status::Status;
use std::alloc::Global;
use test_text::CaseAnswer;

/// Tells an outcome: to the player, to the server, the closes and the fault, each in brackets.
pub fn tell_outcome(alloc: Global, outcome: &Outcome, answer: &mut CaseAnswer) {
    let before = answer.as_bytes().len();
    push_to_client(&outcome.to_client, answer);
    push_up(outcome.to_up.answer.as_ref(), answer);
    push_up(message_in(&outcome.to_up.message), answer);
    push_closed(outcome.closed, answer);
    push_fault(alloc, outcome.fault, answer);
    if answer.as_bytes().len() == before {
        answer.push(b"-");
    }
}

/// Appends what a player is handed.
fn push_to_client(piece: &Option<ToClient>, answer: &mut CaseAnswer) {
    if let Some(piece) = piece {
        answer.push(b"[T ");
        answer.push_number(u64::from(piece.conn));
        answer.push(b" ");
        answer.push_shown(piece.bytes.as_bytes());
        answer.push(b"]");
    }
}

/// The bytes of a player's message.
fn message_in(message: &Option<UpMessage>) -> Option<&Text> {
    match message {
        Some(UpMessage::Request(message)) => Some(message),
        Some(UpMessage::Frame(message)) => Some(message),
        None => None,
    }
}

/// Appends what the server is handed.
fn push_up(message: Option<&Text>, answer: &mut CaseAnswer) {
    if let Some(message) = message {
        answer.push(b"[Y ");
        answer.push_shown(message.as_bytes());
        answer.push(b"]");
    }
}

/// Appends which connections close.
fn push_closed(closed: Closed, answer: &mut CaseAnswer) {
    match closed {
        Closed::Nobody => {}
        Closed::One(conn, why) => {
            answer.push(b"[C ");
            answer.push_number(u64::from(conn));
            answer.push(&[b' ', close_byte(why), b']']);
        }
        Closed::All => answer.push(b"[C all]"),
    }
}

/// Appends why the connection to the server ended.
fn push_fault(alloc: Global, fault: Option<UpCause>, answer: &mut CaseAnswer) {
    if let Some(cause) = fault {
        answer.push(b"[");
        answer.push_display(alloc, &Status::Upstream { cause });
        answer.push(b"]");
    }
}
