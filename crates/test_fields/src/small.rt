//! Small fields.
ghost use Rattle.std.specs.Prelude.{◌≡◌, true, IfSome};
ghost use Rattle.rtsp_small.specs.Sessions.{is_session_id};

use crate::answer::{keep, push_bytes, push_made, push_named, push_option, push_short, push_truth};
use crate::words::Words;
use gate_bytes::{Memory, Text};
use rtsp_small::{
    SessionField, is_scale, push_methods, read_cseq_one, read_cseq_two, read_method, read_reason,
    read_request_status, read_session, write_session,
};
use std::alloc::Global;
use test_text::CaseAnswer;

/// The longest timeout of a session.
const LONGEST: u64 = 9_999_999_999;

/// Tells the answer of a case with one of these names; whether it has one.
pub fn tell(name: &str, words: Words<'_>, answer: &mut CaseAnswer) -> bool {
    match name {
        "method" => tell_method(words, answer),
        "append-methods" => tell_methods(words, answer),
        "cseq-one" => push_option(answer, read_cseq_one(words.whole)),
        "cseq-two" => push_short(answer, read_cseq_two(words.whole)),
        "session" => tell_session(words, answer),
        "write-session" => tell_written(words, answer),
        "notify-reason" => tell_reason(words, answer),
        "request-status" => push_short(answer, read_request_status(words.whole)),
        "scale" => push_truth(answer, is_scale(words.whole)),
        _ => return false,
    }
    true
}

/// The method with a name, and its name again.
fn tell_method(words: Words<'_>, answer: &mut CaseAnswer) {
    match read_method(words.whole) {
        Some(method) => {
            answer.push_debug(words.alloc, &method);
            answer.push(b", written ");
            push_bytes(answer, method.name());
        }
        None => answer.push(b"none"),
    }
}

/// A text with the names of all methods behind it.
fn tell_methods(words: Words<'_>, answer: &mut CaseAnswer) {
    let mut written = words.all(answer);
    let appended = push_methods(&mut written);
    keep(answer, appended);
    push_bytes(answer, written.as_bytes());
}

/// What a Session field says. Its id is one.
fn session_in(value: &[u8]) -> Option<SessionField<'_>>
    ensures { IfSome result (λ field. is_session_id field.id.now ≡ true) }
{
    read_session(value)
}

/// The id and the timeout of a Session field, and how they are written again.
fn tell_session(words: Words<'_>, answer: &mut CaseAnswer) {
    match session_in(words.whole) {
        Some(field) => {
            push_bytes(answer, field.id);
            push_named(answer, b" timeout ", field.timeout);
            answer.push(b", written ");
            push_made(answer, written(words.alloc, field.id, field.timeout));
        }
        None => answer.push(b"none"),
    }
}

/// How a session's id and timeout are written.
fn tell_written(mut words: Words<'_>, answer: &mut CaseAnswer) {
    let id = words.next(answer);
    match session_in(id.as_bytes()) {
        Some(field) => push_made(
            answer,
            written(words.alloc, field.id, words.optional_number()),
        ),
        None => answer.unreadable(),
    }
}

/// How an id is written, with a timeout where there is one. The longest stands for one that is longer.
fn written(alloc: Global, id: &[u8], timeout: Option<u64>) -> Result<Text, Memory>
    requires { is_session_id id.now ≡ true }
{
    match timeout {
        Some(seconds) => write_session(alloc, id, Some(seconds.min(LONGEST))),
        None => write_session(alloc, id, None),
    }
}

/// The reason that a Notify-Reason field names.
fn tell_reason(words: Words<'_>, answer: &mut CaseAnswer) {
    match read_reason(words.whole) {
        Some(reason) => answer.push_debug(words.alloc, &reason),
        None => answer.push(b"none"),
    }
}
