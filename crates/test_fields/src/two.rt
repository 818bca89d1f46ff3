//! Messages of RTSP 2.0.

use crate::answer::{push_bytes, push_made, push_named};
use crate::code::next_code;
use crate::content::{content_of, item_of};
use crate::one::push_body;
use crate::words::{Words, some_of};
use head_two::{Reply2, Request2, read_ask, read_reply, write_answer, write_request};
use rtsp_uri::UriParts;
use test_text::CaseAnswer;

/// The reply that a stream begins with, or its fault.
pub fn tell_reply(words: Words<'_>, answer: &mut CaseAnswer) {
    let Some(item) = item_of(words, answer) else {
        return;
    };
    match read_reply(words.alloc, &item) {
        Ok(reply) => push_reply(answer, &reply),
        Err(fault) => answer.push_debug(words.alloc, &fault),
    }
}

/// Tells a reply.
fn push_reply(answer: &mut CaseAnswer, reply: &Reply2<'_>) {
    answer.push_number(u64::from(reply.code));
    push_named(answer, b" cseq ", Some(u64::from(reply.cseq)));
    push_body(answer, &reply.head, reply.body);
}

/// The method and the number of the request of the server that a stream begins with, or its fault.
pub fn tell_ask(words: Words<'_>, answer: &mut CaseAnswer) {
    let Some(item) = item_of(words, answer) else {
        return;
    };
    match read_ask(words.alloc, &item) {
        Ok(ask) => {
            push_bytes(answer, ask.method);
            push_named(answer, b" cseq ", Some(u64::from(ask.cseq)));
        }
        Err(fault) => answer.push_debug(words.alloc, &fault),
    }
}

/// How a request to the server is written.
pub fn tell_request(mut words: Words<'_>, answer: &mut CaseAnswer) {
    let method = words.next(answer);
    let uri = words.next(answer);
    let number = words.short(answer);
    let lines = words.all(answer);
    let content = content_of(words.alloc, lines.as_bytes(), answer);
    let request = Request2 {
        method: method.as_bytes(),
        uri: UriParts::whole(uri.as_bytes()),
        headers: content.headers,
        body: content.body,
    };
    push_made(answer, write_request(words.alloc, &request, number));
}

/// How an answer to a request of the server is written.
pub fn tell_answer(mut words: Words<'_>, answer: &mut CaseAnswer) {
    let code = next_code(&mut words, answer);
    let cseq = words.short(answer);
    let session = words.all(answer);
    let id = some_of(session.as_bytes());
    push_made(answer, write_answer(words.alloc, code, cseq, id));
}
