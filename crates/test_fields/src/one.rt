//! Messages of RTSP 1.0.

use crate::answer::{push_bytes, push_made, push_named, push_part};
use crate::code::next_code;
use crate::content::{content_of, item_of};
use crate::words::Words;
use head_one::{Refusal, Reply1, Request1, RequestFault, read_request, write_reply};
use rtsp_head::Head;
use std::alloc::Global;
use test_text::{CaseAnswer, CaseFault};

/// The request that a stream begins with, or how it is refused.
pub fn tell_request(words: Words<'_>, answer: &mut CaseAnswer) {
    let Some(item) = item_of(words, answer) else {
        return;
    };
    match read_request(words.alloc, &item) {
        Ok(request) => push_request(words.alloc, answer, &request),
        Err(RequestFault::Refused(refusal)) => push_refusal(answer, &refusal),
        Err(RequestFault::Memory) => answer.fail(CaseFault::Memory),
    }
}

/// Tells a request.
fn push_request(alloc: Global, answer: &mut CaseAnswer, request: &Request1<'_>) {
    answer.push_debug(alloc, &request.method);
    answer.push(b" of ");
    push_bytes(answer, request.uri.text());
    push_named(answer, b" cseq ", Some(request.cseq));
    push_body(answer, &request.head, request.body);
}

/// Tells how long a body is by the head, where that says it, and the body.
pub fn push_body(answer: &mut CaseAnswer, head: &Head<'_>, body: &[u8]) {
    if let Some(length) = head.field(b"content-length") {
        push_part(answer, b" content-length ", length);
    }
    push_part(answer, b" body ", body);
}

/// Tells a refusal.
fn push_refusal(answer: &mut CaseAnswer, refusal: &Refusal) {
    push_named(answer, b"refused with ", Some(u64::from(refusal.code)));
    push_named(answer, b" cseq ", refusal.cseq);
    if let Some(options) = &refusal.unsupported {
        answer.push(b" unsupported ");
        push_bytes(answer, options.as_bytes());
    }
}

/// How a reply is written.
pub fn tell_reply(mut words: Words<'_>, answer: &mut CaseAnswer) {
    let code = next_code(&mut words, answer);
    let cseq = words.optional_number();
    let lines = words.all(answer);
    let content = content_of(words.alloc, lines.as_bytes(), answer);
    let reply = Reply1 {
        code,
        cseq,
        headers: content.headers,
        body: content.body,
    };
    push_made(answer, write_reply(words.alloc, &reply));
}
