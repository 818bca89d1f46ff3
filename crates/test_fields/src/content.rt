//! Messages of cases.

use crate::answer::keep;
use crate::words::Words;
use gate_bytes::{split_once, trim, up_to};
use rtsp_frame::{Framer, Item};
use rtsp_head::Headers;
use std::alloc::Global;
use test_text::CaseAnswer;

/// What follows the number of a message.
#[derive(Drop)]
pub struct Content<'a> {
    /// The headers.
    pub headers: Headers<'a>,
    /// The body; it is empty where there is none.
    pub body: &'a [u8],
}

/// The content that lines are: one for each header, an empty one, and the body.
pub fn content_of<'a>(alloc: Global, lines: &'a [u8], answer: &mut CaseAnswer) -> Content<'a> {
    let mut headers = Headers::new(alloc);
    let body = push_headers(&mut headers, lines, answer);
    Content { headers, body }
}

/// Appends the headers that lines are, up to one without a colon. What is left behind that one.
fn push_headers<'a>(
    headers: &mut Headers<'a>,
    lines: &'a [u8],
    answer: &mut CaseAnswer,
) -> &'a [u8] {
    let mut left = lines;
    for _ in 0..lines.len() {
        let Some((line, rest)) = split_once(b'\n', left) else {
            break;
        };
        left = rest;
        let Some((name, value)) = split_once(b':', line) else {
            break;
        };
        let appended = headers.push_lent(name, Some(trim(up_to(b'\r', value))));
        keep(answer, appended);
    }
    left
}

/// The first item of the stream that a case is. Where there is none the case has no meaning.
pub fn item_of(words: Words<'_>, answer: &mut CaseAnswer) -> Option<Item> {
    let mut framer = fed(words.alloc, words.whole, answer);
    let item = framer.next();
    if item.is_none() {
        answer.unreadable();
    }
    item
}

/// A framer of a stream of which this has come.
pub fn fed(alloc: Global, stream: &[u8], answer: &mut CaseAnswer) -> Framer {
    let mut framer = Framer::new(alloc);
    let taken = framer.feed(alloc, stream);
    keep(answer, taken);
    framer
}
