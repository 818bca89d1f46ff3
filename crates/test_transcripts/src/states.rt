//! The states of a session.

use rtsp_small::{Method, read_method};
use session_one::{State, after, allowed};
use std::alloc::Global;
use test_text::{CaseAnswer, first_number, first_word};

/// The states, in the order in which they are told.
const STATES: [State; 3] = [State::Init, State::Ready, State::Playing];

/// Tells in which states the method of a line is allowed.
pub fn tell_allowed(line: &[u8], answer: &mut CaseAnswer) {
    let Some(method) = read_method(line) else {
        return answer.unreadable();
    };
    answer.push(b"\n=");
    for state in STATES {
        answer.push(if allowed(state, method) {
            b" yes".as_slice()
        } else {
            b" no"
        });
    }
}

/// Tells the state after a reply of a line, by the state before it.
pub fn tell_after(alloc: Global, line: &[u8], answer: &mut CaseAnswer) {
    let Some((method, code)) = reply_in(line) else {
        return answer.unreadable();
    };
    answer.push(b"\n=");
    for state in STATES {
        answer.push(b" ");
        answer.push_debug(alloc, &after(state, method, code));
    }
}

/// The method and the code of a line.
fn reply_in(line: &[u8]) -> Option<(Method, u16)> {
    let (method, line) = first_word(line);
    let (code, _) = first_number(line)?;
    Some((read_method(method)?, u16::try_from(code).ok()?))
}
