//! Codes and their reasons.
ghost use Rattle.std.specs.Prelude.{◌≡◌, true};
ghost use Rattle.rtsp_status.specs.Reasons.{has_reason};

use crate::words::Words;
use rtsp_status::{reason, to_one};
use test_text::CaseAnswer;

/// The code that is told to the server alone.
const SERVER_ALONE: u16 = 465;

/// What a player is told in the place of a code, with the reason.
pub fn tell_status(mut words: Words<'_>, answer: &mut CaseAnswer) {
    let told = to_one(words.small(answer));
    answer.push_number(u64::from(told));
    answer.push(b" ");
    answer.push(reason(told).as_bytes());
}

/// The reason of a code that has one.
pub fn tell_reason(mut words: Words<'_>, answer: &mut CaseAnswer) {
    let code = next_code(&mut words, answer);
    answer.push(reason(code).as_bytes());
}

/// The code that the next word is, where the server alone is told that one; else what a player is told in its place.
pub fn next_code(words: &mut Words<'_>, answer: &mut CaseAnswer) -> u16
    ensures { has_reason result ≡ true }
{
    let code = words.small(answer);
    if code == SERVER_ALONE {
        SERVER_ALONE
    } else {
        to_one(code)
    }
}
