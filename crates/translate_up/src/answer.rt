//! What the gateway answers by itself.
ghost use Rattle.std.specs.Prelude.{◌≡◌, true, [], IfOk};
ghost use Rattle.std.specs.Option.{option_copied};
ghost use Rattle.rtsp_status.specs.Reasons.{has_reason};
ghost use Rattle.translate_up.specs.Answers.{own_answer, refusal_text, options_text, play_text, HasReason};

use gate_bytes::{Memory, Text, push_decimal};
use head_one::{Refusal, Reply1, write_reply};
use rtsp_head::Headers;
use rtsp_small::push_methods;
use std::alloc::Global;

/// The answer with this code, with the number and these headers alone.
fn answer_with(
    alloc: Global,
    code: u16,
    cseq: Option<u64>,
    headers: Headers<'_>,
) -> Result<Text, Memory>
    requires { has_reason code ≡ true }
    ensures { IfOk result (λ text. text ≡ own_answer code cseq headers.entry) }
{
    let reply = Reply1 {
        code,
        cseq,
        headers,
        body: b"",
    };
    write_reply(alloc, &reply)
}

/// The answer with this code that tells the number alone.
pub(crate) fn answer(alloc: Global, code: u16, cseq: Option<u64>) -> Result<Text, Memory>
    requires { has_reason code ≡ true }
    ensures { IfOk result (λ text. text ≡ own_answer code cseq []) }
{
    answer_with(alloc, code, cseq, Headers::new(alloc))
}

/// The answer to a request that its head refuses: with what is not supported, where something isn't.
pub(crate) fn refusal_text(alloc: Global, refusal: Refusal) -> Result<Text, Memory>
    requires { HasReason refusal }
    ensures { IfOk result (λ text. text ≡ refusal_text refusal) }
{
    let mut headers = Headers::new(alloc);
    headers.push_text(b"Unsupported", refusal.unsupported)?;
    answer_with(alloc, refusal.code, refusal.cseq, headers)
}

/// The answer to OPTIONS. It is the same for every player but for its number, so it is written as it
/// stands.
pub(crate) fn options_text(alloc: Global, cseq: u64) -> Result<Text, Memory>
    ensures { IfOk result (λ text. text ≡ options_text cseq) }
{
    let mut text = Text::with_room(alloc, 160)?;
    text.push_slice(b"RTSP/1.0 200 OK\r\nCSeq: ")?;
    push_decimal(&mut text, cseq)?;
    text.push_slice(b"\r\nPublic: ")?;
    push_methods(&mut text)?;
    text.push_slice(b"\r\n\r\n")?;
    Ok(text)
}

/// The answer to a PLAY while streams play: the session, and the range where one will be played.
pub(crate) fn play_text(
    alloc: Global,
    cseq: u64,
    session: Option<&[u8]>,
    range: Option<Text>,
) -> Result<Text, Memory>
    ensures { IfOk result (λ text. text ≡ play_text cseq (option_copied session.entry) range) }
{
    let mut headers = Headers::new(alloc);
    headers.push_lent(b"Session", session)?;
    headers.push_text(b"Range", range)?;
    answer_with(alloc, 200, Some(cseq), headers)
}
