//! Answers to requests of the server.
ghost use Rattle.std.specs.Prelude.{◌≡◌, true, IfOk};
ghost use Rattle.std.specs.Option.{option_copied};
ghost use Rattle.rtsp_status.specs.Reasons.{has_reason};
ghost use Rattle.head_two.specs.Answers.{answer_text, answer_headers, answer_session};

use gate_bytes::{Memory, Text, push_decimal};
use rtsp_head::{Headers, push_message};
use rtsp_status::reason;
use std::alloc::Global;

/// The text of an answer to a request of the server: the status line, `CSeq`, and with 200
/// `Session` where a session is given. The code has a reason.
pub fn write_answer(
    alloc: Global,
    code: u16,
    cseq: u32,
    session: Option<&[u8]>,
) -> Result<Text, Memory>
    requires { has_reason code ≡ true }
    ensures { IfOk result (λ text. text ≡ answer_text code cseq (option_copied session.entry)) }
{
    let headers = answer_headers(alloc, code, session)?;
    let mut text = Text::with_room(alloc, 128)?;
    text.push_slice(b"RTSP/2.0 ")?;
    push_decimal(&mut text, u64::from(code))?;
    text.push_slice(b" ")?;
    text.push_slice(reason(code).as_bytes())?;
    text.push_slice(b"\r\n")?;
    push_message(&mut text, Some(u64::from(cseq)), &headers, b"")?;
    Ok(text)
}

/// The header with the session, where the answer is a success and a session is given.
fn answer_headers(alloc: Global, code: u16, session: Option<&[u8]>) -> Result<Headers<'_>, Memory>
    ensures { IfOk result (λ headers. headers ≡ answer_headers code (option_copied session.entry)) }
{
    if code == 200 {
        answer_session(alloc, session)
    } else {
        Ok(Headers::new(alloc))
    }
}

/// The header with a session, where there is one (RFC 7826, 18.49).
fn answer_session(alloc: Global, session: Option<&[u8]>) -> Result<Headers<'_>, Memory>
    ensures { IfOk result (λ headers. headers ≡ answer_session (option_copied session.entry)) }
{
    let mut headers = Headers::new(alloc);
    headers.push_lent(b"Session", session)?;
    Ok(headers)
}
