//! Replies to players.
ghost use Rattle.std.specs.Prelude.{◌≡◌, true, IfOk};
ghost use Rattle.rtsp_status.specs.Reasons.{has_reason};
ghost use Rattle.rtsp_head.specs.HeadText.{ended, start_text};
ghost use Rattle.head_one.specs.Replies.{start_with, reply_text, reply_front};

use gate_bytes::{Memory, Text, push_decimal};
use rtsp_head::{Headers, push_message, push_number};
use rtsp_status::reason;
use std::alloc::Global;
use std::marker::Model;

/// The room for the text of a reply without its body. Most need no more.
const HEAD_ROOM: usize = 256;

/// The code of most replies.
const SUCCESS: u16 = 200;

/// Their status line, which is written in one piece.
const SUCCESS_LINE: &[u8] = b"RTSP/1.0 200 OK\r\n";

/// A reply to a player (RFC 2326, 7). What it is written of lends the texts. Contracts see what it says.
#[derive(Drop)]
pub struct Reply1<'a> {
    /// The code; it has a reason.
    pub code: u16,
    /// The number of the request, where it could be read.
    pub cseq: Option<u64>,
    /// The headers but for `CSeq` and `Content-Length`, in their order.
    pub headers: Headers<'a>,
    /// The body; it is empty where there is none.
    pub body: &'a [u8],
}

impl<'a> Model for Reply1<'a> {
    ghost use Rattle.head_one.specs.ClientReplies.{ClientReply};

    ghost Value = { ClientReply };

    ghost view = { λ it. record { code = it.code; cseq = it.cseq; headers = it.headers; body = it.body.now } };
}

/// The text of a reply: the status line, `CSeq` where there is a number, the headers in their order,
/// `Content-Length` where there is a body, an empty line, and the body.
pub fn write_reply(alloc: Global, reply: &Reply1<'_>) -> Result<Text, Memory>
    requires { has_reason reply.now.code ≡ true }
    ensures { IfOk result (λ text. text ≡ reply_text reply.now) }
{
    let mut text = status_line(alloc, reply.code, reply.body.len())?;
    push_message(&mut text, reply.cseq, &reply.headers, reply.body)?;
    Ok(text)
}

/// The front of a reply that is written line by line: the status line, and `CSeq` where there is a number. There is room for a
/// body of so many bytes.
pub fn begin_reply(alloc: Global, code: u16, cseq: Option<u64>, body: usize) -> Result<Text, Memory>
    requires { has_reason code ≡ true }
    ensures { IfOk result (λ text. text ≡ reply_front code cseq) }
{
    let mut text = status_line(alloc, code, body)?;
    push_number(&mut text, cseq)?;
    Ok(text)
}

/// The status line of a reply, with room for what follows it and for a body of so many bytes.
fn status_line(alloc: Global, code: u16, body: usize) -> Result<Text, Memory>
    requires { has_reason code ≡ true }
    ensures { IfOk result (λ text. text ≡ ended (start_text (start_with code))) }
{
    let mut text = Text::with_room(alloc, body.saturating_add(HEAD_ROOM))?;
    if code == SUCCESS {
        text.push_slice(SUCCESS_LINE)?;
        return Ok(text);
    }
    text.push_slice(b"RTSP/1.0 ")?;
    push_decimal(&mut text, u64::from(code))?;
    text.push_slice(b" ")?;
    text.push_slice(reason(code).as_bytes())?;
    text.push_slice(b"\r\n")?;
    Ok(text)
}
