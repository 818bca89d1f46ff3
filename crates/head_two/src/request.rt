//! Requests to the server.
ghost use Rattle.std.specs.Prelude.{◌≡◌, IfOk};
ghost use Rattle.head_two.specs.Requests.{request_text};

use gate_bytes::{Memory, Text};
use rtsp_head::{Headers, push_message};
use rtsp_uri::UriParts;
use std::alloc::Global;
use std::marker::Model;

/// The room for the text of a request without its body. Most need no more.
const HEAD_ROOM: usize = 256;

/// A request to the server, without its number (RFC 7826, 7). What it is written of lends the texts.
/// Contracts see what it says.
#[derive(Drop)]
pub struct Request2<'a> {
    /// The method.
    pub method: &'a [u8],
    /// The URI, or `*`.
    pub uri: UriParts<'a>,
    /// The headers but for `CSeq` and `Content-Length`, in their order.
    pub headers: Headers<'a>,
    /// The body; it is empty where there is none.
    pub body: &'a [u8],
}

impl<'a> Model for Request2<'a> {
    ghost use Rattle.head_two.specs.ServerMessages.{ServerRequest};

    ghost Value = { ServerRequest };

    ghost view = { λ it. record { method = it.method.now; uri = it.uri; headers = it.headers; body = it.body.now } };
}

/// The text of a request with this number: the request line, `CSeq`, the headers in their order,
/// `Content-Length` where there is a body, an empty line, and the body.
pub fn write_request(alloc: Global, request: &Request2<'_>, number: u32) -> Result<Text, Memory>
    ensures { IfOk result (λ text. text ≡ request_text number request.now) }
{
    let mut text = Text::with_room(alloc, request.body.len().saturating_add(HEAD_ROOM))?;
    text.push_slice(request.method)?;
    text.push_slice(b" ")?;
    request.uri.push_to(&mut text)?;
    text.push_slice(b" RTSP/2.0\r\n")?;
    let number = Some(u64::from(number));
    push_message(&mut text, number, &request.headers, request.body)?;
    Ok(text)
}
