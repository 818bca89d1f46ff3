//! Requests of players.
ghost use Rattle.std.specs.Prelude.{◌≡◌, IfOk};
ghost use Rattle.gate_bytes.specs.Outcomes.{UnlessMemory};
ghost use Rattle.rtsp_head.specs.Shapes.{shape_of};
ghost use Rattle.head_one.specs.Refusals.{refusal, no_request};
ghost use Rattle.head_one.specs.Requests.{request_of_item, request_refusal};
ghost use Rattle.head_one.specs.Views.{parts_seen};

use crate::rule::{RequestParts, check_parts};
use crate::{Refusal, RequestFault};
use gate_bytes::{Memory, Text};
use rtsp_head::{Head, HeadFault, Item, StartLine};
use rtsp_small::Method;
use rtsp_uri::CutUri;
use std::alloc::Global;
use std::marker::Model;

/// A request that is not refused by the rules on its head (RFC 2326, 6), seen where it stands: its item
/// lends the texts. Contracts see what it says.
#[derive(Drop)]
pub struct Request1<'a> {
    /// The method.
    pub method: Method,
    /// The URI, or `*`.
    pub uri: CutUri<'a>,
    /// Its number.
    pub cseq: u64,
    /// The whole head.
    pub head: Head<'a>,
    /// The body; it is empty where there is none.
    pub body: &'a [u8],
}

impl<'a> Model for Request1<'a> {
    ghost use Rattle.head_one.specs.ClientRequests.{ClientRequest};

    ghost Value = { ClientRequest };

    ghost view = { λ it. record {
      method = it.method;
      uri = it.uri;
      cseq = it.cseq;
      head = it.head;
      body = it.body.now;
    } };
}

/// The request that an item is, or how the first rule that applies refuses it: 400 where the method
/// is no token, 505 for another version than RTSP/1.0, 400 where the number can't be read, 501 for an
/// unknown method, 551 where an option is required, 400 where no resource is named. An item without
/// a request line is refused with 400.
pub fn read_request(alloc: Global, item: &Item) -> Result<Request1<'_>, RequestFault>
    ensures { UnlessMemory request_refusal result (request_of_item (shape_of item.now)) }
{
    let head = match item.head(alloc) {
        Ok(head) => head,
        Err(HeadFault::Memory) => return Err(RequestFault::Memory),
        Err(_) => return Err(RequestFault::Refused(no_request())),
    };
    let StartLine::Request {
        method,
        uri,
        version,
    } = head.start()
    else {
        return Err(RequestFault::Refused(no_request()));
    };
    let uri = CutUri::new(uri);
    let parts = RequestParts::read(method, &uri, version, &head);
    let (method, cseq) = match check_parts(&parts) {
        Ok(known) => known,
        Err(code) => return Err(RequestFault::Refused(refusal(alloc, &parts, code)?)),
    };
    Ok(Request1 {
        method,
        uri,
        cseq,
        head,
        body: item.body_bytes(),
    })
}

/// A refusal with this code: the number where it could be read, and with 551 what is not supported.
fn refusal(alloc: Global, parts: &RequestParts<'_>, code: u16) -> Result<Refusal, Memory>
    ensures { IfOk result (λ refused. refused ≡ refusal (parts_seen parts.now) code) }
{
    let unsupported = if code == 551 { parts.required } else { None };
    Ok(Refusal {
        code,
        cseq: parts.cseq,
        unsupported: Text::copied(alloc, unsupported)?,
    })
}

/// How what has no request line is refused.
fn no_request() -> Refusal
    ensures { result ≡ no_request }
{
    Refusal {
        code: 400,
        cseq: None,
        unsupported: None,
    }
}
