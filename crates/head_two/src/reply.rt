//! Replies of the server.
ghost use Rattle.std.specs.Prelude.{◌≡◌};
ghost use Rattle.gate_bytes.specs.Outcomes.{UnlessMemory};
ghost use Rattle.rtsp_head.specs.Shapes.{shape_of};
ghost use Rattle.head_two.specs.Messages.{checked_cseq, two_refusal};
ghost use Rattle.head_two.specs.Replies.{reply_of_item};

use crate::TwoFault;
use rtsp_head::{Head, HeadFault, Item, StartLine};
use rtsp_small::read_cseq_two;
use std::alloc::Global;
use std::marker::Model;

/// A reply of the server (RFC 7826, 8), seen where it stands: its item lends the texts. Contracts see what
/// it says.
#[derive(Drop)]
pub struct Reply2<'a> {
    /// The code, 100 to 999.
    pub code: u16,
    /// The number of the request that is answered: at most 9 digits.
    pub cseq: u32,
    /// The whole head.
    pub head: Head<'a>,
    /// The body; it is empty where there is none.
    pub body: &'a [u8],
}

impl<'a> Model for Reply2<'a> {
    ghost use Rattle.head_two.specs.ServerMessages.{ReplyParts};

    ghost Value = { ReplyParts };

    ghost view = { λ it. record { code = it.code; cseq = it.cseq; head = it.head; body = it.body.now } };
}

/// The version of the server's messages.
const VERSION: &[u8] = b"RTSP/2.0";

/// The reply that an item is. Refused with [`TwoFault::Version`] where it has no status line of
/// RTSP/2.0, and then with [`TwoFault::Cseq`] where its number can't be read.
pub fn read_reply(alloc: Global, item: &Item) -> Result<Reply2<'_>, TwoFault>
    ensures { UnlessMemory two_refusal result (reply_of_item (shape_of item.now)) }
{
    let head = match item.head(alloc) {
        Ok(head) => head,
        Err(HeadFault::Memory) => return Err(TwoFault::Memory),
        Err(_) => return Err(TwoFault::Version),
    };
    let StartLine::Status { version, code, .. } = head.start() else {
        return Err(TwoFault::Version);
    };
    let cseq = checked_cseq(version, &head)?;
    Ok(Reply2 {
        code,
        cseq,
        head,
        body: item.body_bytes(),
    })
}

/// The number of a message with this version.
pub(crate) fn checked_cseq(version: &[u8], head: &Head<'_>) -> Result<u32, TwoFault>
    ensures { result ≡ checked_cseq version.now head.now.headers }
{
    if version != VERSION {
        return Err(TwoFault::Version);
    }
    match head.field(b"CSeq") {
        Some(value) => read_cseq_two(value).ok_or(TwoFault::Cseq),
        None => Err(TwoFault::Cseq),
    }
}
