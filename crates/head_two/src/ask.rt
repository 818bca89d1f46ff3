//! Requests of the server.
ghost use Rattle.gate_bytes.specs.Outcomes.{UnlessMemory};
ghost use Rattle.rtsp_head.specs.Shapes.{shape_of};
ghost use Rattle.head_two.specs.Messages.{two_refusal};
ghost use Rattle.head_two.specs.Replies.{ask_of_item};

use crate::TwoFault;
use crate::reply::checked_cseq;
use rtsp_head::{Head, HeadFault, Item, StartLine};
use std::alloc::Global;
use std::marker::Model;

/// A request of the server (RFC 7826, 7 and 13.5), seen where it stands: its item lends the texts.
/// Contracts see what it says.
#[derive(Drop)]
pub struct Ask2<'a> {
    /// The method, as it was written; it need not be a token.
    pub method: &'a [u8],
    /// Its number: at most 9 digits.
    pub cseq: u32,
    /// The whole head.
    pub head: Head<'a>,
}

impl<'a> Model for Ask2<'a> {
    ghost use Rattle.head_two.specs.ServerMessages.{AskParts};

    ghost Value = { AskParts };

    ghost view = { λ it. record { method = it.method.now; cseq = it.cseq; head = it.head } };
}

/// The request that an item is. Refused with [`TwoFault::Version`] where it has no request line of
/// RTSP/2.0, and then with [`TwoFault::Cseq`] where its number can't be read.
pub fn read_ask(alloc: Global, item: &Item) -> Result<Ask2<'_>, TwoFault>
    ensures { UnlessMemory two_refusal result (ask_of_item (shape_of item.now)) }
{
    let head = match item.head(alloc) {
        Ok(head) => head,
        Err(HeadFault::Memory) => return Err(TwoFault::Memory),
        Err(_) => return Err(TwoFault::Version),
    };
    let StartLine::Request {
        method,
        version,
        ..
    } = head.start()
    else {
        return Err(TwoFault::Version);
    };
    let cseq = checked_cseq(version, &head)?;
    Ok(Ask2 { method, cseq, head })
}
