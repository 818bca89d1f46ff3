//! What the server says.
ghost use Rattle.std.specs.Prelude.{◌≡◌, false, IsOk, IfOk};
ghost use Rattle.rtsp_head.specs.Shapes.{shape_of};
ghost use Rattle.gateway_claim.specs.ServerItems.{heard, heard_reply, heard_ask};
ghost use Rattle.gateway_claim.specs.Tells.{is_frame};
ghost use Rattle.gateway_mux.specs.Free.{is_message};
ghost use Rattle.gateway_mux.specs.ServerItems.{heard_seen};
ghost use Rattle.head_two.specs.Replies.{reply_of_item, ask_of_item};

use gate_bytes::Memory;
use gateway_claim::FramingFault;
use head_two::{Ask2, Reply2, TwoFault, read_ask, read_reply};
use rtsp_head::{Item, ItemKind};
use std::alloc::Global;

/// An item of the server that is no frame, as it is taken.
#[derive(Drop)]
pub(crate) enum ServerItem<'a> {
    /// A reply to a request that went up.
    Reply(Reply2<'a>),
    /// A request of the server's own.
    Ask(Ask2<'a>),
    /// Nothing that can be taken, and why.
    Fault(FramingFault),
}

/// What an item of the server says that is no frame.
pub(crate) fn hear(alloc: Global, item: &Item) -> Result<ServerItem<'_>, Memory>
    requires { is_frame item.now.kind ≡ false }
    ensures says { IfOk result (λ said. heard_seen said ≡ heard (shape_of item.now)) }
    ensures free { is_message item.now.kind ≡ false → IsOk result }
{
    match item.kind {
        ItemKind::Request => hear_ask(alloc, item),
        ItemKind::Response => hear_reply(alloc, item),
        ItemKind::Frame => unreachable!(),
        ItemKind::Bad(kind) => Ok(ServerItem::Fault(FramingFault::Bad(kind))),
    }
}

/// What a reply of the server says.
fn hear_reply(alloc: Global, item: &Item) -> Result<ServerItem<'_>, Memory>
    ensures { IfOk result (λ said. heard_seen said ≡ heard_reply (reply_of_item (shape_of item.now))) }
{
    match read_reply(alloc, item) {
        Ok(reply) => Ok(ServerItem::Reply(reply)),
        Err(TwoFault::Version) => Ok(ServerItem::Fault(FramingFault::Version)),
        Err(TwoFault::Cseq) => Ok(ServerItem::Fault(FramingFault::Cseq)),
        Err(TwoFault::Memory) => Err(Memory),
    }
}

/// What a request of the server says.
fn hear_ask(alloc: Global, item: &Item) -> Result<ServerItem<'_>, Memory>
    ensures { IfOk result (λ said. heard_seen said ≡ heard_ask (ask_of_item (shape_of item.now))) }
{
    match read_ask(alloc, item) {
        Ok(request) => Ok(ServerItem::Ask(request)),
        Err(TwoFault::Version) => Ok(ServerItem::Fault(FramingFault::Version)),
        Err(TwoFault::Cseq) => Ok(ServerItem::Fault(FramingFault::Cseq)),
        Err(TwoFault::Memory) => Err(Memory),
    }
}
