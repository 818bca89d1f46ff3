//! The items of a text that comes in pieces.
ghost use Rattle.std.specs.Prelude.{◌≡◌, ◌<◌, ◌++◌, ℕ, List, [], IfOk, OnOk};
ghost use Rattle.rtsp_head.specs.Items.{Shape, items_of};
ghost use Rattle.rtsp_head.specs.Shapes.{shapes};
ghost use Rattle.rtsp_frame.specs.FramerState.{Framed};
ghost use Rattle.drill_run.specs.CountSteps.{piece_items};

use gate_bytes::{Memory, after, before};
use gateway_claim::ToClient;
use rtsp_frame::{Framer, Item};
use std::alloc::Global;

/// The most bytes of a piece that a player is handed at once.
const HANDED_SIZE: usize = 4_096;

/// Feeds a text in pieces of so many bytes.
fn feed_in_pieces(
    alloc: Global,
    framer: &mut Framer,
    text: &[u8],
    size: usize,
) -> Result<(), Memory>
    requires { 0 < size }
    ensures { OnOk result
        ((stream : List ℕ) (given : List Shape) → Framed framer.old stream given
        → Framed framer.new (stream ++ text.now) given) }
{
    let mut rest = text;
    while !rest.is_empty() {
        let at = size.min(rest.len());
        framer.feed(alloc, before(rest, at))?;
        rest = after(rest, at);
    }
    Ok(())
}

/// All whole items that a framer has.
fn whole_items(alloc: Global, framer: &mut Framer) -> Result<Vec<Item>, Memory>
    ensures { IfOk result (λ items.
        (stream : List ℕ) → Framed framer.old stream [] → shapes items.items ≡ items_of stream) }
{
    let mut items = Vec::new(alloc);
    while let Some(item) = framer.next() {
        items.push(item)?;
    }
    Ok(items)
}

/// The items of a text that comes in pieces of so many bytes.
pub fn items_in_pieces(alloc: Global, text: &[u8], size: usize) -> Result<Vec<Item>, Memory>
    requires { 0 < size }
    ensures { IfOk result (λ items. shapes items.items ≡ items_of text.now) }
{
    let mut framer = Framer::new(alloc);
    feed_in_pieces(alloc, &mut framer, text, size)?;
    Ok(whole_items(alloc, &mut framer)?)
}

/// The items of what a player is handed.
pub fn handed_items(alloc: Global, piece: &Option<ToClient>) -> Result<Vec<Item>, Memory>
    ensures { IfOk result (λ items. shapes items.items ≡ piece_items piece.now) }
{
    match piece {
        Some(piece) => Ok(items_in_pieces(alloc, piece.bytes.as_bytes(), HANDED_SIZE)?),
        None => Ok(Vec::new(alloc)),
    }
}
