//! The next item that a reader has for its port.
ghost use Rattle.std.specs.Prelude.{◌≡◌, ℕ, List, [], ◌∷◌, ◌++◌, None, IfSome, IfNone};
ghost use Rattle.rtsp_head.specs.Items.{Shape, items_of};
ghost use Rattle.rtsp_head.specs.Shapes.{shape_of};
ghost use Rattle.rtsp_frame.specs.FramerState.{Framed};
ghost use Rattle.gateway_links.specs.PutParcels.{waiting_shape};

use rtsp_frame::Framer;
use rtsp_head::Item;

/// The item that waits, or else the next one of the framer.
pub fn next_item(framer: &mut Framer, waiting: &mut Option<Item>) -> Option<Item>
    ensures waits { waiting.new ≡ None }
    ensures some { IfSome result (λ item.
        (stream : List ℕ) (put : List Shape) → Framed framer.old stream (put ++ waiting_shape waiting.old)
        → Framed framer.new stream (put ++ shape_of item ∷ [])) }
    ensures none { IfNone result
        ((stream : List ℕ) (put : List Shape) → Framed framer.old stream (put ++ waiting_shape waiting.old)
        → Framed framer.new stream put × (put ≡ items_of stream)) }
{
    match waiting.take() {
        Some(item) => Some(item),
        None => framer.next(),
    }
}
