//! The front of an item: what is known of an item that has come in part.
ghost use Rattle.std.specs.Prelude.{◌≡◌};
ghost use Rattle.rtsp_frame.specs.StreamFronts.{at_once};

use rtsp_head::{Extent, Span};

/// What is known of the item of which some bytes are held, so that no byte of them is looked at again.
#[derive(Clone, Copy)]
pub enum ItemFront {
    /// Nothing: no byte is held, or a CR that may belong to an empty line.
    Nothing,
    /// It is a frame whose length has not come.
    Frame,
    /// It is a message whose head goes on, and the last line of which begins at this place.
    Line(usize),
    /// It is this item, and its last byte has not come.
    End(Span),
}

/// What stands first in a stream.
#[derive(Clone, Copy)]
pub enum StreamFront {
    /// A whole item.
    Whole(Extent),
    /// No whole item: some bytes of empty lines, and then what has come of the next item.
    Begun {
        /// The bytes of the empty lines.
        skipped: usize,
        /// What is known of what follows them.
        front: ItemFront,
    },
}

impl StreamFront {
    /// What stands first where no empty line does.
    #[inline(always)]
    pub fn at_once(found: Result<Span, ItemFront>) -> StreamFront
        ensures { result ≡ at_once found }
    {
        match found {
            Ok(span) => StreamFront::Whole(Extent { skipped: 0, span }),
            Err(front) => StreamFront::Begun { skipped: 0, front },
        }
    }
}

/// What cutting leaves of some bytes.
#[derive(Clone, Copy)]
pub struct Leftover {
    /// The bytes of the items that were cut, and of the empty lines behind them.
    pub used: usize,
    /// What is known of the others.
    pub front: ItemFront,
}
