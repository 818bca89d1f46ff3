//! Items of streams, by their text.

use rtsp_frame::{Framer, Item};
use std::alloc::Global;
use test_text::{CaseFault, meant};

/// The first item of the stream that a text means.
pub fn item_in(alloc: Global, text: &[u8]) -> Result<Item, CaseFault> {
    let bytes = meant(alloc, text)?;
    let mut framer = Framer::new(alloc);
    framer.feed(alloc, bytes.as_bytes())?;
    framer.next().ok_or(CaseFault::Unreadable)
}
