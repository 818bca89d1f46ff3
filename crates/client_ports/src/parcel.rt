//! What a port hands over.

use gate_bytes::Text;
use rtsp_head::Item;

/// What a port hands over.
#[derive(Drop)]
pub enum Parcel {
    /// An item that was read from a stream.
    Item(Item),
    /// Bytes to be written to a stream.
    Bytes(Text),
}

/// A parcel that found its port full, handed back.
#[derive(Drop)]
pub struct Full {
    /// The parcel.
    pub parcel: Parcel,
}
