//! What a link in memory gives, part by part.

use gate_bytes::{OwnedList, Text};

/// Bytes that a link gives once an outlet has taken enough.
#[derive(Drop)]
pub struct Part {
    /// The bytes.
    pub bytes: Text,
    /// The number of the outlet.
    pub outlet: u32,
    /// How many bytes the outlet has to have taken; with 0 it is not asked.
    pub after: u64,
}

/// An owned list of parts.
pub type Parts = OwnedList<Part>;
