//! Links in memory.

use crate::{MemoryInlet, MemoryOutlet};

/// A link in memory, by its two halves.
#[derive(Drop)]
pub struct MemoryLink {
    /// What comes in by it.
    pub inlet: MemoryInlet,
    /// What goes out by it.
    pub outlet: MemoryOutlet,
}
