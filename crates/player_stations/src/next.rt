//! What came of waiting for a link.

/// What came of waiting for a link.
pub enum Next<I, O> {
    /// A link.
    Link(I, O),
    /// None for now.
    NotYet,
    /// No link comes any more, or an ending was kept.
    Over,
    /// No link could be accepted.
    Failed,
}
