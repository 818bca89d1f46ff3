//! Why a connection was closed.

/// Why a connection was closed.
#[derive(Clone, Copy, Debug, PartialEq, Eq)]
pub enum CloseWhy {
    /// Its client ended it.
    Ended,
    /// Its client sent an item that can't be read.
    BadItem,
    /// Its client took its bytes too slowly.
    Slow,
    /// The connection to the server ended.
    Upstream,
}
