//! Receipts: what a connection's life came to.

use crate::Ending;
use gateway_claim::CloseWhy;

/// How a connection was closed.
#[derive(Clone, Copy, Debug, PartialEq, Eq)]
pub struct Close {
    /// Why.
    pub why: CloseWhy,
    /// Whether an item of the server closed it.
    pub by_upstream: bool,
}

/// What a connection's life came to. The hub alone makes one, when a connection is retired.
#[derive(Clone, Copy, Debug, PartialEq, Eq)]
pub struct Receipt {
    /// The connection's number.
    pub conn: u32,
    /// How many parcels its reader put.
    pub pushed: u64,
    /// How many items of it were taken as events.
    pub arrived: u64,
    /// How many parcels were put for its writer.
    pub handed: u64,
    /// How many parcels its writer took.
    pub taken: u64,
    /// Why it was closed; [`CloseWhy::Ended`] where it was not.
    pub why: CloseWhy,
    /// Whether an item of the server closed it.
    pub by_upstream: bool,
    /// Why the hub took no more events, where it did so when the connection was retired.
    pub ending: Option<Ending>,
}
