//! Why a hub takes no more events.

use gateway_claim::UpCause;

/// Why a hub was stopped.
#[derive(Clone, Copy, Debug, PartialEq, Eq)]
pub enum StopWhy {
    /// Memory was wanting.
    Memory,
    /// A worker could not be started.
    Crew,
    /// A connection could not be accepted.
    Accept,
    /// All numbers of connections were given.
    Spent,
    /// The recorder failed.
    Record,
    /// No connection comes any more.
    DoorEnd,
}

/// Why a hub takes no more events. The first that comes is kept.
#[derive(Clone, Copy, Debug, PartialEq, Eq)]
pub enum Ending {
    /// The connection to the server ended.
    Upstream(UpCause),
    /// The hub was stopped.
    Stopped(StopWhy),
}
