//! What a connection's worker is given, and what it is told.
ghost use Rattle.std.specs.Prelude.{◌≡◌};

use client_ports::{Putter, Taker};

/// A connection's pass. Only the hub makes one.
#[derive(Drop)]
pub struct Seat {
    /// The connection's number.
    pub(crate) conn: u32,
}

impl Seat {
    /// The connection's number.
    pub fn number(&self) -> u32
        ensures { result ≡ self.now.conn }
    {
        self.conn
    }
}

/// What a connection that enters is given.
#[derive(Drop)]
pub struct Entered {
    /// Its pass.
    pub seat: Seat,
    /// The end that puts the client's items.
    pub inward: Putter,
    /// The end that takes what the client is handed.
    pub outward: Taker,
}

/// What came of taking the first item in line of a connection.
#[derive(Clone, Copy, Debug, PartialEq, Eq)]
pub enum Taken {
    /// It was taken.
    Done,
    /// None was in line.
    Empty,
    /// A request of the connection is open, so nothing was taken.
    Busy,
    /// The connection is not alive.
    Closed,
}
