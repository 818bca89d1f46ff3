//! Where a connection stands in a core.

/// Where a core keeps a connection. The core gives it with the number of the connection, and knows by it where that is without
/// searching for the number.
#[derive(Clone, Copy, Debug, PartialEq, Eq)]
pub struct ConnectionKey {
    /// The place, as this core counts them.
    pub place: usize,
}

/// Where a connection stands in a core as it is.
#[derive(Clone, Copy, Debug, PartialEq, Eq)]
pub enum Standing {
    /// It is not alive, so nothing comes of its items.
    Closed,
    /// It is alive, and a request of it would wait.
    Busy,
    /// It is alive, no request of it would wait, and it is kept under this key.
    Ready(ConnectionKey),
}
