//! Who has a turn.

/// Who has a turn.
#[derive(Clone, Copy, Debug, PartialEq, Eq)]
pub enum Who {
    /// The player with this number.
    Client(u32),
    /// The server.
    Server,
}
