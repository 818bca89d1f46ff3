//! What the server's link met.

/// What the reader and the writer of the server's link met.
#[derive(Clone, Copy, Debug, PartialEq, Eq)]
pub struct UpRun {
    /// Reading failed.
    pub read_failed: bool,
    /// Writing failed.
    pub write_failed: bool,
    /// The server told its end, and all that it sent was put.
    pub ended: bool,
}
