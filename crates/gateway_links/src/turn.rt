//! What comes of a turn of a writer.

/// The most parcels that one turn takes (this project's own), so that no turn is endless.
pub const MOST_PARCELS: u32 = 4_096;

/// What came of a turn of a writer.
#[derive(Clone, Copy, Debug, PartialEq, Eq)]
pub enum WriterTurn {
    /// Bytes were written. Others may be held.
    Wrote,
    /// Bytes are held, and the outlet took none of them for now.
    Stuck,
    /// No parcel was there, and no byte is held.
    Idle,
    /// The outlet failed, in this turn or before.
    Failed,
}
