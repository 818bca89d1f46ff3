//! What comes of the calls of a reader.

/// What came of a read.
#[derive(Clone, Copy, Debug, PartialEq, Eq)]
pub enum Read {
    /// Bytes came, at least one, and were framed.
    Came,
    /// The inlet told its end.
    End,
    /// The inlet had nothing for now.
    NotYet,
    /// The inlet failed.
    Failed,
    /// Memory was wanting for what came, in this read or before. The reader is over: it reads no more.
    Memory,
}

/// What came of a push.
#[derive(Clone, Copy, Debug, PartialEq, Eq)]
pub enum Push {
    /// An item was put.
    Put,
    /// The port is full, and the item waits in the reader.
    Full,
    /// No whole item is left of what came.
    Empty,
}
