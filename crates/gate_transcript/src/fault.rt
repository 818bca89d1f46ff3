//! Why a transcript can't be read.

use gate_bytes::Memory;
use std::alloc::AllocError;

/// Why bytes are no transcript.
#[derive(Clone, Copy, Debug, PartialEq, Eq)]
pub enum BadEntryKind {
    /// It doesn't begin with the eight bytes of a transcript.
    Magic,
    /// A kind byte that names no kind.
    Kind,
    /// A connection that enters twice, or that has not entered; or another than 0 for the server.
    Conn,
    /// A length that the kind does not have, or a byte that is no reason.
    Length,
    /// The end of the bytes within an entry.
    Cut,
}

/// The first fault of a transcript.
#[derive(Clone, Copy, Debug, PartialEq, Eq)]
pub struct BadEntry {
    /// The place of the entry's first byte, counted from 0.
    pub place: u64,
    /// What is wrong with it.
    pub kind: BadEntryKind,
}

/// What stops a reader of entries.
#[derive(Clone, Copy, Debug, PartialEq, Eq)]
pub enum EntryFault {
    /// The bytes are no transcript.
    Bad(BadEntry),
    /// Memory ran out.
    Memory,
}

impl From<Memory> for EntryFault {
    ghost use Rattle.std.specs.Prelude.{◌≡◌};
    ghost use Rattle.gate_transcript.specs.declared.fault.EntryFault.TheVariants as fault;

    ghost from_gives = { λ _ e. e ≡ fault.Memory };

    fn from(_: Memory) -> EntryFault {
        EntryFault::Memory
    }
}

/// Why nothing was read from a source.
#[derive(Clone, Copy, Debug, PartialEq, Eq)]
pub enum ReadFault {
    /// The source failed.
    Source,
    /// Memory ran out, before the source was read.
    Memory,
}

impl From<AllocError> for ReadFault {
    ghost use Rattle.std.specs.Prelude.{◌≡◌};
    ghost use Rattle.gate_transcript.specs.declared.fault.ReadFault.TheVariants as read_fault;

    ghost from_gives = { λ _ e. e ≡ read_fault.Memory };

    fn from(_: AllocError) -> ReadFault {
        ReadFault::Memory
    }
}
