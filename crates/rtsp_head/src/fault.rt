//! Why a head could not be read.
ghost use Rattle.std.specs.Prelude.{◌≡◌};
ghost use Rattle.rtsp_head.specs.declared.fault.HeadFault.TheVariants.{Memory as WantOfMemory};

use gate_bytes::Memory;

/// The first fault of a head: the first line is looked at first, then each further line in order.
#[derive(Clone, Copy, Debug, PartialEq, Eq)]
pub enum HeadFault {
    /// The line holds a byte 0, or a CR that is no part of its end.
    Control,
    /// The first line is neither a request line nor a status line.
    Start,
    /// The line has no colon, or goes on with a header where none stands above it.
    Colon,
    /// What stands before the first colon is not a token.
    Name,
    /// The line begins one header more than [`MOST_HEADERS`](crate::MOST_HEADERS).
    Many,
    /// Memory was wanting.
    Memory,
}

impl From<Memory> for HeadFault {
    ghost from_gives = { λ _ fault. fault ≡ WantOfMemory };

    fn from(_memory: Memory) -> HeadFault {
        HeadFault::Memory
    }
}
