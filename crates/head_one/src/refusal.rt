//! How a request is refused.
ghost use Rattle.std.specs.Prelude.{◌≡◌};
ghost use Rattle.head_one.specs.declared.refusal.RequestFault.TheVariants.{Memory as WantOfMemory};

use gate_bytes::{Memory, Text};

/// What is answered to a request that is refused.
#[derive(Drop)]
pub struct Refusal {
    /// The code.
    pub code: u16,
    /// The request's number, where it could be read.
    pub cseq: Option<u64>,
    /// With 551: what the request requires, and no option of which is supported (RFC 2326, 12.41).
    pub unsupported: Option<Text>,
}

/// Why a request was not taken.
#[derive(Drop)]
pub enum RequestFault {
    /// The first rule that applies refuses it.
    Refused(Refusal),
    /// Memory was wanting.
    Memory,
}

impl From<Memory> for RequestFault {
    ghost from_gives = { λ _ fault. fault ≡ WantOfMemory };

    fn from(_memory: Memory) -> RequestFault {
        RequestFault::Memory
    }
}
