//! Why an RTP-Info field could not be read.
ghost use Rattle.std.specs.Prelude.{◌≡◌};
ghost use Rattle.rtp_info.specs.declared.fault.InfoFault.TheVariants.{Memory as WantOfMemory};

use gate_bytes::Memory;
use std::fmt;

/// Why an RTP-Info field could not be read.
#[derive(Clone, Copy, Debug, PartialEq, Eq)]
pub enum InfoFault {
    /// The value is outside the grammar.
    Grammar,
    /// Memory was wanting.
    Memory,
}

impl fmt::Display for InfoFault {
    fn fmt<W: fmt::Write>(&self, f: &mut fmt::Formatter<W>) -> fmt::Result {
        match self {
            InfoFault::Grammar => write!(f, "the RTP-Info can't be read"),
            InfoFault::Memory => write!(f, "out of memory"),
        }
    }
}

impl std::error::Error for InfoFault {}

impl From<Memory> for InfoFault {
    ghost from_gives = { λ _ fault. fault ≡ WantOfMemory };

    fn from(_memory: Memory) -> InfoFault {
        InfoFault::Memory
    }
}
