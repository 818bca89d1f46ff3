//! Why a message of the server could not be taken.
ghost use Rattle.std.specs.Prelude.{◌≡◌};
ghost use Rattle.head_two.specs.declared.fault.TwoFault.TheVariants.{Memory as WantOfMemory};

use gate_bytes::Memory;
use std::fmt;

/// The first fault of a message: the version is looked at first, then the number.
#[derive(Clone, Copy, Debug, PartialEq, Eq)]
pub enum TwoFault {
    /// The version is not exactly `RTSP/2.0`.
    Version,
    /// The CSeq is missing, or is not 1 to 9 digits.
    Cseq,
    /// Memory was wanting.
    Memory,
}

impl From<Memory> for TwoFault {
    ghost from_gives = { λ _ fault. fault ≡ WantOfMemory };

    fn from(_memory: Memory) -> TwoFault {
        TwoFault::Memory
    }
}

impl fmt::Display for TwoFault {
    fn fmt<W: fmt::Write>(&self, f: &mut fmt::Formatter<W>) -> fmt::Result {
        match self {
            TwoFault::Version => write!(f, "a version other than RTSP/2.0"),
            TwoFault::Cseq => write!(f, "no CSeq of 1 to 9 digits"),
            TwoFault::Memory => write!(f, "{Memory}"),
        }
    }
}

impl std::error::Error for TwoFault {}
