//! The errors of reading a Transport field.
use std::fmt;

/// Why a Transport field offers or grants nothing that the gateway can use.
#[derive(Clone, Copy, Debug, PartialEq, Eq)]
pub enum TransportFault {
    /// The value is empty, or a double quote in it is not closed.
    Grammar,
    /// The value can be read, and no alternative in it fits.
    NoneFits,
}

impl fmt::Display for TransportFault {
    fn fmt<W: fmt::Write>(&self, f: &mut fmt::Formatter<W>) -> fmt::Result {
        match self {
            TransportFault::Grammar => write!(f, "the transport can't be read"),
            TransportFault::NoneFits => write!(f, "no transport fits"),
        }
    }
}

impl std::error::Error for TransportFault {}
