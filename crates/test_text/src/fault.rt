//! Why cases are not read.

use gate_bytes::Memory;
use std::alloc::{AllocError, AllocFailed};
use std::fmt;

/// Why a line of a case is not read.
#[derive(Clone, Copy)]
pub enum CaseFault {
    /// Memory was wanting.
    Memory,
    /// The line has no meaning.
    Unreadable,
}

impl CaseFault {
    /// The same of the line with a number.
    pub fn at(self, line: u64) -> CasesFault {
        match self {
            CaseFault::Memory => CasesFault::Memory,
            CaseFault::Unreadable => CasesFault::Line(line),
        }
    }
}

impl From<Memory> for CaseFault {
    fn from(_memory: Memory) -> CaseFault {
        CaseFault::Memory
    }
}

impl From<AllocError> for CaseFault {
    fn from(_error: AllocError) -> CaseFault {
        CaseFault::Memory
    }
}

impl<T: Drop> From<AllocFailed<T>> for CaseFault {
    fn from(_failed: AllocFailed<T>) -> CaseFault {
        CaseFault::Memory
    }
}

/// Why the cases of a text are not read.
#[derive(Clone, Copy)]
pub enum CasesFault {
    /// Memory was wanting.
    Memory,
    /// The line with this number, counted from 1, has no meaning.
    Line(u64),
}

impl fmt::Display for CasesFault {
    fn fmt<W: fmt::Write>(&self, f: &mut fmt::Formatter<W>) -> fmt::Result {
        match self {
            CasesFault::Memory => write!(f, "out of memory"),
            CasesFault::Line(number) => write!(f, "bad line {number}"),
        }
    }
}

impl From<Memory> for CasesFault {
    fn from(_memory: Memory) -> CasesFault {
        CasesFault::Memory
    }
}
