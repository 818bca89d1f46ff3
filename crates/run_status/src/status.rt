//! How a run of a gateway ends: the status, its exit status and its fault line.
ghost use Rattle.std.specs.Prelude.{◌≡◌};
ghost use Rattle.run_status.specs.FaultLines.{entry_fault_name};

use crate::cause::cause_text;
use gate_transcript::BadEntryKind;
use gateway_claim::UpCause;
use std::fmt;

/// How a run ended.
#[derive(Clone, Copy, Debug, PartialEq, Eq)]
pub enum Status {
    /// The command did all that it was asked.
    Done,
    /// The word at this place, counted from 0 after the program's name, is refused.
    Usage { place: usize },
    /// The source failed, before what it gave had a fault of its own.
    SourceFault,
    /// The sink failed.
    SinkFault,
    /// The source holds no transcript: the entry whose first byte has this place has this fault.
    BadTranscript { place: u64, kind: BadEntryKind },
    /// The connection to the server ended, for this cause.
    Upstream { cause: UpCause },
    /// The address at which players are awaited can't be had.
    ListenFault,
    /// The recording can't be begun, or writing it failed.
    RecordFault,
    /// A thread was refused.
    CrewRefused,
    /// Memory ran out.
    Memory,
    /// The source holds more bytes than a transcript may have.
    TooLong,
    /// A connection of a player could not be accepted.
    AcceptFault,
    /// The server can't be reached.
    DialFault,
    /// All numbers of connections were given.
    NumbersSpent,
}

impl Status {
    ghost use Rattle.std.specs.Prelude.{◌≡◌};
    ghost use Rattle.run_status.specs.ExitCodes.{exit_code};

    /// The exit status of the program (this project's own).
    pub fn exit_code(self) -> u8
        ensures { result ≡ exit_code self }
    {
        match self {
            Status::Done => 0,
            Status::Usage { .. } => 2,
            Status::SourceFault => 3,
            Status::SinkFault => 4,
            Status::BadTranscript { .. } => 5,
            Status::Upstream { .. } => 6,
            Status::ListenFault => 7,
            Status::RecordFault => 8,
            Status::CrewRefused => 9,
            Status::Memory => 10,
            Status::TooLong => 11,
            Status::AcceptFault => 12,
            Status::DialFault => 13,
            Status::NumbersSpent => 14,
        }
    }
}

// The fault line of a run, without the program's name; nothing for Done.
impl fmt::Display for Status {
    ghost use Rattle.std.specs.Prelude.{Some};
    ghost use Rattle.run_status.specs.FaultLines.{fault_line};

    ghost output = { λ status. Some (fault_line status) };

    fn fmt<W: fmt::Write>(&self, f: &mut fmt::Formatter<W>) -> fmt::Result {
        match self {
            Status::Done => Ok(()),
            Status::Usage { place } => write!(f, "usage: word {place}"),
            Status::SourceFault => write!(f, "source failed"),
            Status::SinkFault => write!(f, "sink failed"),
            Status::BadTranscript { place, kind } => {
                let fault = entry_fault_name(*kind);
                write!(f, "bad transcript at {place}: {fault}")
            }
            Status::Upstream { cause } => {
                let text = cause_text(*cause);
                write!(f, "upstream: {text}")
            }
            Status::ListenFault => write!(f, "listen failed"),
            Status::RecordFault => write!(f, "record failed"),
            Status::CrewRefused => write!(f, "no crew"),
            Status::Memory => write!(f, "out of memory"),
            Status::TooLong => write!(f, "transcript too long"),
            Status::AcceptFault => write!(f, "accept failed"),
            Status::DialFault => write!(f, "dial failed"),
            Status::NumbersSpent => write!(f, "connection numbers spent"),
        }
    }
}

/// The name of why bytes are no transcript.
fn entry_fault_name(kind: BadEntryKind) -> &'static str
    ensures { result.now ≡ entry_fault_name kind }
{
    match kind {
        BadEntryKind::Magic => "Magic",
        BadEntryKind::Kind => "Kind",
        BadEntryKind::Conn => "Conn",
        BadEntryKind::Length => "Length",
        BadEntryKind::Cut => "Cut",
    }
}
