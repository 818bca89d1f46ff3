//! How a run ended, by what is left of it.
ghost use Rattle.std.specs.Prelude.{◌≡◌, true, is_some, IfSome, OnOk, OnErr};
ghost use Rattle.run_status.specs.declared.status.Status.TheVariants as statuses;
ghost use Rattle.run_report.specs.Endings.{GoesWith, is_shown, met_by, unrecorded, unreported};

use crate::up_run::UpRun;
use gate_outside::Failed;
use gateway_claim::UpCause;
use gateway_hub::{Ending, StopWhy};
use run_status::Status;

/// What is left of a run tells this once all its workers have ended.
#[derive(Clone, Copy, Debug, PartialEq, Eq)]
pub struct RunEnd {
    /// Why the hub takes no more events.
    pub ending: Option<Ending>,
    /// Whether all connections are over.
    pub over: bool,
    /// What the workers of the server's link met.
    pub run: UpRun,
    /// Whether accepting a link has failed.
    pub failed: bool,
    /// Whether the door has told that no link comes any more.
    pub ended: bool,
    /// Whether a thread was refused.
    pub refused: bool,
}

impl RunEnd {
    /// How the run ended. None exactly where what the workers met does not show the ending, which no right run tells.
    pub fn status(self) -> Option<Status>
        ensures goes { IfSome result (λ status. GoesWith status self) }
        ensures shown { is_some result ≡ is_shown self.ending self }
    {
        match self.ending? {
            Ending::Upstream(cause) => self.upstream_status(cause),
            Ending::Stopped(StopWhy::Memory) => Some(Status::Memory),
            Ending::Stopped(StopWhy::Record) => Some(Status::RecordFault),
            Ending::Stopped(StopWhy::Spent) => Some(Status::NumbersSpent),
            Ending::Stopped(StopWhy::Crew) if self.refused => Some(Status::CrewRefused),
            Ending::Stopped(StopWhy::Accept) if self.failed => Some(Status::AcceptFault),
            Ending::Stopped(StopWhy::DoorEnd) if self.ended && self.over => Some(Status::Done),
            Ending::Stopped(StopWhy::Crew | StopWhy::Accept | StopWhy::DoorEnd) => None,
        }
    }

    /// How a run ended that ended with the server's connection.
    fn upstream_status(self, cause: UpCause) -> Option<Status>
        ensures goes { IfSome result (λ status.
            (status ≡ statuses.Upstream cause) × (met_by cause self.run ≡ true)) }
        ensures shown { is_some result ≡ met_by cause self.run }
    {
        let met = match cause {
            UpCause::Ended => self.run.ended,
            UpCause::ReadFault => self.run.read_failed,
            UpCause::WriteFault => self.run.write_failed,
            _ => true,
        };
        if met {
            return Some(Status::Upstream { cause });
        }
        None
    }
}

/// The status of a run whose recording was written to its end before the report: a recorder that fails then is told only where
/// nothing else went wrong.
pub fn after_flush(status: Status, flushed: Result<(), Failed>) -> Status
    ensures ok { OnOk flushed (result ≡ status) }
    ensures err { OnErr flushed (result ≡ unrecorded status) }
{
    match (status, flushed) {
        (Status::Done, Err(Failed)) => Status::RecordFault,
        (status, _) => status,
    }
}

/// The status of a run whose report was written last: a sink that fails is told only where nothing else went wrong.
pub fn after_report(status: Status, written: Result<(), Failed>) -> Status
    ensures ok { OnOk written (result ≡ status) }
    ensures err { OnErr written (result ≡ unreported status) }
{
    match (status, written) {
        (Status::Done, Err(Failed)) => Status::SinkFault,
        (status, _) => status,
    }
}
