//! The end of a run whose sink holds records back.
ghost use Rattle.std.specs.Prelude.{◌≡◌, OnOk, OnErr};
ghost use Rattle.run_status.specs.declared.status.Status.TheVariants as status;

use gate_outside::Failed;
use run_status::Status;

/// The status of a run whose sink was flushed last. A flush that fails stands before every other answer, since the records
/// that the other answer speaks of may be missing.
pub fn after_flush(answer: Status, flushed: Result<(), Failed>) -> Status
    ensures ok { OnOk flushed (result ≡ answer) }
    ensures err { OnErr flushed (result ≡ status.SinkFault) }
{
    match flushed {
        Ok(()) => answer,
        Err(Failed) => Status::SinkFault,
    }
}
