//! Laws over what is said of a run. Each holds by its contract alone: no call is made.
ghost use Rattle.std.specs.Prelude.{◌≡◌, ◌<◌, ◌⊎◌, length, None};
ghost use Rattle.gate_outside.specs.Contents.{Grows};
ghost use Rattle.rtsp_uri.specs.declared.base.Bases.{Bases};
ghost use Rattle.gateway_claim.specs.Happenings.{fault_in};
ghost use Rattle.run_status.specs.declared.status.Status.{Status};
ghost use Rattle.run_status.specs.declared.status.Status.TheVariants.{Done, Memory};
ghost use Rattle.hub_queues.specs.declared.limits.TheConstants.{MOST_CONNECTIONS};
ghost use Rattle.run_report.specs.Report.{report_text};
ghost use Rattle.gateway_run.specs.WholeRun.{RunSeen, ServeSays, HasShown, RanTo};
ghost use Rattle.gateway_run.specs.FaultlessRun.{NothingFailed, EndsUnhindered};

use gateway_claim::Core;

/// A run in which nothing outside failed ends with `Done`, all connections being over; with the
/// server's connection, for a cause that its history has and that is no fault of the link; with all
/// numbers given; or for want of memory. Its whole report was written, or memory was wanting before
/// it began. The first two premises are parts of what [`crate::serve`] ensures of its answer.
pub fn a_run_that_nothing_hinders_ends_well<M: Core>()
    ensures { (bases : Bases) (status : Status) (seen : RunSeen)
        → ServeSays M.follows bases status seen
        → HasShown status seen
        → NothingFailed seen
        → EndsUnhindered M.follows bases status seen }
{}

/// So where such a run's history has no end of the server's connection, and not all numbers were
/// given in it, the answer is `Done`, or memory was wanting; and the whole report was written.
pub fn a_run_without_a_fault_is_done<M: Core>()
    ensures { (bases : Bases) (status : Status) (seen : RunSeen)
        → (ran : RanTo M.follows bases status seen)
        → HasShown status seen
        → NothingFailed seen
        → fault_in ran.history ≡ None
        → length ran.desk.places.items < MOST_CONNECTIONS
        → ((status ≡ Done) ⊎ (status ≡ Memory)) × Grows seen.before seen.now (report_text ran.receipts) }
{}
