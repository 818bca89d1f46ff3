//! The hub.
ghost use Rattle.gateway_hub.specs.Keeps.{KeepsSome, StandsIdle};

use crate::Recorder;
use crate::state::HubState;
use gateway_claim::Core;

mod calls;

/// What all threads of the gateway share under one lock: a core, a recorder, and the hub's ends of the ports.
///
/// It keeps that there is a history of the core, in which no request of any connection waits, and which is that of the
/// recorder's entries where these are told; and that what was put and taken is what this history says.
#[derive(Drop)]
pub struct Hub<M: Core, R: Recorder> {
    state: HubState<M, R>,
    ghost keeps: { ∥ KeepsSome (StandsIdle M.stands M.waits M.bases state.core) (R.entries state.recorder)
        (R.faults state.recorder) state.desk ∥₁ },
}
