//! What the calls of a hub answer where they did nothing.

use gate_bytes::Memory;
use gateway_claim::UpCause;
use hub_queues::{Ending, StopWhy};

/// Why a call of a hub did nothing.
#[derive(Clone, Copy, Debug, PartialEq, Eq)]
pub enum HubFault {
    /// The connection to the server had ended.
    Ended(UpCause),
    /// The hub had been stopped.
    Stopped(StopWhy),
    /// The recorder failed, which stopped the hub.
    RecordFault,
    /// Memory was wanting.
    Memory,
}

impl From<Memory> for HubFault {
    ghost use Rattle.std.specs.Prelude.{◌≡◌};
    ghost use Rattle.gateway_hub.specs.declared.fault.HubFault.TheVariants as fault;

    ghost from_gives = { λ _ e. e ≡ fault.Memory };

    fn from(_: Memory) -> HubFault {
        HubFault::Memory
    }
}

impl From<Ending> for HubFault {
    ghost use Rattle.std.specs.Prelude.{◌≡◌};
    ghost use Rattle.gateway_hub.specs.Endings.{fault_of};

    ghost from_gives = { λ ending e. e ≡ fault_of ending };

    fn from(ending: Ending) -> HubFault {
        match ending {
            Ending::Upstream(cause) => HubFault::Ended(cause),
            Ending::Stopped(why) => HubFault::Stopped(why),
        }
    }
}
