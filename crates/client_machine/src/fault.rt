//! Why there is no plan.

use gate_bytes::Memory;

/// Why there is no plan for an event.
#[derive(Clone, Copy, Debug, PartialEq, Eq)]
pub enum PlanFault {
    /// The player would be handed 2^32 bytes or more, whose length no record has room for, or a request of 2^31 bytes or
    /// more would go up.
    TooLong,
    /// A request came, and [`MOST_WAITING`](client_slot::MOST_WAITING) wait.
    TooMany,
    /// Memory is wanting.
    Memory,
}

/// Above, a run ends as it does when memory is out: no memory holds so much.
impl From<PlanFault> for Memory {
    fn from(_fault: PlanFault) -> Memory {
        Memory
    }
}
