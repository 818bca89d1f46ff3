//! The hub: what all threads of the gateway share under one lock.
//!
//! A hub has a core, a recorder, and its ends of the ports to the workers. Each call that takes an event plans it, notes
//! it, commits it, and puts what it hands out, first to the client and then to the server. So what was noted is the
//! history of the core, and what was put is what that history hands out. Where a port was full, the parcel is dropped, and
//! its client is found too slow, or the connection to the server ends.
#![tactic(auto)]

mod calls;
mod close;
mod desk;
mod enter;
mod fault;
mod hub;
mod note;
mod receipts;
mod retire;
mod seat;
mod state;

pub use fault::HubFault;
pub use gate_transcript::{NoteFault, Recorder};
pub use hub::Hub;
pub use hub_queues::{
    Close, Ending, INWARD_CAPACITY, MOST_CONNECTIONS, OUTWARD_CAPACITY, Receipt, SERVER_CAPACITY,
    SERVER_INWARD_CAPACITY, StopWhy,
};
pub use receipts::Receipts;
pub use seat::{Entered, Seat, Taken};
