//! What lies outside of the gateway: where its bytes come from and where they go.
//!
//! Sources and sinks, and the inlets and outlets of links, are traits, so that the gateway is proved over all of them at
//! once. A clause on content holds where the content is told, as it is in memory; a real file tells none. Every fault has
//! a cause: it comes only where a count of faults rose.
#![tactic(auto)]

mod door;
mod inlet;
mod links;
mod mark;
mod memory;
mod memory_door;
mod memory_link;
mod new_link;
mod outlet;
mod parts;
mod script;
mod streams;

pub use door::{Arrived, Door};
pub use inlet::MemoryInlet;
pub use links::{Got, Inlet, Outlet};
pub use memory::{MemorySink, MemorySource};
pub use memory_door::MemoryDoor;
pub use memory_link::MemoryLink;
pub use new_link::{Links, NewLink};
pub use outlet::MemoryOutlet;
pub use parts::{Part, Parts};
pub use script::{Calls, Numbers, Script};
pub use streams::{Failed, Sink, Source, write_all};
