//! What a hub keeps of its connections and of the server's: the ends of their ports, and what is left of them.
//!
//! A connection has a [`HubConnection`] until it is retired, and a [`Receipt`] from then on. Each call changes one of them, by its
//! number, and leaves the others as they were. What is put is put whole, or its port was full, which is told.
#![tactic(auto)]

mod ending;
mod limits;
mod line;
mod places;
mod receipt;
mod server;

pub use ending::{Ending, StopWhy};
pub use limits::{
    INWARD_CAPACITY, MOST_CONNECTIONS, OUTWARD_CAPACITY, SERVER_CAPACITY, SERVER_INWARD_CAPACITY,
};
pub use line::{HubConnection, Place};
pub use places::{count_arrival, hand_out, is_seated, next_of, note_close, put_first, room_of};
pub use receipt::{Close, Receipt};
pub use server::Server;
