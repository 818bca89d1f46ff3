//! The world over TCP and files: the trusted edge.
//!
//! Doors, links and recorders of the system tell no content. What is proved of them is that each fault, each wait and each
//! end is counted.
//!
//! A recording is written by a thread of its own: a [`FileSink`] copies what is noted into a bounded queue, so that a disk or a
//! pipe that stalls stops nobody.
#![tactic(auto)]

mod backlog;
mod door;
mod file_queue;
mod file_sink;
mod file_writer;
mod link;
mod not_yet;
mod trouble;
mod world;

pub use backlog::QUEUE_BYTES;
pub use door::{ACCEPT_MILLISECONDS, MOST_TROUBLE, TROUBLE_MILLISECONDS, TcpDoor};
pub use file_queue::STALL_SECONDS;
pub use file_sink::FileSink;
pub use file_writer::IDLE_MICROSECONDS;
pub use link::{
    DIAL_SECONDS, OFFER_MILLISECONDS, READ_MILLISECONDS, TcpInlet, TcpOutlet, WRITE_SECONDS, halves,
};
pub use world::TcpWorld;
