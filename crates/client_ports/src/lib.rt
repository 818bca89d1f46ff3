//! Ports: bounded queues that hand parcels from one thread to another, oldest first.
//!
//! A port has two ends. A [`Putter`] knows the list of parcels that it put, and a [`Taker`] the list of those that it
//! took. No clause names what the queue holds, which the other thread may change at any moment; what ties the ends
//! together is that the parcels taken are always the first of those put. [`meet`] says so of two ends that came back.
//!
//! Only [`port`] takes memory. Nothing is promised of when a parcel arrives; a [`Bell`] wakes who pauses until one may have.
#![tactic(auto)]

mod bell;
mod parcel;
mod ports;
mod putter;
mod rule;
mod taker;

pub use bell::Bell;
pub use parcel::{Full, Parcel};
pub use ports::{Met, meet, port};
pub use putter::Putter;
pub use taker::{TakenParcels, Taker};
