//! Limits of a hub (this project's own).

/// How many connections can enter. Their numbers are from 0 on, and have 32 bits.
pub const MOST_CONNECTIONS: usize = 4_294_967_295;

/// How many items of one client wait until they are taken.
pub const INWARD_CAPACITY: usize = 16;

/// How many items of the server wait until they are taken: more than its reader puts in one round.
pub const SERVER_INWARD_CAPACITY: usize = 256;

/// How many parcels wait for one client's writer.
pub const OUTWARD_CAPACITY: usize = 256;

/// How many parcels wait for the server's writer.
pub const SERVER_CAPACITY: usize = 4_096;
