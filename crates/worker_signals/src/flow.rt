//! What writers tell of how they get on.

use std::array;
use std::sync::atomic::{AtomicU64, Ordering};

/// How many places there are for what is told of players' connections. Those whose numbers leave the same rest share one; of
/// as many as there can be stations mostly no two do. It need not follow that number, which is the command line's: where more
/// share a place, more workers wake in vain, and less is known of how writers get on.
pub const PLACES: usize = 64;

/// With more parcels than this waiting for the server, no frame of a player is put into its port.
const MOST_WAITING: u64 = 64;

/// What writers tell of how they get on, for those who put parcels into their ports.
#[derive(Drop)]
pub struct Flow {
    /// How many parcels were put for the server, as it was told last.
    asked: AtomicU64,
    /// How many of them its writer has taken.
    sent: AtomicU64,
    /// Each is the number of a connection whose outlet takes nothing for now, and 1 more; or 0.
    stuck: [AtomicU64; PLACES],
}

impl Flow {
    /// Nothing was told.
    pub fn new() -> Flow {
        Flow {
            asked: AtomicU64::new(0),
            sent: AtomicU64::new(0),
            stuck: array::from_fn(|_| AtomicU64::new(0)),
        }
    }

    /// Tells how many parcels were put for the server.
    pub fn tell_asked(&self, asked: u64) {
        self.asked.store(asked, Ordering::Relaxed);
    }

    /// Tells how many parcels the server's writer has taken.
    pub fn tell_sent(&self, sent: u64) {
        self.sent.store(sent, Ordering::Relaxed);
    }

    /// Whether so many parcels wait for the server that a frame is not to be put behind them.
    pub fn is_crowded(&self) -> bool {
        let asked = self.asked.load(Ordering::Relaxed);
        asked.saturating_sub(self.sent.load(Ordering::Relaxed)) > MOST_WAITING
    }

    /// Tells whether the outlet of the connection with this number takes nothing for now.
    pub fn tell_stuck(&self, conn: u32, is_stuck: bool) {
        let told = if is_stuck { name_of(conn) } else { 0 };
        self.stuck[conn as usize % PLACES].store(told, Ordering::Relaxed);
    }

    /// Whether that was told of the connection with this number last.
    pub fn is_stuck(&self, conn: u32) -> bool {
        self.stuck[conn as usize % PLACES].load(Ordering::Relaxed) == name_of(conn)
    }
}

/// How the connection with this number is named where 0 is nobody.
fn name_of(conn: u32) -> u64 {
    u64::from(conn) + 1
}
