//! What workers tell each other.
ghost use Rattle.std.specs.Prelude.{◌≡◌};
ghost use Rattle.worker_signals.specs.DuePlayers.{louder};

use crate::flow::{Flow, PLACES};
use crate::meeting::Meeting;
use crate::turnstile::Turnstile;
use client_ports::Bell;
use std::array;
use std::sync::atomic::{AtomicU64, Ordering};

/// What workers of a run tell each other: the bells, how writers get on, who has begun, and whose turn it is at the door. A
/// worker waits at the bell of its connection, so that what comes for one player wakes few others.
#[derive(Drop)]
pub struct Signals {
    /// Each rings after a change that a worker of one of the connections at its place may wait for.
    players: [Bell; PLACES],
    /// Rings after a change that the server's writer may wait for.
    server: Bell,
    /// How often a link may have come to be over. So a writer asks the hub only after that, whose lock the server's reader has
    /// most of the time.
    overs: AtomicU64,
    /// What writers tell of how they get on.
    pub flow: Flow,
    /// Where it is told that all threads have begun.
    pub meeting: Meeting,
    /// Where stations wait for their turn to wait at the door.
    pub turnstile: Turnstile,
}

impl Signals {
    /// Nothing was told, and no bell has rung. They take no memory.
    pub fn new() -> Signals {
        Signals {
            players: array::from_fn(|_| Bell::new()),
            server: Bell::new(),
            overs: AtomicU64::new(0),
            flow: Flow::new(),
            meeting: Meeting::new(),
            turnstile: Turnstile::new(),
        }
    }

    /// The bell of the connection with this number, or of the server's.
    pub fn of(&self, conn: Option<u32>) -> &Bell {
        match conn {
            Some(conn) => &self.players[conn as usize % PLACES],
            None => &self.server,
        }
    }

    /// Rings that of the server's connection.
    pub fn ring_server(&self) {
        self.server.ring();
    }

    /// Rings that of a connection.
    pub fn ring(&self, conn: u32, ring: Ring) {
        let bell = &self.players[conn as usize % PLACES];
        match ring {
            Ring::Loud => bell.ring(),
            Ring::Soft => bell.ring_softly(),
        }
    }

    /// How often a link may have come to be over. It is counted before all bells ring for it.
    pub fn overs(&self) -> u64 {
        self.overs.load(Ordering::SeqCst)
    }

    /// Rings all, since a link may be over.
    pub fn ring_all(&self) {
        self.overs.fetch_add(1, Ordering::SeqCst);
        self.server.ring();
        for bell in &self.players {
            bell.ring();
        }
    }
}

/// How a bell is to ring.
#[derive(Clone, Copy, Debug, PartialEq, Eq)]
pub enum Ring {
    /// It wakes all that wait at it.
    Loud,
    /// It lets those rest that do.
    Soft,
}

impl Ring {
    /// The louder one of both.
    pub fn or(self, other: Ring) -> Ring
        ensures { result ≡ louder self other }
    {
        if self == Ring::Loud { self } else { other }
    }
}
