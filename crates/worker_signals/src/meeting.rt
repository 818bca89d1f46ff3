//! How two sides that work beside each other find that both have begun.

use client_ports::Bell;
use std::sync::{Mutex, Wait};

/// How many sides there are: the stations and the server's.
const SIDES: u32 = 2;

/// Where two sides tell that they have come so far.
#[derive(Drop)]
pub struct Meeting {
    arrived: Mutex<u32>,
    bell: Bell,
}

impl Meeting {
    /// A meeting to which nobody has come. It takes no memory.
    pub fn new() -> Meeting {
        Meeting {
            arrived: Mutex::new(0),
            bell: Bell::new(),
        }
    }

    /// One side more has come.
    pub fn arrive<R: Wait>(&self, rt: &R) {
        let mut arrived = self.arrived.lock(rt);
        *arrived = arrived.saturating_add(1);
        drop(arrived);
        self.bell.ring();
    }

    /// Whether both sides have come.
    fn is_complete<R: Wait>(&self, rt: &R) -> bool {
        *self.arrived.lock(rt) >= SIDES
    }

    /// Waits until both sides have come.
    pub fn wait<R: Wait>(&self, rt: &R) {
        for _ in rt.forever() {
            let seen = self.bell.rings();
            if self.is_complete(rt) {
                return;
            }
            self.bell.pause(rt, seen);
        }
        unreachable!()
    }
}
