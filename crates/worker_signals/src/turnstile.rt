//! Who waits at the door.

use std::sync::atomic::{AtomicU32, Ordering};
use std::sync::{Mutex, MutexGuard, Wait};
use std::thread;
use std::time::{Clock, Duration};

/// How long whoever is to wait at the door pauses for one that gives a link back, in microseconds.
const PAUSE_MICROS: u64 = 100;

/// How often it does so at most.
const MOST_PAUSES: u32 = 1_000;

/// Lets one station at a time wait at the door. So one that gives a link back waits for no more than one accept: with all of
/// them at the door's lock it would wait for as many.
#[derive(Drop)]
pub struct Turnstile {
    turn: Mutex<()>,
    returning: AtomicU32,
}

impl Turnstile {
    /// One that nobody stands in. It takes no memory.
    pub fn new() -> Turnstile {
        Turnstile {
            turn: Mutex::new(()),
            returning: AtomicU32::new(0),
        }
    }

    /// Waits for its turn to wait at the door. Those that give a link back go first.
    pub fn enter<W: Wait + Clock>(&self, rt: &W) -> MutexGuard<'_, ()> {
        let turn = self.turn.lock(rt);
        for _ in 0..MOST_PAUSES {
            if self.returning.load(Ordering::SeqCst) == 0 {
                break;
            }
            thread::sleep(rt, Duration::from_micros(PAUSE_MICROS));
        }
        turn
    }

    /// One is about to give a link back.
    pub fn begin_return(&self) {
        self.returning.fetch_add(1, Ordering::SeqCst);
    }

    /// It has given it back.
    pub fn end_return(&self) {
        self.returning.fetch_sub(1, Ordering::SeqCst);
    }
}
