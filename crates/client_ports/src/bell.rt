//! A bell that wakes the threads that pause at it.
ghost use Rattle.std.specs.Prelude.{◌≢◌};

use std::sync::Wait;
use std::sync::atomic::{AtomicU64, Ordering};
use std::time::Duration;

/// A bell that wakes the threads that pause at it. A thread asks how often it rang before it looks for work, and pauses only
/// while that is still so: a ring in between is not lost. A thread that rests at it is woken by loud rings alone. Nothing is
/// promised of when a thread wakes.
#[derive(Drop)]
pub struct Bell {
    /// All rings.
    all: Strokes,
    /// The loud ones.
    loud: Strokes,
}

/// How often a bell rang, and how many threads wait for the next time.
#[derive(Drop)]
struct Strokes {
    count: AtomicU64,
    waiting: AtomicU64,
}

impl Strokes {
    /// None yet.
    fn new() -> Strokes {
        Strokes {
            count: AtomicU64::new(0),
            waiting: AtomicU64::new(0),
        }
    }

    /// How many there were.
    fn count(&self) -> u64 {
        self.count.load(Ordering::SeqCst)
    }

    /// One more. After the greatest number of 64 bits the count goes on with 0. A thread counts itself as waiting before it
    /// looks at the count for the last time, so here the count changes first.
    fn strike(&self) {
        self.count.fetch_add(1, Ordering::SeqCst);
        if self.waiting.load(Ordering::SeqCst) != 0 {
            self.count.wake_all();
        }
    }

    /// Waits for the next one while there were just so many, but no longer than this; it may also end before.
    fn wait_within<R: Wait>(&self, rt: &R, seen: u64, most: Duration) {
        self.waiting.fetch_add(1, Ordering::SeqCst);
        self.count
            .park_timeout(rt, (seen & 0xffff_ffff) as u32, most);
        self.waiting.fetch_sub(1, Ordering::SeqCst);
    }

    /// Waits for the next one while there were just so many; it may also end before.
    fn wait<R: Wait>(&self, rt: &R, seen: u64) {
        self.waiting.fetch_add(1, Ordering::SeqCst);
        self.count.park(rt, (seen & 0xffff_ffff) as u32);
        self.waiting.fetch_sub(1, Ordering::SeqCst);
    }
}

impl Bell {
    /// A bell that has not rung. It takes no memory.
    pub fn new() -> Bell {
        Bell {
            all: Strokes::new(),
            loud: Strokes::new(),
        }
    }

    /// Rings once.
    pub fn ring(&self) {
        self.loud.strike();
        self.all.strike();
    }

    /// Rings once, and lets those rest that do.
    pub fn ring_softly(&self) {
        self.all.strike();
    }

    /// How often it rang.
    pub fn rings(&self) -> u64 {
        self.all.count()
    }

    /// How often it rang loud.
    pub fn loud_rings(&self) -> u64 {
        self.loud.count()
    }

    /// Pauses while it has rung just so often, and answers how often it rang then.
    pub fn pause<R: Wait>(&self, rt: &R, seen: u64) -> u64
        ensures { result ≢ seen }
    {
        for _ in rt.forever() {
            let rings = self.all.count();
            if rings != seen {
                return rings;
            }
            self.all.wait(rt, seen);
        }
        unreachable!()
    }

    /// Pauses while it has rung just so often, but no longer than this; it may also end before.
    pub fn pause_within<R: Wait>(&self, rt: &R, seen: u64, most: Duration) {
        self.all.wait_within(rt, seen, most);
    }

    /// Rests while it has rung loud just so often, but no longer than this; it may also end before.
    pub fn rest_within<R: Wait>(&self, rt: &R, seen_loud: u64, most: Duration) {
        self.loud.wait_within(rt, seen_loud, most);
    }
}
