//! How a writer waits where nothing is left for it to write.
ghost use Rattle.std.specs.Prelude.{◌≡◌};

use client_ports::Bell;
use std::sync::Wait;
use std::time::{Clock, Duration};
use worker_signals::Stopwatch;

/// Within so many milliseconds of its pause a writer is woken where frames come close behind one another. So long it rests
/// then, so that more of them are written at once.
const CLOSE_MILLIS: u64 = 1;

/// With more parcels than this at once a writer is worth being woken for, and doesn't rest.
const FEW_PARCELS: u64 = 8;

/// How a writer waits for more. Where few parcels come at once, and close behind one another, it rests a millisecond, in which
/// few frames don't wake it; a loud ring does.
#[derive(Drop)]
pub struct Lull<'a> {
    bell: &'a Bell,
    seen: u64,
    seen_loud: u64,
    /// How many parcels had been taken when its writer went on last.
    taken: u64,
    /// Whether its last pause was short.
    close: bool,
}

impl<'a> Lull<'a> {
    /// One at this bell, of a writer that has not waited yet.
    pub fn new(bell: &'a Bell) -> Lull<'a> {
        Lull {
            bell,
            seen: 0,
            seen_loud: 0,
            taken: 0,
            close: false,
        }
    }

    /// Sees how often the bell rang, before work is looked for: a ring from now on is not lost.
    pub fn look(&mut self) {
        self.seen = self.bell.rings();
        self.seen_loud = self.bell.loud_rings();
    }

    /// Sees how many parcels have been taken once its writer goes on: others may have served it meanwhile.
    pub fn go_on(&mut self, taken: u64)
        ensures { self.new ≡ record self.old { taken = taken } }
    {
        self.taken = taken;
    }

    /// Waits until the bell rings, where so many parcels have been taken. After a rest it may end without a ring.
    pub fn wait<W: Wait + Clock>(&mut self, rt: &W, taken: u64) {
        let came = taken.saturating_sub(self.taken);
        if self.close && came > 0 && came <= FEW_PARCELS {
            let most = Duration::from_millis(CLOSE_MILLIS);
            self.bell.rest_within(rt, self.seen_loud, most);
            return;
        }
        let paused = Stopwatch::start(rt);
        self.bell.pause(rt, self.seen);
        self.close = !paused.has_passed(rt, CLOSE_MILLIS);
    }
}
