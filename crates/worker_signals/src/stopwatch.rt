//! How much time has passed.

use std::time::{Clock, Duration, Instant};

/// Tells how much time has passed since it was started. Where the system has no clock, none ever has.
#[derive(Clone, Copy)]
pub struct Stopwatch {
    started: Option<Instant>,
}

impl Stopwatch {
    /// One that starts now.
    pub fn start<W: Clock>(rt: &W) -> Stopwatch {
        Stopwatch {
            started: Instant::now(rt).ok(),
        }
    }

    /// Whether so many milliseconds have passed.
    pub fn has_passed<W: Clock>(&self, rt: &W, millis: u64) -> bool {
        match self.started {
            Some(started) => match started.elapsed(rt) {
                Ok(elapsed) => elapsed >= Duration::from_millis(millis),
                Err(_) => false,
            },
            None => false,
        }
    }
}
