//! Numbers that look like chance, and are the same for the same beginning.
ghost use Rattle.std.specs.Prelude.{◌≡◌, ◌<◌};

use std::marker::Model;

/// What each number is multiplied with (the multiplier of D. E. Knuth's MMIX).
pub const MULTIPLIER: u64 = 6_364_136_223_846_793_005;

/// What is added then.
pub const INCREMENT: u64 = 1_442_695_040_888_963_407;

/// How many low bits are not used: they repeat too soon.
pub const LOW_BITS: u32 = 33;

/// A row of draws. Contracts see the number that the next one follows.
#[derive(Drop)]
pub struct Draw {
    last: u64,
}

impl Model for Draw {
    ghost use Rattle.std.specs.Prelude.{ℕ};

    ghost Value = { ℕ };

    ghost view = { λ draw. draw.last };
}

impl Draw {
    ghost use Rattle.drill_server.specs.Draws.{next_draw, drawn_below};

    /// The draws that follow this number.
    pub fn new(number: u64) -> Draw
        ensures { result ≡ number }
    {
        Draw { last: number }
    }

    /// Draws a number below n.
    pub fn below(&mut self, n: u64) -> u64
        requires { 0 < n }
        ensures next { self.new ≡ next_draw self.old }
        ensures drawn { result ≡ drawn_below self.new n }
        ensures below { result < n }
    {
        self.last = self.last.wrapping_mul(MULTIPLIER).wrapping_add(INCREMENT);
        (self.last >> LOW_BITS) % n
    }
}
