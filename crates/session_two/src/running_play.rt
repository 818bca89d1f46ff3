//! The PLAY that runs.
ghost use Rattle.std.specs.Prelude.{◌≡◌, Some, None};

use crate::names::Names;
use std::marker::Model;

/// The number of the PLAY that runs, where one does. Contracts see it as that.
#[derive(Clone, Copy, Debug, PartialEq, Eq)]
pub struct Running {
    number: Option<u32>,
}

impl Model for Running {
    ghost use Rattle.std.specs.Prelude.{ℕ, Option};

    ghost Value = { Option ℕ };

    ghost view = { λ running. running.number };

    ghost inverse = { λ number. record { number = number } };
}

impl Running {
    ghost use Rattle.session_two.specs.Ends.{end_counts, after_end};

    /// No PLAY runs.
    pub fn new() -> Running
        ensures { result ≡ None }
    {
        Running { number: None }
    }

    /// The PLAY with this number runs.
    pub fn started(&mut self, number: u32)
        ensures { self.new ≡ Some number }
    {
        self.number = Some(number);
    }

    /// The number of the PLAY that runs.
    pub fn current(&self) -> Option<u32>
        ensures { result ≡ self.now }
    {
        self.number
    }

    /// An end of stream came: whether it counts. Where it does, no PLAY runs.
    pub fn ended(&mut self, names: Names) -> bool
        ensures counts { result ≡ end_counts self.old names }
        ensures running { self.new ≡ after_end self.old names }
    {
        let counts = names.ends(self.number);
        if counts {
            self.number = None;
        }
        counts
    }

    /// No PLAY runs any longer.
    pub fn stop(&mut self)
        ensures { self.new ≡ None }
    {
        self.number = None;
    }
}
