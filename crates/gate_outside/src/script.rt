//! Which calls of an object in memory fail, and the count of those that did.
ghost use Rattle.std.specs.Prelude.{◌≡◌, ◌<◌, [], Contains, OnOk, IsErr, IsTrue, ◌↔◌, ◌-◌, min};
ghost use Rattle.gate_outside.specs.Causes.{HasCause, counted_on};

use crate::Failed;
use gate_bytes::OwnedList;

/// An owned list of numbers.
pub type Numbers = OwnedList<u64>;

/// How an object in memory behaves: which of its calls fail, at which an inlet has nothing for now, and how many bytes a
/// call moves, where it moves some.
#[derive(Drop)]
pub struct Script {
    /// The numbers of the calls that fail, counted from 0.
    pub fails: Numbers,
    /// The numbers of the calls at which an inlet has nothing for now.
    pub waits: Numbers,
    /// Where there is one, the number of the call from which on an inlet has nothing for now.
    pub idle: Option<u64>,
    /// The most bytes that one call moves, at least 1.
    pub piece: usize,
    ghost some: { 0 < piece },
}

/// The number of calls that were made under a script, and of those that failed. Each count stays at its last value.
#[derive(Drop)]
pub struct Calls {
    script: Script,
    made: u64,
    failed: u64,
    ghost sound: { script.fails ≡ [] → failed ≡ 0 },
}

impl Calls {
    ghost use Rattle.gate_outside.specs.Memories.{call_script, calls_made, calls_failed, NamesWait};

    /// The state before the first call, which has the number 0.
    pub fn new(script: Script) -> Self
        ensures script { call_script result ≡ script }
        ensures first { calls_made result ≡ 0 }
        ensures none { calls_failed result ≡ 0 }
    {
        Calls {
            script,
            made: 0,
            failed: 0,
        }
    }

    /// Counts a call, and fails exactly where the script names its number.
    pub fn enter(&mut self) -> Result<(), Failed>
        ensures script { call_script self.new ≡ call_script self.old }
        ensures made { calls_made self.new ≡ counted_on (calls_made self.old) }
        ensures fails { IsErr result ↔ Contains (call_script self.old).fails (calls_made self.old) }
        ensures ok { OnOk result (calls_failed self.new ≡ calls_failed self.old) }
        ensures cause { HasCause (calls_failed self.old) (calls_failed self.new) result }
    {
        let fails = has(&self.script.fails, self.made);
        self.made = self.made.saturating_add(1);
        if fails {
            self.failed = self.failed.saturating_add(1);
            return Err(Failed);
        }
        Ok(())
    }

    /// Whether the next call has nothing for now, where it does not fail.
    pub fn pauses(&self) -> bool
        ensures { IsTrue result ↔ NamesWait (call_script self.now) (calls_made self.now) }
    {
        has(&self.script.waits, self.made)
            || self.script.idle.is_some_and(|first| first <= self.made)
    }

    /// How many calls have failed.
    pub fn failed(&self) -> u64
        ensures { result ≡ calls_failed self.now }
    {
        self.failed
    }

    /// The most bytes that this call may move, of so many.
    pub fn piece(&self, most: usize) -> usize
        ensures { result ≡ min (call_script self.now).piece most }
    {
        self.script.piece.min(most)
    }
}

/// Whether a list has a number.
fn has(numbers: &Numbers, number: u64) -> bool
    ensures { IsTrue result ↔ Contains numbers.now number }
{
    numbers.as_slice().contains(&number)
}
