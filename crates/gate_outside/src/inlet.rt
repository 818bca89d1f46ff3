//! An inlet in memory, whose calls go by a script and whose parts wait for outlets.
ghost use Rattle.std.specs.Prelude.{◌≡◌, ◌<◌, ◌≤◌, ◌⊎◌, ◌∷◌, ◌++◌, [], length, Ok, Some, IsErr, IfOk, OnOk, OnErr, Contains};
ghost use Rattle.gate_outside.specs.declared.links.Got.TheVariants.{End, NotYet};
ghost use Rattle.gate_outside.specs.Causes.{HasCause, RisesWith, capped, counted_on};
ghost use Rattle.gate_outside.specs.Links.{Gets, FitsIn, parts_joined};

use crate::mark::{Mark, Tie, laid_out, room_at};
use crate::script::Calls;
use crate::{Failed, Got, Inlet, MemoryOutlet, Parts, Script};
use gate_bytes::{Memory, Text, after, before};
use std::alloc::Global;

/// Parts in memory, one after another, read in the pieces that a script allows. A part is given once its outlet has taken
/// enough; until then a read has nothing for now, and fails from the wait with the number `turns` on, which is a fault of
/// its own. Once all is given a read tells the end.
#[derive(Drop)]
pub struct MemoryInlet {
    bytes: Text,
    at: usize,
    marks: Vec<Mark>,
    ties: Vec<Tie>,
    turns: u64,
    held: u64,
    late: u64,
    waits: u64,
    ends: u64,
    calls: Calls,
    ghost within: { at ≤ length bytes },
}

impl MemoryInlet {
    ghost use Rattle.gate_outside.specs.MemoryLinks.{bytes_coming, inlet_script, inlet_reads, inlet_faults, inlet_waits, inlet_ends, inlet_turns, turns_held, outlets_tied, IsSameInlet};

    /// An inlet that gives these parts and was never read.
    pub fn new(
        alloc: Global,
        parts: Parts,
        script: Script,
        turns: u64,
    ) -> Result<MemoryInlet, Memory>
        ensures coming { IfOk result (λ inlet. bytes_coming inlet ≡ parts_joined parts) }
        ensures script { IfOk result (λ inlet. inlet_script inlet ≡ script) }
        ensures turns { IfOk result (λ inlet. inlet_turns inlet ≡ turns) }
        ensures held { IfOk result (λ inlet. turns_held inlet ≡ 0) }
        ensures alone { IfOk result (λ inlet. outlets_tied inlet ≡ []) }
        ensures first { IfOk result (λ inlet. inlet_reads inlet ≡ 0) }
        ensures faults { IfOk result (λ inlet. inlet_faults inlet ≡ 0) }
        ensures waits { IfOk result (λ inlet. inlet_waits inlet ≡ 0) }
        ensures ends { IfOk result (λ inlet. inlet_ends inlet ≡ 0) }
    {
        let (bytes, marks) = laid_out(alloc, parts.as_slice())?;
        Ok(MemoryInlet {
            bytes,
            at: 0,
            marks,
            ties: Vec::new(alloc),
            turns,
            held: 0,
            late: 0,
            waits: 0,
            ends: 0,
            calls: Calls::new(script),
        })
    }

    /// Lets the parts that name an outlet by this number wait for this one. Where the number is tied already it is enough
    /// that one of the outlets has taken what a part waits for. Where memory runs out nothing changes.
    pub fn tie(&mut self, number: u32, outlet: &MemoryOutlet) -> Result<(), Memory>
        ensures tied { OnOk result (outlets_tied self.new ≡ outlets_tied self.old ++ number ∷ []) }
        ensures err { OnErr result (outlets_tied self.new ≡ outlets_tied self.old) }
        ensures same { IsSameInlet self.old self.new }
        ensures reads { inlet_reads self.new ≡ inlet_reads self.old }
        ensures faults { inlet_faults self.new ≡ inlet_faults self.old }
        ensures waits { inlet_waits self.new ≡ inlet_waits self.old }
        ensures held { turns_held self.new ≡ turns_held self.old }
        ensures ends { inlet_ends self.new ≡ inlet_ends self.old }
        ensures coming { bytes_coming self.new ≡ bytes_coming self.old }
    {
        let taken = outlet.count()?;
        self.ties.push(Tie { number, taken })?;
        Ok(())
    }

    /// Ties the outlets of all these ties. Where memory runs out some of them may be tied.
    pub(crate) fn tie_all(&mut self, ties: &[Tie]) -> Result<(), Memory>
        ensures same { IsSameInlet self.old self.new }
        ensures reads { inlet_reads self.new ≡ inlet_reads self.old }
        ensures faults { inlet_faults self.new ≡ inlet_faults self.old }
        ensures waits { inlet_waits self.new ≡ inlet_waits self.old }
        ensures held { turns_held self.new ≡ turns_held self.old }
        ensures ends { inlet_ends self.new ≡ inlet_ends self.old }
        ensures coming { bytes_coming self.new ≡ bytes_coming self.old }
    {
        let all = &mut self.ties;
        for tie in ties {
            all.push(tie.try_clone()?)?;
        }
        Ok(())
    }

    /// How often it has failed, in a counter that stays at its last value.
    pub fn faults(&self) -> u64
        ensures { result ≡ capped (inlet_faults self.now) }
    {
        self.calls.failed().saturating_add(self.late)
    }

    /// How often it has told its end.
    pub fn ends(&self) -> u64
        ensures { result ≡ inlet_ends self.now }
    {
        self.ends
    }

    /// Has nothing for now, since a part waits for its outlet; or fails, where it has waited often enough.
    fn hold(&mut self) -> Result<Got, Failed>
        ensures coming { bytes_coming self.new ≡ bytes_coming self.old }
        ensures not_yet { IfOk result (λ got. got ≡ NotYet) }
        ensures faults { HasCause self.old.late self.new.late result }
        ensures waits { RisesWith (inlet_waits self.old) (inlet_waits self.new) (result ≡ Ok NotYet) }
        ensures ends { inlet_ends self.new ≡ inlet_ends self.old }
        ensures calls { self.new.calls ≡ self.old.calls }
        ensures same { IsSameInlet self.old self.new }
        ensures tied { outlets_tied self.new ≡ outlets_tied self.old }
        ensures only { OnErr result (inlet_turns self.old ≤ turns_held self.old) }
    {
        if self.held >= self.turns {
            self.late = self.late.saturating_add(1);
            return Err(Failed);
        }
        self.held = self.held.saturating_add(1);
        self.waits = self.waits.saturating_add(1);
        Ok(Got::NotYet)
    }
}

impl Inlet for MemoryInlet {
    ghost use Rattle.gate_outside.specs.Memories.{NamesWait};
    ghost use Rattle.gate_outside.specs.MemoryLinks.{bytes_coming, inlet_script, inlet_reads, inlet_faults, inlet_waits, inlet_ends, inlet_turns, turns_held, outlets_tied, IsSameInlet};

    ghost rest = { λ inlet. Some (bytes_coming inlet) };

    ghost faults = { λ inlet. inlet_faults inlet };

    ghost waits = { λ inlet. inlet_waits inlet };

    ghost ends = { λ inlet. inlet_ends inlet };

    fn read(&mut self, into: &mut [u8]) -> Result<Got, Failed>
        requires { 0 < length into.old }
        ensures bound { IfOk result (λ got. FitsIn got (length into.new)) }
        ensures bytes { Gets (Some (bytes_coming self.old)) (Some (bytes_coming self.new)) result into.new }
        ensures cause { HasCause (inlet_faults self.old) (inlet_faults self.new) result }
        ensures waits { RisesWith (inlet_waits self.old) (inlet_waits self.new) (result ≡ Ok NotYet) }
        ensures ends { RisesWith (inlet_ends self.old) (inlet_ends self.new) (result ≡ Ok End) }
        ensures fails { Contains (inlet_script self.old).fails (inlet_reads self.old) → IsErr result }
        ensures pauses { NamesWait (inlet_script self.old) (inlet_reads self.old)
            → IfOk result (λ got. got ≡ NotYet) }
        ensures given { result ≡ Ok End → bytes_coming self.old ≡ [] }
        ensures only { OnErr result
            (Contains (inlet_script self.old).fails (inlet_reads self.old)
            ⊎ (inlet_turns self.old ≤ turns_held self.old)) }
        ensures made { inlet_reads self.new ≡ counted_on (inlet_reads self.old) }
        ensures same { IsSameInlet self.old self.new }
        ensures tied { outlets_tied self.new ≡ outlets_tied self.old }
    {
        let pauses = self.calls.pauses();
        self.calls.enter()?;
        if pauses {
            self.waits = self.waits.saturating_add(1);
            return Ok(Got::NotYet);
        }
        let Some(room) = room_at(self.marks.as_slice(), self.ties.as_slice(), self.at) else {
            return self.hold();
        };
        let left = after(self.bytes.as_bytes(), self.at);
        if left.is_empty() {
            self.ends = self.ends.saturating_add(1);
            return Ok(Got::End);
        }
        let most = self.calls.piece(into.len()).min(left.len()).min(room);
        into[..most].copy_from_slice(before(left, most));
        self.at += most;
        Ok(Got::Bytes(most))
    }

    // Nobody waits for a link in memory.
    fn shut(&mut self)
        ensures same { self.new ≡ self.old }
    {}
}
