//! A source and a sink in memory, whose calls go by a script.
ghost use Rattle.std.specs.Prelude.{◌≡◌, ◌<◌, ◌↔◌, ◌⊎◌, ◌+◌, ◌≤◌, [], length, drop, min, Some, IsErr, IsTrue, IfOk, OnOk, OnErr, Contains};
ghost use Rattle.gate_outside.specs.Causes.{HasCause, capped, counted_on};
ghost use Rattle.gate_outside.specs.Contents.{Reads, Writes};

use crate::script::Calls;
use crate::{Failed, Script, Sink, Source};
use gate_bytes::{Text, after, before};
use std::alloc::Global;

/// Bytes in memory, read in the pieces that a script allows. A read fails exactly where the script names its number.
#[derive(Drop)]
pub struct MemorySource {
    bytes: Text,
    at: usize,
    calls: Calls,
    ghost within: { at ≤ length bytes },
}

impl MemorySource {
    ghost use Rattle.gate_outside.specs.Memories.{bytes_left, read_script, reads_made, read_faults};

    /// A source that holds these bytes and was never read.
    pub fn new(bytes: Text, script: Script) -> Self
        ensures left { bytes_left result ≡ bytes }
        ensures script { read_script result ≡ script }
        ensures first { reads_made result ≡ 0 }
        ensures none { read_faults result ≡ 0 }
    {
        MemorySource {
            bytes,
            at: 0,
            calls: Calls::new(script),
        }
    }
}

impl Source for MemorySource {
    ghost use Rattle.gate_outside.specs.Memories.{bytes_left, read_script, reads_made, read_faults};

    ghost rest = { λ source. Some (drop source.at source.bytes) };

    ghost faults = { λ source. source.calls.failed };

    fn read(&mut self, into: &mut [u8]) -> Result<usize, Failed>
        requires { 0 < length into.old }
        ensures bound { IfOk result (λ n. n ≤ length into.new) }
        ensures bytes { Reads (Some (bytes_left self.old)) (Some (bytes_left self.new)) result into.new }
        ensures cause { HasCause (read_faults self.old) (read_faults self.new) result }
        ensures fails { IsErr result ↔ Contains (read_script self.old).fails (reads_made self.old) }
        ensures piece { IfOk result (λ n.
            n ≡ min (min (read_script self.old).piece (length into.old)) (length (bytes_left self.old))) }
        ensures made { reads_made self.new ≡ counted_on (reads_made self.old) }
        ensures script { read_script self.new ≡ read_script self.old }
        ensures whole { OnOk result (read_faults self.new ≡ read_faults self.old) }
    {
        self.calls.enter()?;
        let left = after(self.bytes.as_bytes(), self.at);
        let most = self.calls.piece(into.len()).min(left.len());
        into[..most].copy_from_slice(before(left, most));
        self.at += most;
        Ok(most)
    }
}

/// A sink in memory, written to in the pieces that a script allows. A write fails where the script names its number,
/// and where memory refuses room for the piece, which counts as a fault too.
#[derive(Drop)]
pub struct MemorySink {
    bytes: Text,
    calls: Calls,
    refused: u64,
}

impl MemorySink {
    ghost use Rattle.gate_outside.specs.Memories.{NamesWait, bytes_written, write_script, writes_made, growths_refused, write_faults};

    /// A sink to which nothing was written.
    pub fn new(alloc: Global, script: Script) -> Self
        ensures empty { bytes_written result ≡ [] }
        ensures script { write_script result ≡ script }
        ensures first { writes_made result ≡ 0 }
        ensures room { growths_refused result ≡ 0 }
        ensures none { write_faults result ≡ 0 }
    {
        MemorySink {
            bytes: Text::new(alloc),
            calls: Calls::new(script),
            refused: 0,
        }
    }

    /// The bytes that were written.
    pub fn as_bytes(&self) -> &[u8]
        ensures { result.now ≡ bytes_written self.now }
    {
        self.bytes.as_bytes()
    }

    /// How often it has failed, in a counter that stays at its last value.
    pub fn faults(&self) -> u64
        ensures { result ≡ capped (write_faults self.now) }
    {
        self.calls.failed().saturating_add(self.refused)
    }

    /// Whether the next call takes nothing for now, where it does not fail.
    pub(crate) fn pauses(&self) -> bool
        ensures { IsTrue result ↔ NamesWait (write_script self.now) (writes_made self.now) }
    {
        self.calls.pauses()
    }

    /// Makes a call that takes nothing.
    pub(crate) fn skip(&mut self) -> Result<usize, Failed>
        ensures written { bytes_written self.new ≡ bytes_written self.old }
        ensures none { IfOk result (λ n. n ≡ 0) }
        ensures cause { HasCause (write_faults self.old) (write_faults self.new) result }
        ensures fails { IsErr result ↔ Contains (write_script self.old).fails (writes_made self.old) }
        ensures made { writes_made self.new ≡ counted_on (writes_made self.old) }
        ensures script { write_script self.new ≡ write_script self.old }
    {
        self.calls.enter()?;
        Ok(0)
    }
}

impl Sink for MemorySink {
    ghost use Rattle.gate_outside.specs.Memories.{bytes_written, write_script, writes_made, growths_refused, write_faults};

    ghost written = { λ sink. Some sink.bytes };

    ghost faults = { λ sink. sink.calls.failed + sink.refused };

    fn write(&mut self, piece: &[u8]) -> Result<usize, Failed>
        requires { 0 < length piece.now }
        ensures bound { IfOk result (λ n. (0 < n) × (n ≤ length piece.now)) }
        ensures bytes { Writes (Some (bytes_written self.old)) (Some (bytes_written self.new)) piece.now
            result }
        ensures cause { HasCause (write_faults self.old) (write_faults self.new) result }
        ensures fails { Contains (write_script self.old).fails (writes_made self.old) → IsErr result }
        ensures only { OnErr result (Contains (write_script self.old).fails (writes_made self.old)
            ⊎ (growths_refused self.new ≡ counted_on (growths_refused self.old))) }
        ensures piece { IfOk result (λ n. n ≡ min (write_script self.old).piece (length piece.now)) }
        ensures made { writes_made self.new ≡ counted_on (writes_made self.old) }
        ensures script { write_script self.new ≡ write_script self.old }
        ensures whole { OnOk result (write_faults self.new ≡ write_faults self.old) }
    {
        self.calls.enter()?;
        let taken = before(piece, self.calls.piece(piece.len()));
        if self.bytes.push_slice(taken).is_err() {
            self.refused = self.refused.saturating_add(1);
            return Err(Failed);
        }
        Ok(taken.len())
    }
}
