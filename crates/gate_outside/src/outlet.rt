//! An outlet in memory, which counts what it has taken for the inlets that wait for it.
ghost use Rattle.std.specs.Prelude.{◌≡◌, ◌<◌, ◌≤◌, ◌⊎◌, [], length, min, true, Some, IsErr, IfOk, OnErr, Contains};
ghost use Rattle.gate_outside.specs.Causes.{HasCause, capped, counted_on};
ghost use Rattle.gate_outside.specs.Contents.{Writes, Offers};

use crate::{Failed, MemorySink, Outlet, Script, Sink};
use gate_bytes::Memory;
use std::alloc::Global;
use std::sync::Arc;
use std::sync::atomic::{AtomicU64, Ordering};

/// An outlet in memory, which writes as a [`MemorySink`] does.
#[derive(Drop)]
pub struct MemoryOutlet {
    sink: MemorySink,
    count: Arc<AtomicU64>,
    shut: bool,
}

impl MemoryOutlet {
    ghost use Rattle.gate_outside.specs.Memories.{write_script, writes_made, write_faults};
    ghost use Rattle.gate_outside.specs.MemoryLinks.{outlet_sink, bytes_sent, is_shut};

    /// An outlet to which nothing was written, and which is not shut.
    pub fn new(alloc: Global, script: Script) -> Result<MemoryOutlet, Memory>
        ensures empty { IfOk result (λ outlet. bytes_sent outlet ≡ []) }
        ensures script { IfOk result (λ outlet. write_script (outlet_sink outlet) ≡ script) }
        ensures first { IfOk result (λ outlet. writes_made (outlet_sink outlet) ≡ 0) }
        ensures none { IfOk result (λ outlet. write_faults (outlet_sink outlet) ≡ 0) }
    {
        Ok(MemoryOutlet {
            sink: MemorySink::new(alloc, script),
            count: Arc::new(alloc, AtomicU64::new(0))?,
            shut: false,
        })
    }

    /// The bytes that were written.
    pub fn as_bytes(&self) -> &[u8]
        ensures { result.now ≡ bytes_sent self.now }
    {
        self.sink.as_bytes()
    }

    /// Whether it was shut.
    pub fn is_shut(&self) -> bool
        ensures { result ≡ is_shut self.now }
    {
        self.shut
    }

    /// How often it has failed, in a counter that stays at its last value.
    pub fn faults(&self) -> u64
        ensures { result ≡ capped (write_faults (outlet_sink self.now)) }
    {
        self.sink.faults()
    }

    /// The count of the bytes that it has taken, which goes on as it takes more.
    pub(crate) fn count(&self) -> Result<Arc<AtomicU64>, Memory> {
        Ok(Arc::try_clone(&self.count)?)
    }
}

impl Sink for MemoryOutlet {
    ghost use Rattle.gate_outside.specs.Memories.{write_script, writes_made, growths_refused, write_faults};
    ghost use Rattle.gate_outside.specs.MemoryLinks.{outlet_sink, bytes_sent};

    ghost written = { λ outlet. Some (bytes_sent outlet) };

    ghost faults = { λ outlet. write_faults (outlet_sink outlet) };

    fn write(&mut self, piece: &[u8]) -> Result<usize, Failed>
        requires { 0 < length piece.now }
        ensures bound { IfOk result (λ n. (0 < n) × (n ≤ length piece.now)) }
        ensures bytes { Writes (Some (bytes_sent self.old)) (Some (bytes_sent self.new)) piece.now result }
        ensures cause { HasCause (write_faults (outlet_sink self.old)) (write_faults (outlet_sink self.new))
            result }
        ensures fails { Contains (write_script (outlet_sink self.old)).fails
            (writes_made (outlet_sink self.old))
            → IsErr result }
        ensures only { OnErr result
            (Contains (write_script (outlet_sink self.old)).fails (writes_made (outlet_sink self.old))
            ⊎ (growths_refused (outlet_sink self.new)
            ≡ counted_on (growths_refused (outlet_sink self.old)))) }
        ensures piece { IfOk result (λ n.
            n ≡ min (write_script (outlet_sink self.old)).piece (length piece.now)) }
        ensures made { writes_made (outlet_sink self.new) ≡ counted_on (writes_made (outlet_sink self.old)) }
        ensures script { write_script (outlet_sink self.new) ≡ write_script (outlet_sink self.old) }
    {
        let taken = self.sink.write(piece)?;
        self.count.fetch_add(taken as u64, Ordering::SeqCst);
        Ok(taken)
    }
}

impl Outlet for MemoryOutlet {
    ghost use Rattle.gate_outside.specs.Memories.{NamesWait, write_script, writes_made, write_faults};
    ghost use Rattle.gate_outside.specs.MemoryLinks.{outlet_sink, bytes_sent, is_shut};

    /// A link in memory takes nothing for now where the script says so of the call.
    fn offer(&mut self, piece: &[u8]) -> Result<usize, Failed>
        requires { 0 < length piece.now }
        ensures bytes { Offers (Some (bytes_sent self.old)) (Some (bytes_sent self.new)) piece.now result }
        ensures cause { HasCause (write_faults (outlet_sink self.old)) (write_faults (outlet_sink self.new))
            result }
        ensures fails { Contains (write_script (outlet_sink self.old)).fails
            (writes_made (outlet_sink self.old))
            → IsErr result }
        ensures pauses { NamesWait (write_script (outlet_sink self.old))
            (writes_made (outlet_sink self.old))
            → IfOk result (λ n. n ≡ 0) }
        ensures made { writes_made (outlet_sink self.new) ≡ counted_on (writes_made (outlet_sink self.old)) }
        ensures script { write_script (outlet_sink self.new) ≡ write_script (outlet_sink self.old) }
    {
        if self.sink.pauses() {
            return self.sink.skip();
        }
        match self.write(piece) {
            Ok(taken) => Ok(taken),
            Err(failed) => Err(failed),
        }
    }

    fn shut(&mut self)
        ensures written { outlet_sink self.new ≡ outlet_sink self.old }
        ensures shut { is_shut self.new ≡ true }
    {
        self.shut = true;
    }
}
