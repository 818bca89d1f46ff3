//! A recorder in memory, whose calls go by a script.
ghost use Rattle.std.specs.Prelude.{◌≡◌, ◌<◌, ◌≤◌, ◌↔◌, [], length, Some, Err, Contains, OnOk};
ghost use Rattle.gate_outside.specs.Causes.{counted_on};
ghost use Rattle.gate_transcript.specs.declared.head.TheConstants.{LONGEST_BODY};
ghost use Rattle.gate_transcript.specs.declared.recorder.NoteFault.TheVariants.{Failed};
ghost use Rattle.gate_transcript.specs.Notes.{NotesSo, HasNoteCause, entry_noted};

use crate::entry::{Entry, EntryKind};
use crate::recorder::{NoteFault, Recorder};
use gate_bytes::Text;
use gate_outside::{Calls, Script};
use std::alloc::Global;

/// Entries noted in memory. A note fails exactly where the script names its number; how many bytes a call may move says
/// nothing to it. Want of memory notes nothing, and is no fault.
#[derive(Drop)]
pub struct MemoryRecorder {
    entries: Vec<Entry>,
    calls: Calls,
    alloc: Global,
}

impl MemoryRecorder {
    ghost use Rattle.std.specs.Prelude.{reverse};
    ghost use Rattle.gate_transcript.specs.Recordings.{entries_recorded, note_script, notes_made, note_faults};

    /// A recorder that has noted nothing. It takes no memory.
    pub fn new(alloc: Global, script: Script) -> MemoryRecorder
        ensures none { entries_recorded result ≡ [] }
        ensures script { note_script result ≡ script }
        ensures first { notes_made result ≡ 0 }
        ensures faults { note_faults result ≡ 0 }
    {
        MemoryRecorder {
            entries: Vec::new(alloc),
            calls: Calls::new(script),
            alloc,
        }
    }

    /// How often it has failed.
    pub fn faults(&self) -> u64
        ensures { result ≡ note_faults self.now }
    {
        self.calls.failed()
    }

    /// The entries that were noted, the oldest first.
    pub fn as_slice(&self) -> &[Entry]
        ensures { entries_recorded self.now ≡ reverse result.now }
    {
        self.entries.as_slice()
    }
}

impl Recorder for MemoryRecorder {
    ghost use Rattle.std.specs.Prelude.{Some};
    ghost use Rattle.gate_transcript.specs.Recordings.{entries_recorded, note_script, notes_made, note_faults};

    ghost entries = { λ recorder. Some (entries_recorded recorder) };

    ghost faults = { λ recorder. note_faults recorder };

    fn note(&mut self, kind: EntryKind, conn: u32, body: &[u8]) -> Result<(), NoteFault>
        requires { length body.now ≤ LONGEST_BODY }
        ensures entries { NotesSo (Some (entries_recorded self.old)) (Some (entries_recorded self.new))
            (entry_noted kind conn body.now) result }
        ensures cause { HasNoteCause (note_faults self.old) (note_faults self.new) result }
        ensures fails { (result ≡ Err Failed) ↔ Contains (note_script self.old).fails (notes_made self.old) }
        ensures made { notes_made self.new ≡ counted_on (notes_made self.old) }
        ensures script { note_script self.new ≡ note_script self.old }
        ensures whole { OnOk result (note_faults self.new ≡ note_faults self.old) }
    {
        self.calls.enter()?;
        let body = Text::copy(self.alloc, body)?;
        if self.entries.push(Entry { kind, conn, body }).is_err() {
            return Err(NoteFault::Memory);
        }
        Ok(())
    }
}
