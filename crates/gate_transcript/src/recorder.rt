//! Recorders, which note the entries of a transcript as they come.
ghost use Rattle.std.specs.Prelude.{◌≡◌, ℕ, ◌≤◌, List, Option, length};
ghost use Rattle.gate_transcript.specs.declared.entry.Entry.{Entry};
ghost use Rattle.gate_transcript.specs.declared.head.TheConstants.{LONGEST_BODY};
ghost use Rattle.gate_transcript.specs.Notes.{NotesSo, HasNoteCause, entry_noted};

use crate::entry::EntryKind;
use gate_bytes::Memory;
use gate_outside::Failed;

/// Why an entry was not noted.
#[derive(Clone, Copy, Debug, PartialEq, Eq)]
pub enum NoteFault {
    /// What the entries are noted in failed.
    Failed,
    /// Memory ran out.
    Memory,
}

impl From<Failed> for NoteFault {
    ghost use Rattle.std.specs.Prelude.{◌≡◌};
    ghost use Rattle.gate_transcript.specs.declared.recorder.NoteFault.TheVariants as fault;

    ghost from_gives = { λ _ e. e ≡ fault.Failed };

    fn from(_: Failed) -> NoteFault {
        NoteFault::Failed
    }
}

impl From<Memory> for NoteFault {
    ghost use Rattle.std.specs.Prelude.{◌≡◌};
    ghost use Rattle.gate_transcript.specs.declared.recorder.NoteFault.TheVariants as fault;

    ghost from_gives = { λ _ e. e ≡ fault.Memory };

    fn from(_: Memory) -> NoteFault {
        NoteFault::Memory
    }
}

/// Notes the entries of a transcript, one after another.
pub trait Recorder: Send {
    /// The entries that were noted, where they are told, the newest first.
    ghost entries: { Self → Option (List Entry) };

    /// How often the recorder has failed.
    ghost faults: { Self → ℕ };

    /// Notes an entry, whose body has at most [`LONGEST_BODY`](crate::LONGEST_BODY) bytes. Nothing is asked of its kind
    /// and its connection. Fails only where the count of faults rose. After want of memory the entries are as before;
    /// after a failure they are as before or told no more, and entries that are told no more stay so.
    fn note(&mut self, kind: EntryKind, conn: u32, body: &[u8]) -> Result<(), NoteFault>
        requires { length body.now ≤ LONGEST_BODY }
        ensures entries { NotesSo (entries self.old) (entries self.new) (entry_noted kind conn body.now)
            result }
        ensures cause { HasNoteCause (faults self.old) (faults self.new) result };
}
