//! A recorder that writes a transcript.
ghost use Rattle.std.specs.Prelude.{◌≡◌, ◌≢◌, ◌≤◌, List, [], ◌∷◌, ◌++◌, length, Some, Err, IfOk, IfErr};
ghost use Rattle.std.specs.Option.{ForSome, option_map};
ghost use Rattle.std.specs.Int.{w32, to_be_bytes};
ghost use Rattle.gate_outside.specs.Causes.{Rose, HasCause};
ghost use Rattle.gate_outside.specs.Contents.{GrowsByFront, WritesAll};
ghost use Rattle.gate_transcript.specs.declared.entry.Entry.{Entry};
ghost use Rattle.gate_transcript.specs.declared.head.TheConstants.{LONGEST_BODY};
ghost use Rattle.gate_transcript.specs.declared.recorder.NoteFault.TheVariants.{Memory};
ghost use Rattle.gate_transcript.specs.Notes.{NotesSo, HasNoteCause, entry_noted};
ghost use Rattle.gate_transcript.specs.Recordings.{IsRecording, entries_told};
ghost use Rattle.gate_transcript.specs.EntryTexts.{kind_byte, entry_spelled, transcript_text};
ghost use Rattle.gate_transcript.specs.Transcript.{magic};

use crate::entry::EntryKind;
use crate::entry_text::kind_byte;
use crate::head::HEAD_LENGTH;
use crate::reader::MAGIC;
use crate::recorder::{NoteFault, Recorder};
use gate_outside::{Failed, Sink, write_all};

/// Notes entries by writing them to a sink, behind the magic. Where the sink tells what was written, the entries are told,
/// and their text is what was written. Once a write has failed, which may leave a cut entry in the sink, no entry is told.
#[derive(Drop)]
pub struct TranscriptRecorder<K: Sink> {
    sink: K,
    whole: bool,
    ghost recording: { IsRecording whole (K.written sink) },
}

impl<K: Sink> TranscriptRecorder<K> {
    /// Writes the magic to a sink to which nothing was written.
    /// Fails only where the sink's count of faults rose, and hands the sink back then.
    pub fn start(sink: K) -> Result<TranscriptRecorder<K>, (K, Failed)>
        requires { ForSome (K.written sink) (λ bytes. bytes ≡ []) }
        ensures none { IfOk result (λ recorder.
            entries_told recorder.whole (K.written recorder.sink) ≡ option_map (λ _. []) (K.written sink)) }
        ensures later { IfOk result (λ recorder. K.faults sink ≤ K.faults recorder.sink) }
        ensures cause { IfErr result (λ e. Rose (K.faults sink) (K.faults e.0)) }
        ensures front { IfErr result (λ e. GrowsByFront (K.written sink) (K.written e.0) magic) }
    {
        let mut sink = sink;
        match write_all(&mut sink, &MAGIC) {
            Ok(()) => Ok(TranscriptRecorder { sink, whole: true }),
            Err(failed) => Err((sink, failed)),
        }
    }

    /// The sink to which it writes.
    pub fn sink(&self) -> &K
        ensures { result.now ≡ self.now.sink }
    {
        &self.sink
    }

    /// The sink, in which the entries that were told stand as a transcript.
    pub fn into_sink(self) -> K
        ensures sink { result ≡ self.sink }
        ensures text { (entries : List Entry) → entries_told self.whole (K.written self.sink) ≡ Some entries
            → K.written result ≡ Some (transcript_text entries) }
    {
        let TranscriptRecorder { sink, whole: _ } = self;
        sink
    }
}

impl<K: Sink + Send> Recorder for TranscriptRecorder<K> {
    ghost use Rattle.gate_transcript.specs.Recordings.{entries_told};

    ghost entries = { λ recorder. entries_told recorder.whole (K.written recorder.sink) };

    ghost faults = { λ recorder. K.faults recorder.sink };

    /// Takes no memory, and so never tells want of it.
    fn note(&mut self, kind: EntryKind, conn: u32, body: &[u8]) -> Result<(), NoteFault>
        requires { length body.now ≤ LONGEST_BODY }
        ensures entries { NotesSo (entries_told self.old.whole (K.written self.old.sink))
            (entries_told self.new.whole (K.written self.new.sink)) (entry_noted kind conn body.now) result }
        ensures cause { HasNoteCause (K.faults self.old.sink) (K.faults self.new.sink) result }
        ensures room { result ≢ Err Memory }
    {
        match write_note(&mut self.sink, kind, conn, body) {
            Ok(()) => Ok(()),
            Err(_) => {
                self.whole = false;
                Err(NoteFault::Failed)
            }
        }
    }
}

/// Writes the text of an entry: its head, and then its body. Fails only where the count of faults rose; a front of the text
/// was written then.
fn write_note<K: Sink>(sink: &mut K, kind: EntryKind, conn: u32, body: &[u8]) -> Result<(), Failed>
    requires { length body.now ≤ LONGEST_BODY }
    ensures bytes { WritesAll (K.written sink.old) (K.written sink.new) (entry_spelled kind conn body.now)
        result }
    ensures cause { HasCause (K.faults sink.old) (K.faults sink.new) result }
{
    let Ok(()) = write_all(sink, &entry_front(kind, conn, body.len() as u32)) else {
        return Err(Failed);
    };
    write_all(sink, body)
}

/// The first bytes of an entry's text, before those of its body.
fn entry_front(kind: EntryKind, conn: u32, size: u32) -> [u8; HEAD_LENGTH]
    ensures { result ≡ kind_byte kind ∷ (to_be_bytes w32 conn ++ to_be_bytes w32 size) }
{
    let [a, b, c, d] = conn.to_be_bytes();
    let [e, f, g, h] = size.to_be_bytes();
    [kind_byte(kind), a, b, c, d, e, f, g, h]
}
