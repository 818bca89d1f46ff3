//! Entries as text, and the law that those of a transcript are read back.
ghost use Rattle.std.specs.Prelude.{◌≡◌, ◌≤◌, ℕ, List, None, IfOk, length};
ghost use Rattle.gate_transcript.specs.declared.entry.Entry.{Entry};
ghost use Rattle.gate_transcript.specs.declared.head.TheConstants.{LONGEST_BODY};
ghost use Rattle.gate_transcript.specs.EntryTexts.{kind_byte, entry_spelled, transcript_text, AreEntries, AreBytes, IsTranscript};
ghost use Rattle.gate_transcript.specs.Transcript.{TranscriptReading, reading};

use crate::entry::{
    CLIENT_BYTE, END_BYTE, ENTER_BYTE, EntryKind, SLOW_BYTE, UP_END_BYTE, UPSTREAM_BYTE,
};
use crate::head::{HEAD_LENGTH, LONGEST_BODY};
use gate_bytes::{Memory, Text};
use std::alloc::Global;

/// The text of one entry, whose body has at most [`LONGEST_BODY`] bytes. Nothing is asked of its kind
/// and its connection: the entries before it say whether it may stand in a transcript.
pub fn write_entry(alloc: Global, kind: EntryKind, conn: u32, body: &[u8]) -> Result<Text, Memory>
    requires { length body.now ≤ LONGEST_BODY }
    ensures { IfOk result (λ text. text ≡ entry_spelled kind conn body.now) }
{
    let mut text = Text::with_room(alloc, HEAD_LENGTH + body.len())?;
    text.push_slice(&[kind_byte(kind)])?;
    text.push_slice(&conn.to_be_bytes())?;
    text.push_slice(&(body.len() as u32).to_be_bytes())?;
    text.push_slice(body)?;
    Ok(text)
}

/// The byte that an entry of this kind begins with.
pub(crate) fn kind_byte(kind: EntryKind) -> u8
    ensures { result ≡ kind_byte kind }
{
    match kind {
        EntryKind::Enter => ENTER_BYTE,
        EntryKind::Client => CLIENT_BYTE,
        EntryKind::Upstream => UPSTREAM_BYTE,
        EntryKind::End => END_BYTE,
        EntryKind::Slow => SLOW_BYTE,
        EntryKind::UpEnd => UP_END_BYTE,
    }
}

/// Entries that may stand in a row, spelled behind the magic, are read back as those, without a fault.
pub fn written_entries_are_read()
    ensures { (entries : List Entry) → AreEntries entries
        → reading (transcript_text entries) ≡ record { entries = entries; fault = None } }
{}

/// The grammar of a transcript says how bytes are read, both ways: whatever bytes spell by it is what
/// is read, and whatever is read is spelled by it.
pub fn a_transcript_is_read_by_its_grammar()
    ensures read { (bytes : List ℕ) (read : TranscriptReading) → IsTranscript bytes read
        → reading bytes ≡ read }
    ensures spelled { (bytes : List ℕ) → AreBytes bytes → IsTranscript bytes (reading bytes) }
{}
