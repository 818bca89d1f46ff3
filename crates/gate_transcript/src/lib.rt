//! Transcripts: what came to the gateway, connection by connection, as one stream of bytes.
//!
//! A transcript is the eight bytes `RTSPGW1` and a line feed, and then entries: a kind byte, a connection of four
//! bytes, a length of four bytes, both with the greatest byte first, and a body of that length.
//!
//! An [`EntryReader`] is fed the pieces of a transcript and gives its whole entries in order, and then its first
//! fault. Which entries and which fault a transcript has is defined apart from it, over all of its bytes.
//!
//! A [`Recorder`] notes entries as they come: a [`TranscriptRecorder`] writes them, and a [`MemoryRecorder`] keeps them
//! for tests.
#![tactic(auto)]

mod connections;
mod entry;
mod entry_text;
mod fault;
mod head;
mod memory;
mod reader;
mod recorder;
mod transcript_recorder;
mod unread;

pub use entry::{
    CLIENT_BYTE, END_BYTE, ENDED_REASON, ENTER_BYTE, Entry, EntryKind, FULL_REASON,
    READ_FAULT_REASON, SLOW_BYTE, UP_END_BYTE, UPSTREAM_BYTE, UpWhy, WRITE_FAULT_REASON,
    end_reason_in,
};
pub use entry_text::{a_transcript_is_read_by_its_grammar, write_entry, written_entries_are_read};
pub use fault::{BadEntry, BadEntryKind, EntryFault, ReadFault};
pub use head::{HEAD_LENGTH, LONGEST_BODY};
pub use memory::MemoryRecorder;
pub use reader::{EntryReader, MAGIC, MAGIC_LENGTH};
pub use recorder::{NoteFault, Recorder};
pub use transcript_recorder::TranscriptRecorder;
pub use unread::READ_SIZE;
