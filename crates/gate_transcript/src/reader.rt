//! The reader of entries, which takes a transcript in any pieces.
ghost use Rattle.std.specs.Prelude.{◌≡◌, ℕ, ◌≤◌, ◌+◌, ◌<◌, List, [], ◌++◌, length, OnOk, OnErr, IfOk};

use crate::connections::EnteredNumbers;
use crate::entry::{Entry, EntryKind};
use crate::fault::{BadEntry, BadEntryKind, EntryFault, ReadFault};
use crate::head::{EntryHead, HEAD_LENGTH, first_head};
use crate::unread::UnreadBytes;
use gate_bytes::{Memory, Text, after, before};
use gate_outside::Source;
use std::alloc::Global;
use std::mem;

/// The number of bytes that a transcript begins with.
pub const MAGIC_LENGTH: usize = 8;

/// The bytes that a transcript begins with.
pub const MAGIC: [u8; MAGIC_LENGTH] = *b"RTSPGW1\n";

/// How far a reader has come.
#[derive(Clone, Copy)]
pub enum ReaderStage {
    /// Fewer bytes than the magic has were fed.
    Front,
    /// The magic was right.
    Entries,
    /// The transcript has this fault.
    Stopped(BadEntry),
}

/// Reads the entries of a transcript that is fed in any pieces. It keeps the unfinished entry alone, and the
/// connections that have entered.
#[derive(Drop)]
pub struct EntryReader {
    stage: ReaderStage,
    place: u64,
    left: UnreadBytes,
    entered: EnteredNumbers,
}

impl EntryReader {
    ghost use Rattle.gate_transcript.specs.declared.entry.Entry.{Entry};
    ghost use Rattle.gate_transcript.specs.Connections.{has};
    ghost use Rattle.gate_transcript.specs.Transcript.{first_head};
    ghost use Rattle.gate_transcript.specs.Unread.{RoseAtSource};
    ghost use Rattle.gate_transcript.specs.Reads.{ReadsPiece, ReadsSo, KeepsGiven, NextSays, EndsSo, HoldsFewer, bytes_held};
    ghost use Rattle.gate_transcript.specs.Steps.{PassesMagic, ReadsNext, RemovesEntry, IsSame, ending};

    /// A reader that was fed nothing. It needs no memory.
    pub fn new(alloc: Global) -> EntryReader
        ensures { ReadsSo result [] [] }
    {
        EntryReader {
            stage: ReaderStage::Front,
            place: 0,
            left: UnreadBytes::new(alloc),
            entered: EnteredNumbers::new(alloc),
        }
    }

    /// Takes a piece of the transcript, whole or not at all.
    pub fn feed(&mut self, piece: &[u8]) -> Result<(), Memory>
        ensures ok { OnOk result
            ((stream : List ℕ) (given : List Entry) → ReadsSo self.old stream given
            → ReadsSo self.new (stream ++ piece.now) given) }
        ensures err { OnErr result (KeepsGiven self.old self.new) }
    {
        match self.stage {
            ReaderStage::Front => self.feed_front(piece),
            ReaderStage::Entries => self.feed_entries(piece),
            ReaderStage::Stopped(_) => Ok(()),
        }
    }

    /// Takes the next bytes of a source: so many at most, [`READ_SIZE`] at most, and none where it has ended. Where the
    /// source fails or memory is wanting, nothing was taken.
    pub fn read<S: Source>(&mut self, source: &mut S, most: usize) -> Result<usize, ReadFault>
        requires { 0 < most }
        ensures ok { IfOk result (λ count.
            ReadsPiece self.old self.new (S.rest source.old) (S.rest source.new) count) }
        ensures err { OnErr result
            ((S.rest source.new ≡ S.rest source.old) × KeepsGiven self.old self.new) }
        ensures within { IfOk result (λ count. count ≤ most) }
        ensures cause { RoseAtSource (S.faults source.old) (S.faults source.new) result }
    {
        let count = self.left.read(source, most)?;
        match self.stage {
            ReaderStage::Front => self.pass_magic(),
            ReaderStage::Entries | ReaderStage::Stopped(_) => (),
        }
        Ok(count)
    }

    /// Appends the piece, and looks at the magic once it is whole.
    fn feed_front(&mut self, piece: &[u8]) -> Result<(), Memory>
        requires { self.old.stage ≡ ReaderStage.Front }
        ensures ok { OnOk result
            (PassesMagic (record self.old { left = self.old.left ++ piece.now }) self.new) }
        ensures err { OnErr result (self.new ≡ self.old) }
    {
        self.left.push(piece)?;
        self.pass_magic();
        Ok(())
    }

    /// Looks at the magic once it is whole.
    fn pass_magic(&mut self)
        requires { self.old.stage ≡ ReaderStage.Front }
        ensures { PassesMagic self.old self.new }
    {
        let bytes = self.left.as_bytes();
        if bytes.len() < MAGIC_LENGTH {
            return;
        }
        if bytes.starts_with(&MAGIC) {
            self.left.skip(MAGIC_LENGTH);
            self.place = MAGIC_LENGTH as u64;
            self.stage = ReaderStage::Entries;
        } else {
            self.stage = ReaderStage::Stopped(BadEntry {
                place: 0,
                kind: BadEntryKind::Magic,
            });
        }
    }

    /// Appends the piece.
    fn feed_entries(&mut self, piece: &[u8]) -> Result<(), Memory>
        ensures ok { OnOk result (self.new ≡ record self.old { left = self.old.left ++ piece.now }) }
        ensures err { OnErr result (self.new ≡ self.old) }
    {
        self.left.push(piece)
    }

    /// The next entry, whose body is made in the memory of a text that is done with; an empty one is left in its place.
    /// Nothing where no whole entry and no fault stands next: more may be fed then. The fault of a transcript is answered
    /// from then on. Where memory runs out, the entry is still to come.
    pub fn next(&mut self, alloc: Global, spare: &mut Text) -> Result<Option<Entry>, EntryFault>
        ensures says { NextSays self.old self.new result }
        ensures less { HoldsFewer (bytes_held self.old) (bytes_held self.new) result }
    {
        match self.stage {
            ReaderStage::Front => Ok(None),
            ReaderStage::Entries => self.next_entry(alloc, spare),
            ReaderStage::Stopped(bad) => Err(EntryFault::Bad(bad)),
        }
    }

    /// The next entry after the magic.
    fn next_entry(&mut self, alloc: Global, spare: &mut Text) -> Result<Option<Entry>, EntryFault>
        requires { self.old.stage ≡ ReaderStage.Entries }
        ensures { ReadsNext (first_head (has self.old.entered) self.old.left) self.old self.new result }
    {
        match first_head(&self.entered, self.left.as_bytes()) {
            Ok(None) => Ok(None),
            Ok(Some(head)) => Ok(Some(self.take_entry(alloc, spare, head)?)),
            Err(BadEntryKind::Cut) => Ok(None),
            Err(kind) => Err(EntryFault::Bad(self.stop(kind))),
        }
    }

    /// Takes the entry with this head off the front.
    fn take_entry(
        &mut self,
        alloc: Global,
        spare: &mut Text,
        head: EntryHead,
    ) -> Result<Entry, Memory>
        requires { HEAD_LENGTH + head.size ≤ length self.old.left }
        ensures ok { IfOk result (λ e. RemovesEntry head self.old self.new e) }
        ensures err { OnErr result (IsSame self.old self.new) }
    {
        let end = HEAD_LENGTH + head.size as usize;
        spare.truncate(0);
        spare.push_slice(after(before(self.left.as_bytes(), end), HEAD_LENGTH))?;
        if head.kind == EntryKind::Enter {
            self.entered.insert(head.conn)?;
        }
        self.left.skip(end);
        self.place = self.place.saturating_add(end as u64);
        Ok(Entry {
            kind: head.kind,
            conn: head.conn,
            body: mem::replace(spare, Text::new(alloc)),
        })
    }

    /// Stops at the entry that stands first, with this fault.
    fn stop(&mut self, kind: BadEntryKind) -> BadEntry
        ensures bad { result ≡ record { place = self.old.place; kind = kind } }
        ensures stage { self.new ≡ record self.old { stage = ReaderStage.Stopped result } }
    {
        let bad = BadEntry {
            place: self.place,
            kind,
        };
        self.stage = ReaderStage::Stopped(bad);
        bad
    }

    /// Whether the transcript may end after what was fed: exactly where all of it was given as entries. Else the
    /// answer is the transcript's first fault, or, while whole entries are still to be given, Cut at the next of them.
    #[tactic(auto, using(crate::proofs::ReaderLemmas::stopped_ends))]
    pub fn finish(&self) -> Result<(), BadEntry>
        ensures { (stream : List ℕ) (given : List Entry) → ReadsSo self.now stream given
            → EndsSo stream given result }
    {
        match self.stage {
            ReaderStage::Front => Err(BadEntry {
                place: 0,
                kind: BadEntryKind::Magic,
            }),
            ReaderStage::Entries => self.finish_entries(),
            ReaderStage::Stopped(bad) => Err(bad),
        }
    }

    /// The same after the magic.
    fn finish_entries(&self) -> Result<(), BadEntry>
        requires { self.now.stage ≡ ReaderStage.Entries }
        ensures { result ≡ ending (first_head (has self.now.entered) self.now.left) self.now.place }
    {
        let kind = match first_head(&self.entered, self.left.as_bytes()) {
            Ok(None) => return Ok(()),
            Ok(Some(_)) => BadEntryKind::Cut,
            Err(kind) => kind,
        };
        Err(BadEntry {
            place: self.place,
            kind,
        })
    }
}
