//! The bytes that wait for a file.
ghost use Rattle.std.specs.Prelude.{◌≡◌, ◌+◌, ◌-◌, ◌≤◌, [], ◌++◌, length, take, IfOk, OnErr};
ghost use Rattle.serve_world_tcp.specs.Backlogs.{count_put};
ghost use Rattle.serve_world_tcp.specs.declared.backlog.TheConstants.{QUEUE_BYTES};

use gate_bytes::{Memory, before};
use gate_transcript::LONGEST_BODY;
use std::alloc::Global;
use std::{io, mem};

/// How many bytes may wait for a file, those that are being written among them (this project's own limit): 16 MB, which is
/// many seconds of all players' media, and more than a disk mostly takes to answer.
pub const QUEUE_BYTES: usize = 16_777_216;

/// With so many bytes waiting, the thread that writes is late, unless it is writing (this project's own): more than mostly come
/// between two of its looks, and few enough that both buffers stay in the processor's cache. Memory that was not touched before
/// costs far more than to copy into it.
const LATE_BYTES: usize = 524_288;

/// How many bytes a buffer has room for at first: those, and the longest body of an entry behind them. One that has grown is made as small
/// again.
const FIRST_ROOM: usize = LATE_BYTES + LONGEST_BODY as usize;

/// How often whoever puts may pause until a late thread has come.
const MOST_PAUSES: u32 = 100;

/// The bytes that wait for a file, and how far the thread has come that writes it.
///
/// Bytes wait in the order in which they were put. The thread takes all of them at once, and tells how many of those it has
/// written.
#[derive(Drop)]
pub struct Backlog {
    waiting: Vec<u8>,
    taken: usize,
    steps: u64,
    pauses: u32,
    closed: bool,
    failure: Option<io::Error>,
    over: bool,
    ghost fits: { length waiting.items + taken ≤ QUEUE_BYTES },
}

/// How far the thread that writes a file has come.
#[derive(Clone, Copy)]
pub struct FileProgress {
    /// How often it has written something. After the greatest number it goes on with 0.
    pub steps: u64,
    /// Whether nothing more can wait.
    pub full: bool,
    /// Whether it has ended.
    pub over: bool,
    /// Whether all that was put is written.
    pub written: bool,
}

/// A buffer for bytes that wait.
pub fn new_buffer(alloc: Global) -> Result<Vec<u8>, Memory>
    ensures { IfOk result (λ buffer. buffer.items ≡ []) }
{
    Ok(Vec::with_capacity(alloc, FIRST_ROOM)?)
}

/// Empties a buffer, which keeps its room unless that has grown.
fn empty(buffer: &mut Vec<u8>)
    ensures { buffer.new.items ≡ [] }
{
    buffer.clear();
    if buffer.capacity() > FIRST_ROOM {
        buffer.shrink_to(FIRST_ROOM);
    }
}

impl Backlog {
    /// Nothing waits, and the thread has not begun.
    pub fn new(alloc: Global) -> Result<Backlog, Memory>
        ensures { IfOk result (λ backlog. backlog.waiting.items ≡ []) }
    {
        Ok(Backlog {
            waiting: new_buffer(alloc)?,
            taken: 0,
            steps: 0,
            pauses: 0,
            closed: false,
            failure: None,
            over: false,
        })
    }

    /// Puts the first bytes of a piece behind those that wait, as many as there is room for, and answers how many they are: none
    /// where the thread has ended.
    pub fn put(&mut self, piece: &[u8]) -> Result<usize, Memory>
        ensures count { IfOk result (λ count.
            count
            ≡ count_put self.old.over (length self.old.waiting.items + self.old.taken) (length piece.now)) }
        ensures bytes { IfOk result (λ count.
            self.new.waiting.items ≡ self.old.waiting.items ++ take count piece.now) }
        ensures err { OnErr result (self.new.waiting.items ≡ self.old.waiting.items) }
    {
        if self.over {
            return Ok(0);
        }
        let count = piece.len().min(self.room());
        self.waiting.extend_from_slice(before(piece, count))?;
        Ok(count)
    }

    /// How many bytes more may wait.
    fn room(&self) -> usize
        ensures { result ≡ QUEUE_BYTES - (length self.now.waiting.items + self.now.taken) }
    {
        QUEUE_BYTES - (self.waiting.len() + self.taken)
    }

    /// Takes all bytes that wait, in place of those that the buffer has, and leaves it empty for those that come.
    pub fn take(&mut self, buffer: &mut Vec<u8>)
        ensures bytes { buffer.new.items ≡ self.old.waiting.items }
        ensures none { self.new.waiting.items ≡ [] }
    {
        empty(buffer);
        mem::swap(&mut self.waiting, buffer);
        self.taken = buffer.len();
        self.pauses = 0;
    }

    /// Whether the thread has not come for much that waits, though it is not held up by the file, and may be waited for. That
    /// is so for a bounded number of calls, until it has come.
    pub fn may_wait_for_thread(&mut self) -> bool
        ensures { self.new.waiting.items ≡ self.old.waiting.items }
    {
        let is_late = self.waiting.len() >= LATE_BYTES && self.taken == 0 && !self.over;
        if is_late && self.pauses < MOST_PAUSES {
            self.pauses += 1;
            return true;
        }
        false
    }

    /// The thread has written so many of the bytes that it took.
    pub fn wrote(&mut self, count: usize)
        ensures { self.new.waiting.items ≡ self.old.waiting.items }
    {
        self.taken = self.taken.saturating_sub(count);
        self.steps = self.steps.wrapping_add(1);
    }

    /// Why the file failed, where it did.
    pub fn failure(&self) -> Option<io::Error>
        ensures { result ≡ self.now.failure }
    {
        self.failure
    }

    /// Nothing more is put.
    pub fn close(&mut self)
        ensures { self.new.waiting.items ≡ self.old.waiting.items }
    {
        self.closed = true;
    }

    /// The thread has ended, since the file failed, for this reason, or since all was written.
    pub fn end(&mut self, failure: Option<io::Error>)
        ensures { self.new.waiting.items ≡ self.old.waiting.items }
    {
        self.failure = failure;
        self.over = true;
    }

    /// Whether nothing more is put.
    pub fn is_closed(&self) -> bool
        ensures { result ≡ self.now.closed }
    {
        self.closed
    }

    /// How far the thread has come.
    pub fn progress(&self) -> FileProgress {
        FileProgress {
            steps: self.steps,
            full: self.room() == 0,
            over: self.over,
            written: self.failure.is_none() && self.waiting.is_empty() && self.taken == 0,
        }
    }
}
