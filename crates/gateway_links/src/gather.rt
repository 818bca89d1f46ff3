//! The bytes that a writer took and has not written yet.
ghost use Rattle.std.specs.Prelude.{◌≡◌, ◌<◌, ◌≤◌, ◌==◌, true, [], ◌++◌, length, drop};
ghost use Rattle.std.specs.Bool.{OnTrue, OnFalse};

use gate_bytes::{Memory, after};
use rtsp_head::{MOST_BODY, MOST_HEAD};
use std::alloc::Global;
use std::marker::Model;
use std::mem;

/// With so many bytes or more, no more are gathered before they are written (this project's own).
pub const WRITE_SIZE: usize = 65_536;

/// The bytes that a buffer has room for: those that are gathered at once, and a message or a frame behind them (this
/// project's own).
pub const BUFFER_SIZE: usize = WRITE_SIZE + MOST_HEAD + MOST_BODY as usize;

/// With so many bytes or more, no more are taken for an outlet that takes nothing for now (this project's own).
pub const MOST_HELD: usize = 4_194_304;

/// The bytes that the buffer for such an outlet has room for.
const LARGE_SIZE: usize = MOST_HELD + BUFFER_SIZE;

/// Gives back the memory of a buffer. It is made small before that: a C library that was given back a large block whole keeps the
/// memory of those that follow.
fn give_back(buffer: Vec<u8>) {
    let mut buffer = buffer;
    buffer.clear();
    buffer.shrink_to(1);
}

/// The bytes that were taken and are not written yet, in one buffer. Contracts see it as these bytes.
#[derive(Drop)]
pub struct Gather {
    alloc: Global,
    bytes: Vec<u8>,
    /// So many bytes at the front are written.
    start: usize,
    /// The small buffer, while the large one is in use.
    spare: Option<Vec<u8>>,
    ghost within: { start ≤ length bytes.items },
}

impl Model for Gather {
    ghost use Rattle.std.specs.Prelude.{ℕ, List, drop};

    ghost Value = { List ℕ };

    ghost view = { λ gather. drop gather.start gather.bytes.items };
}

impl Gather {
    /// An empty buffer. Where memory is wanting it has no room.
    pub fn new(alloc: Global) -> Gather
        ensures { result ≡ [] }
    {
        let bytes = match Vec::with_capacity(alloc, BUFFER_SIZE) {
            Ok(bytes) => bytes,
            Err(_) => Vec::new(alloc),
        };
        Gather {
            alloc,
            bytes,
            start: 0,
            spare: None,
        }
    }

    /// Whether it has room for all that is gathered at once.
    pub(crate) fn has_room(&self) -> bool {
        self.bytes.capacity() >= BUFFER_SIZE
    }

    /// The bytes in it.
    pub(crate) fn as_bytes(&self) -> &[u8]
        ensures { result.now ≡ self.now }
    {
        after(self.bytes.as_slice(), self.start)
    }

    /// Whether no bytes are in it.
    pub(crate) fn is_empty(&self) -> bool
        ensures { result ≡ (length self.now == 0) }
    {
        self.as_bytes().is_empty()
    }

    /// Whether no more are to be put into it: it holds many, or so many were written that those left are few beside them.
    pub(crate) fn is_full(&self) -> bool
        ensures { result ≡ true → 0 < length self.now }
    {
        let held = self.as_bytes().len();
        let most = if self.spare.is_some() {
            MOST_HELD
        } else {
            WRITE_SIZE
        };
        held >= most || (self.bytes.len() >= most && self.start < held)
    }

    /// Appends the bytes, where there is room for them all.
    pub(crate) fn add(&mut self, bytes: &[u8]) -> bool
        ensures added { OnTrue result (self.new ≡ self.old ++ bytes.now) }
        ensures same { OnFalse result (self.new ≡ self.old) }
    {
        if self.room() < bytes.len() {
            self.close_up();
        }
        if self.room() < bytes.len() {
            return false;
        }
        self.bytes.extend_from_slice(bytes).is_ok()
    }

    /// How many bytes more there is room for at its end.
    fn room(&self) -> usize {
        self.bytes.capacity().saturating_sub(self.bytes.len())
    }

    /// Makes room at its end, where bytes at its front are written and memory can be had.
    fn close_up(&mut self)
        ensures { self.new ≡ self.old }
    {
        if self.start > 0 {
            let size = self.bytes.capacity();
            if let Ok(old) = self.renew(size) {
                give_back(old);
            }
        }
    }

    /// Takes a large buffer, where memory can be had.
    pub(crate) fn grow(&mut self)
        ensures { self.new ≡ self.old }
    {
        if self.spare.is_none() {
            self.spare = self.renew(LARGE_SIZE).ok();
        }
    }

    /// Takes a new buffer of this size in place of the old one, which is answered.
    fn renew(&mut self, size: usize) -> Result<Vec<u8>, Memory>
        ensures { self.new ≡ self.old }
    {
        let mut bytes = Vec::with_capacity(self.alloc, size)?;
        bytes.extend_from_slice(self.as_bytes())?;
        self.start = 0;
        Ok(mem::replace(&mut self.bytes, bytes))
    }

    /// Forgets so many bytes at its front, which are written. Once none is left, a large buffer is given back.
    pub(crate) fn forget(&mut self, count: usize)
        requires { count ≤ length self.old }
        ensures { self.new ≡ drop count self.old }
    {
        self.start += count;
        if self.start == self.bytes.len() {
            self.clear();
        }
    }

    /// Empties it, and gives back a large buffer.
    pub(crate) fn clear(&mut self)
        ensures { self.new ≡ [] }
    {
        if let Some(small) = self.spare.take() {
            give_back(mem::replace(&mut self.bytes, small));
        }
        self.bytes.clear();
        self.start = 0;
    }
}
