//! The queue between who notes and the thread that writes the file.
ghost use Rattle.std.specs.Prelude.{◌≤◌, length};

use crate::backlog::{Backlog, FileProgress};
use gate_bytes::Memory;
use std::alloc::Global;
use std::sync::{Mutex, MutexGuard};
use std::time::Duration;
use std::{io, thread};

/// How long a file may take nothing before that counts as a fault, in seconds (this project's own limit): while the queue is
/// full, while the file is opened, and while the rest is written at the end.
pub const STALL_SECONDS: u64 = 10;

/// How long whoever waits for the thread that writes pauses between two looks, in milliseconds (this project's own).
const LOOK_MILLISECONDS: u64 = 1;

/// How long whoever puts pauses at once for a thread that is late, in microseconds (this project's own).
const LATE_MICROSECONDS: u64 = 50;

/// How often the lock of a queue is tried before another thread is let run. It is held for less than that takes, unless the
/// thread that has it does not run.
const TRIES_IN_A_ROW: u32 = 1_000;

/// How often a file may be looked at that takes nothing.
const MOST_LOOKS: u64 = STALL_SECONDS * 1_000 / LOOK_MILLISECONDS;

/// What the thread that writes found in its queue.
#[derive(Clone, Copy, Debug, PartialEq, Eq)]
pub enum Collected {
    /// Bytes, which it has now.
    Bytes,
    /// Nothing for now.
    Nothing,
    /// Nothing, and nothing more comes.
    End,
}

/// The bytes that wait for a file under their lock, from one thread, which puts them, to another, which writes them. Neither
/// has the lock for longer than it takes to move bytes in memory.
#[derive(Drop)]
pub struct FileQueue {
    backlog: Mutex<Backlog>,
}

/// Pauses between two looks.
fn pause(host: &HostRuntime) {
    thread::sleep(host, Duration::from_millis(LOOK_MILLISECONDS));
}

impl FileQueue {
    /// A queue in which nothing waits.
    pub fn new(alloc: Global) -> Result<FileQueue, Memory> {
        Ok(FileQueue {
            backlog: Mutex::new(Backlog::new(alloc)?),
        })
    }

    /// What waits, once the other thread does not have it: it has it for a moment.
    fn enter(&self) -> Option<MutexGuard<'_, Backlog>> {
        for _ in 0..u64::MAX {
            if let Some(backlog) = self.try_enter() {
                return Some(backlog);
            }
            thread::yield_now();
        }
        None
    }

    /// The same, where the other thread lets it go soon.
    fn try_enter(&self) -> Option<MutexGuard<'_, Backlog>> {
        for _ in 0..TRIES_IN_A_ROW {
            if let Some(backlog) = self.backlog.try_lock() {
                return Some(backlog);
            }
        }
        None
    }

    /// How far the thread has come that writes.
    fn progress(&self) -> Option<FileProgress> {
        let backlog = self.enter()?;
        Some(backlog.progress())
    }

    /// Puts the first bytes of a piece, and answers how many they are. It waits for the file only while the queue is full, and
    /// answers 0 where it stays so for [`STALL_SECONDS`], or the file has failed. Besides, it pauses some milliseconds at most
    /// where the thread that writes is late.
    pub fn put(&self, host: &HostRuntime, piece: &[u8]) -> usize
        ensures { result ≤ length piece.now }
    {
        let (count, is_late) = self.put_now(piece);
        if is_late {
            self.await_thread(host);
        }
        if count > 0 {
            return count;
        }
        self.await_room(host);
        self.put_now(piece).0
    }

    /// The same without any wait, and whether the thread that writes may be waited for. Where memory is wanting, nothing is put.
    fn put_now(&self, piece: &[u8]) -> (usize, bool)
        ensures { result.0 ≤ length piece.now }
    {
        match self.enter() {
            Some(mut backlog) => {
                let count = backlog.put(piece).unwrap_or(0);
                (count, backlog.may_wait_for_thread())
            }
            None => (0, false),
        }
    }

    /// Pauses until the thread has come, where that may be waited for.
    fn await_thread(&self, host: &HostRuntime) {
        for _ in 0..u64::MAX {
            thread::sleep(host, Duration::from_micros(LATE_MICROSECONDS));
            if !self.may_wait_for_thread() {
                return;
            }
        }
    }

    /// Whether the thread that writes is late, and may be waited for.
    fn may_wait_for_thread(&self) -> bool {
        match self.enter() {
            Some(mut backlog) => backlog.may_wait_for_thread(),
            None => false,
        }
    }

    /// Waits while there is no room.
    fn await_room(&self, host: &HostRuntime) {
        for _ in 0..MOST_LOOKS {
            match self.progress() {
                Some(progress) if progress.full && !progress.over => pause(host),
                _ => return,
            }
        }
    }

    /// Waits until all that was put is written, for [`STALL_SECONDS`] at most, and tells whether it is.
    pub fn settle(&self, host: &HostRuntime) -> bool {
        for _ in 0..MOST_LOOKS {
            match self.progress() {
                Some(progress) if progress.written || progress.over => return progress.written,
                Some(_) => pause(host),
                None => return false,
            }
        }
        false
    }

    /// Nothing more is put. The thread writes what waits, and ends.
    pub fn close(&self) {
        if let Some(mut backlog) = self.enter() {
            backlog.close();
        }
    }

    /// Waits until the thread has ended, as long as it does not stand for [`STALL_SECONDS`], and tells whether all that was put
    /// is written.
    pub fn finish(&self, host: &HostRuntime) -> bool {
        for _ in 0..u64::MAX {
            let Some(seen) = self.progress() else {
                return false;
            };
            if let Some(written) = self.await_step(host, seen.steps) {
                return written;
            }
        }
        false
    }

    /// Waits for a step of the thread. Where it has ended, or stands too long, it is told whether all is written.
    fn await_step(&self, host: &HostRuntime, seen: u64) -> Option<bool> {
        for _ in 0..MOST_LOOKS {
            match self.progress() {
                Some(progress) if progress.over => return Some(progress.written),
                Some(progress) if progress.steps != seen => return None,
                Some(_) => pause(host),
                None => return Some(false),
            }
        }
        Some(false)
    }

    /// The thread takes all that waits, in place of what it had.
    pub fn collect(&self, buffer: &mut Vec<u8>) -> Collected {
        let Some(mut backlog) = self.enter() else {
            return Collected::End;
        };
        let closed = backlog.is_closed();
        backlog.take(buffer);
        match (buffer.is_empty(), closed) {
            (false, _) => Collected::Bytes,
            (true, false) => Collected::Nothing,
            (true, true) => Collected::End,
        }
    }

    /// The thread has written so many bytes.
    pub fn wrote(&self, count: usize) {
        if let Some(mut backlog) = self.enter() {
            backlog.wrote(count);
        }
    }

    /// The thread has ended, where the file failed for this reason.
    pub fn end(&self, failure: Option<io::Error>) {
        if let Some(mut backlog) = self.enter() {
            backlog.end(failure);
        }
    }

    /// Why the file failed, where it did.
    pub fn failure(&self) -> Option<io::Error> {
        let backlog = self.enter()?;
        backlog.failure()
    }
}
