//! The thread that writes a recording.
ghost use Rattle.std.specs.Prelude.{◌≤◌, None, IfOk, length};

use crate::backlog::new_buffer;
use crate::file_queue::{Collected, FileQueue};
use gate_bytes::before;
use gate_outside::{Failed, Sink, write_all};
use std::alloc::Global;
use std::fs::{self, File, Files};
use std::io::{ErrorKind, Write};
use std::os::unix::fs::FileTypeExt;
use std::time::Duration;
use std::{io, str, thread};

/// How many bytes are written at once (this project's own). A pipe takes all of a piece or waits, and is seen to get on only
/// between two writes.
const WRITE_BYTES: usize = 65_536;

/// How often a write that a signal interrupted is tried.
const MOST_TRIES: u32 = 100;

/// How long the thread pauses where nothing has come for a time, in microseconds (this project's own). A kill loses no more, as
/// far as the file takes it.
pub const IDLE_MICROSECONDS: u64 = 10_000;

/// How long it pauses where something came of late, so that more comes that is written at once, in microseconds (this project's
/// own).
const BUSY_MICROSECONDS: u64 = 1_000;

/// The same where so much came that more would need larger buffers.
const FLOOD_MICROSECONDS: u64 = 300;

/// How many bytes are so much.
const FLOOD_BYTES: usize = 65_536;

/// After so many looks that found nothing, nothing has come for a time.
const BUSY_LOOKS: u32 = 1_000;

/// How the thread pauses between two looks into its queue.
#[derive(Drop)]
struct Rhythm {
    /// How many looks in a row have found nothing.
    idle_looks: u32,
}

impl Rhythm {
    /// How long it pauses behind a look that found so many bytes.
    fn pause_after(&mut self, count: usize) -> Duration {
        if count > 0 {
            self.idle_looks = 0;
        } else {
            self.idle_looks = self.idle_looks.saturating_add(1);
        }
        Duration::from_micros(if count >= FLOOD_BYTES {
            FLOOD_MICROSECONDS
        } else if self.idle_looks < BUSY_LOOKS {
            BUSY_MICROSECONDS
        } else {
            IDLE_MICROSECONDS
        })
    }
}

/// Makes the file of this name, or empties it, and writes to it what is put into the queue, until that is closed and nothing
/// waits, or the file fails. The queue is told how that went.
pub fn write_file(host: &HostRuntime, alloc: Global, name: &[u8], queue: &FileQueue) {
    queue.end(write_queued(host, alloc, name, queue).err());
}

/// The same, without the word to the queue. The file is closed behind it.
fn write_queued(
    host: &HostRuntime,
    alloc: Global,
    name: &[u8],
    queue: &FileQueue,
) -> io::Result<()> {
    let name = str::from_utf8(name).map_err(|_| io::Error::other("the name is no text"))?;
    let mut piece = new_buffer(alloc).map_err(|_| io::Error::other("out of memory"))?;
    let mut sink = QueuedFile {
        file: open(host, name)?,
        queue,
        faults: 0,
        failure: io::Error::other("it takes nothing"),
    };
    let mut rhythm = Rhythm { idle_looks: 0 };
    for _ in 0..u64::MAX {
        match queue.collect(&mut piece) {
            Collected::Bytes => {
                if write_all(&mut sink, piece.as_slice()).is_err() {
                    return Err(sink.failure);
                }
            }
            Collected::Nothing => {}
            Collected::End => return Ok(()),
        }
        thread::sleep(host, rhythm.pause_after(piece.len()));
    }
    Err(sink.failure)
}

/// Opens the file of this name for writing, made or emptied. A pipe that nobody reads is not waited for: the first write to it
/// fails.
fn open<R: Files<File = File>>(rt: &R, name: &str) -> io::Result<File> {
    if !is_pipe(rt, name) {
        return File::create(rt, name);
    }
    // To open a pipe for writing waits for a reader. While it is open both ways there is one; that end is let go at once.
    let both = File::options().read(true).write(true).open(rt, name)?;
    let file = File::options().write(true).open(rt, name)?;
    drop(both);
    Ok(file)
}

/// Whether a pipe has this name.
fn is_pipe<R: Files>(rt: &R, name: &str) -> bool {
    match fs::metadata(rt, name) {
        Ok(metadata) => metadata.file_type().is_fifo(),
        Err(_) => false,
    }
}

/// Writes the first bytes of a piece, and answers how many they are.
fn write_some(file: &mut File, piece: &[u8]) -> io::Result<usize>
    ensures { IfOk result (λ count. count ≤ length piece.now) }
{
    let front = before(piece, piece.len().min(WRITE_BYTES));
    for _ in 0..MOST_TRIES {
        match file.write(front) {
            Err(error) if error.kind() == ErrorKind::Interrupted => {}
            other => return other,
        }
    }
    Ok(0)
}

/// A file to which a thread writes what it took from a queue. The queue is told of each write.
#[derive(Drop)]
struct QueuedFile<'a> {
    file: File,
    queue: &'a FileQueue,
    faults: u64,
    /// Why the file failed last.
    failure: io::Error,
}

impl<'a> Sink for QueuedFile<'a> {
    ghost written = { λ s. None };

    ghost faults = { λ s. s.faults };

    fn write(&mut self, piece: &[u8]) -> Result<usize, Failed> {
        match write_some(&mut self.file, piece) {
            Ok(count) if count > 0 => {
                self.queue.wrote(count);
                return Ok(count);
            }
            Ok(_) => {}
            Err(failure) => self.failure = failure,
        }
        self.faults = self.faults.saturating_add(1);
        Err(Failed)
    }
}
