//! A file as a sink, written by a thread of its own.
ghost use Rattle.std.specs.Prelude.{◌≡◌, ◌<◌, ◌≤◌, None, IfOk, OnErr};

use crate::file_queue::FileQueue;
use crate::file_writer::write_file;
use gate_bytes::{Memory, Text};
use gate_outside::{Failed, Sink};
use std::alloc::Global;
use std::sync::Arc;
use std::thread::Threads;
use std::{io, thread};

/// A file that a thread of its own writes. What is written to the sink is copied into a queue, and the thread writes that at
/// once: whoever writes waits for the file only while the queue is full. That it stays full for too long counts as a fault, and
/// so does each write behind a failure of the file.
#[derive(Drop)]
pub struct FileSink {
    host: HostRuntime,
    queue: Arc<FileQueue>,
    faults: u64,
}

/// The name, and the queue twice, of a new sink.
fn parts_of(alloc: Global, name: &[u8]) -> Result<(Text, Arc<FileQueue>, Arc<FileQueue>), Memory> {
    let name = Text::copy(alloc, name)?;
    let queue = Arc::new(alloc, FileQueue::new(alloc)?)?;
    let theirs = Arc::try_clone(&queue)?;
    Ok((name, queue, theirs))
}

/// Starts the thread that writes what this queue gets to the file of this name. A thread that is refused is a failure.
fn start<R: Threads>(
    rt: &R,
    host: HostRuntime,
    alloc: Global,
    name: Text,
    queue: Arc<FileQueue>,
) -> io::Result<()> {
    let writing = move || write_file(&host, alloc, name.as_bytes(), &queue);
    // The thread ends by itself once the queue is closed: nobody joins it, since a file may hold it for ever.
    match thread::spawn(rt, writing) {
        Ok(_left_to_itself) => Ok(()),
        Err(_refused) => Err(io::Error::other("no thread for it")),
    }
}

impl FileSink {
    /// A sink for the file of this name, which its thread makes, or empties.
    pub fn create<R: Threads>(
        rt: &R,
        host: HostRuntime,
        alloc: Global,
        name: &[u8],
    ) -> io::Result<FileSink>
        ensures { IfOk result (λ sink. sink.faults ≡ 0) }
    {
        let Ok((name, queue, theirs)) = parts_of(alloc, name) else {
            return Err(io::Error::other("out of memory"));
        };
        start(rt, host, alloc, name, theirs)?;
        Ok(FileSink {
            host,
            queue,
            faults: 0,
        })
    }

    /// Why the file takes nothing.
    pub fn failure(&self) -> io::Error {
        match self.queue.failure() {
            Some(failure) => failure,
            None => io::Error::other("it takes nothing"),
        }
    }

    /// How often it has failed.
    pub fn faults(&self) -> u64
        ensures { result ≡ self.now.faults }
    {
        self.faults
    }

    /// Waits until the file is there and has all that was written, for a bounded time, and tells whether it has.
    pub fn settles(&self) -> bool {
        self.queue.settle(&self.host)
    }

    /// Lets the file go, whatever it has taken.
    pub fn leave(self) {
        self.queue.close();
    }

    /// Waits until the file has all that was written, as long as it goes on taking, and closes it. How often the sink has failed
    /// is told, and whether the file has all. Where it has not, a fault is counted, if none was.
    pub fn close(self) -> (u64, Result<(), Failed>)
        ensures later { self.faults ≤ result.0 }
        ensures cause { OnErr result.1 (0 < result.0) }
    {
        self.queue.close();
        if self.queue.finish(&self.host) {
            (self.faults, Ok(()))
        } else {
            (self.faults.max(1), Err(Failed))
        }
    }
}

impl Sink for FileSink {
    ghost written = { λ s. None };

    ghost faults = { λ s. s.faults };

    fn write(&mut self, piece: &[u8]) -> Result<usize, Failed> {
        let count = self.queue.put(&self.host, piece);
        if count == 0 {
            self.faults = self.faults.saturating_add(1);
            return Err(Failed);
        }
        Ok(count)
    }
}
