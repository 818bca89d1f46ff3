//! Where a writer is handed to the thread that runs it.
ghost use Rattle.std.specs.Prelude.{◌≡◌, IfErr};

use crate::place::{Found, WriterSlot};
use crate::{Gather, Writer};
use client_ports::Bell;
use gate_outside::Outlet;
use std::sync::atomic::{AtomicU64, Ordering};
use std::sync::{Mutex, Wait};
use std::time::{Clock, Duration};
use text_pool::TextPool;

/// How a connection with this number is named where 0 is none.
fn name_of(conn: Option<u32>) -> u64 {
    match conn {
        Some(conn) => u64::from(conn) + 1,
        None => 0,
    }
}

/// Where a reader hands its writer to the thread that runs it, and gets it back.
///
/// While nothing is left to be written, the thread leaves the writer here. Then whoever put parcels into its port may
/// [`serve`](WriterDesk::serve) it at once: that spares to wake the thread, and what was put is still in this processor's cache.
///
/// A writer is there or with the thread from [`hand`](WriterDesk::hand) to [`collect`](WriterDesk::collect). Nothing is promised of when
/// a thread goes on.
#[derive(Drop)]
pub struct WriterDesk<O: Outlet> {
    slot: Mutex<WriterSlot<Writer<O>>>,
    bell: Bell,
    moves: AtomicU64,
    /// The number of the connection whose writer was handed last, and 1 more; or 0.
    conn: AtomicU64,
}

impl<O: Outlet + Drop> WriterDesk<O> {
    /// A desk with no writer, which takes one. It takes no memory.
    pub fn new() -> WriterDesk<O> {
        WriterDesk {
            slot: Mutex::new(WriterSlot::new()),
            bell: Bell::new(),
            moves: AtomicU64::new(0),
            conn: AtomicU64::new(0),
        }
    }

    /// Counts that a writer has written something.
    pub fn tell_move(&self) {
        self.moves.fetch_add(1, Ordering::Relaxed);
    }

    /// How often that was told. So a reader that waits for its writer sees whether it gets on.
    pub fn moves(&self) -> u64 {
        self.moves.load(Ordering::Relaxed)
    }

    /// Hands a writer to the thread, and wakes it. Where there is a writer already, or the desk is closed, it is given back.
    pub fn hand<R: Wait>(&self, rt: &R, writer: Writer<O>) -> Result<(), Writer<O>>
        ensures { IfErr result (λ back. back ≡ writer) }
    {
        self.conn.store(name_of(writer.conn()), Ordering::Relaxed);
        let left = self.slot.lock(rt).hand(writer);
        self.bell.ring();
        left
    }

    /// Whether the writer that was handed last is that of this connection.
    pub fn is_for(&self, conn: u32) -> bool {
        self.conn.load(Ordering::Relaxed) == name_of(Some(conn))
    }

    /// Leaves the writer here while its thread waits until there is something to write. The thread takes it again by
    /// [`take`](WriterDesk::take).
    pub fn rest<R: Wait>(&self, rt: &R, writer: Writer<O>) {
        self.slot.lock(rt).rest(writer);
    }

    /// Has the writer of this connection write all that is there, where its thread left it here and its outlet takes all at
    /// once; by way of this buffer, which stays in this processor's cache. Where not all was written its thread is to be woken.
    /// Texts that are done with go to the pool.
    pub fn serve<R: Wait>(
        &self,
        rt: &R,
        conn: u32,
        spent: &mut TextPool,
        buffer: &mut Gather,
    ) -> bool {
        let mut slot = self.slot.lock(rt);
        let Found::Writer(writer) = slot.take() else {
            return false;
        };
        let mut writer = writer;
        let is_done = writer.conn() == Some(conn) && writer.write_at_once(rt, spent, buffer);
        self.tell_move();
        slot.rest(writer);
        is_done
    }

    /// Looks once for a writer that waits for the thread.
    fn look<R: Wait>(&self, rt: &R) -> Found<Writer<O>> {
        self.slot.lock(rt).take()
    }

    /// Pauses until a writer is handed to the thread; there is none once the desk is closed.
    pub fn take<R: Wait>(&self, rt: &R) -> Option<Writer<O>> {
        for _ in rt.forever() {
            let seen = self.bell.rings();
            match self.look(rt) {
                Found::Writer(writer) => return Some(writer),
                Found::Closed => return None,
                Found::NotYet => {
                    self.bell.pause(rt, seen);
                }
            }
        }
        unreachable!()
    }

    /// Gives the writer back to its reader, and wakes it, also where the desk is closed.
    pub fn give_back<R: Wait>(&self, rt: &R, writer: Writer<O>) {
        self.slot.lock(rt).give_back(writer);
        self.bell.ring();
    }

    /// Whether the writer has come back and waits for its reader.
    pub fn is_back<R: Wait>(&self, rt: &R) -> bool {
        self.slot.lock(rt).is_back()
    }

    /// Looks once for a writer that has come back.
    fn look_back<R: Wait>(&self, rt: &R) -> Option<Writer<O>> {
        self.slot.lock(rt).collect()
    }

    /// Pauses until the writer has come back, and takes it, so that another may be handed.
    pub fn collect<R: Wait>(&self, rt: &R) -> Writer<O> {
        for _ in rt.forever() {
            let seen = self.bell.rings();
            if let Some(writer) = self.look_back(rt) {
                return writer;
            }
            self.bell.pause(rt, seen);
        }
        unreachable!()
    }

    /// Pauses until the writer has come back, and takes it, but no longer than this.
    pub fn collect_within<R: Wait + Clock>(&self, rt: &R, most: Duration) -> Option<Writer<O>> {
        let seen = self.bell.rings();
        if let Some(writer) = self.look_back(rt) {
            return Some(writer);
        }
        self.bell.pause_within(rt, seen, most);
        self.look_back(rt)
    }

    /// Closes the desk: no writer is handed any more. One that waits or is with the thread is finished first.
    pub fn close<R: Wait>(&self, rt: &R) {
        self.slot.lock(rt).close();
        self.bell.ring();
    }
}
