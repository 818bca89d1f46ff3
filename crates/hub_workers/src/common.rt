//! What the workers of a run share.
ghost use Rattle.std.specs.Prelude.{◌≡◌, ◌≢◌, false};
ghost use Rattle.gateway_hub.specs.Take.{is_full_reason};
ghost use Rattle.hub_queues.specs.declared.ending.StopWhy.TheVariants as stops;

use gateway_claim::{Core, UpWhy};
use gateway_hub::{Ending, Hub, HubFault, Recorder, StopWhy};
use std::alloc::Global;
use std::sync::{Mutex, Wait};
use text_pool::TextPool;
use worker_signals::Signals;

/// What the workers of a run share: the hub under its lock, what they tell each other, and the texts that are done with.
/// It holds references alone, so that each worker has one of its own.
#[derive(Drop)]
pub struct Common<'a, M: Core, R: Recorder, W: Wait> {
    /// What threads and waiting go by.
    pub rt: &'a W,
    /// Where memory comes from.
    pub alloc: Global,
    /// The hub.
    pub hub: &'a Mutex<Hub<M, R>>,
    /// What workers tell each other.
    pub signals: &'a Signals,
    /// The texts that writers are done with, in whose memory those of the server's items are made.
    pub spent: &'a Mutex<TextPool>,
}

impl<'a, M: Core, R: Recorder, W: Wait> Common<'a, M, R, W> {
    /// Stops the hub, unless an ending was kept, and wakes all workers.
    pub fn stop(&self, why: StopWhy)
        requires spent { why ≢ stops.Spent }
        requires record_fault { why ≢ stops.Record }
    {
        self.hub.lock(self.rt).stop(why);
        self.tell_over();
    }

    /// Wakes all workers, since links may be over.
    pub fn tell_over(&self) {
        self.signals.ring_all();
    }

    /// Has it noted that the server's connection ended, unless an ending was kept, and wakes all workers.
    pub fn end_server(&self, why: UpWhy)
        requires { is_full_reason why ≡ false }
    {
        let mut hub = self.hub.lock(self.rt);
        if let Err(HubFault::Memory) = hub.shut_up(self.alloc, self.rt, why) {
            hub.stop(StopWhy::Memory);
        }
        drop(hub);
        self.tell_over();
    }

    /// Why no more events are taken, where an ending was kept.
    pub fn ending(&self) -> Option<Ending> {
        self.hub.lock(self.rt).ending()
    }

    /// Whether the connection with this number is alive and no ending was kept; for the server's, whether none was kept.
    pub fn is_open(&self, conn: Option<u32>) -> bool {
        let hub = self.hub.lock(self.rt);
        match conn {
            Some(conn) => hub.is_open(conn),
            None => hub.ending().is_none(),
        }
    }

    /// How many parcels more the port of this connection takes.
    pub fn room_of(&self, conn: u32) -> usize {
        self.hub.lock(self.rt).room(self.rt, conn)
    }
}
