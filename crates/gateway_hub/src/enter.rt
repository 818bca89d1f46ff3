//! How a hub begins, and how a connection enters.
ghost use Rattle.std.specs.Prelude.{◌≡◌, ◌≤◌, [], None, length};
ghost use Rattle.gateway_hub.specs.Endings.{ShowsFault};
ghost use Rattle.gateway_hub.specs.Ends.{KeepsOtherEnds};
ghost use Rattle.gateway_hub.specs.Enter.{Enters};
ghost use Rattle.gateway_hub.specs.Keeps.{Keeps, KeepsSome, StandsIdle};

use crate::desk::Desk;
use crate::state::HubState;
use crate::{
    Entered, HubFault, INWARD_CAPACITY, MOST_CONNECTIONS, OUTWARD_CAPACITY, Recorder, Seat, StopWhy,
};
use client_ports::{Putter, Taker, port};
use gate_transcript::EntryKind;
use gateway_claim::Core;
use hub_queues::{HubConnection, Place, Server};
use std::alloc::Global;

/// A desk at which nothing happened, with the hub's ends of the server's two ports.
pub fn fresh_desk(alloc: Global, inward: Taker, outward: Putter) -> Desk
    ensures server { result.server ≡ record { inward = inward; outward = outward; first = None } }
    ensures places { result.places.items ≡ [] }
    ensures fall { result.fall ≡ None }
    ensures ending { result.ending ≡ None }
{
    Desk {
        server: Server {
            inward,
            outward,
            first: None,
        },
        places: Vec::new(alloc),
        fall: None,
        ending: None,
    }
}

impl<M: Core, R: Recorder> HubState<M, R> {
    /// A connection enters: its ports are made, the core is prepared, the entering is noted, and then it enters. Its number
    /// is that of the connections before it.
    pub fn enter(&mut self, alloc: Global) -> Result<Entered, HubFault>
        requires { ∥ KeepsSome (StandsIdle M.stands M.waits M.bases self.old.core)
            (R.entries self.old.recorder) (R.faults self.old.recorder) self.old.desk ∥₁ }
        ensures enters { Enters result
            (Keeps (StandsIdle M.stands M.waits M.bases self.old.core) (R.entries self.old.recorder)
            (R.faults self.old.recorder) self.old.desk)
            (Keeps (StandsIdle M.stands M.waits M.bases self.new.core) (R.entries self.new.recorder)
            (R.faults self.new.recorder) self.new.desk)
            self.old.desk self.new.desk }
        ensures ends { KeepsOtherEnds (length self.old.desk.places.items) self.old.desk self.new.desk }
        ensures last { self.new.last ≡ self.old.last }
        ensures bases { M.bases self.new.core ≡ M.bases self.old.core }
        ensures later { R.faults self.old.recorder ≤ R.faults self.new.recorder }
        ensures shown { ShowsFault self.old.desk.ending self.new.desk.ending (R.faults self.old.recorder)
            (R.faults self.new.recorder) }
    {
        if let Some(ending) = self.desk.ending {
            return Err(HubFault::from(ending));
        }
        if self.desk.places.len() >= MOST_CONNECTIONS {
            self.desk.stop(StopWhy::Spent);
            return Err(HubFault::Stopped(StopWhy::Spent));
        }
        let conn = self.desk.places.len() as u32;
        let (inward, items) = port(alloc, INWARD_CAPACITY)?;
        let (pieces, outward) = port(alloc, OUTWARD_CAPACITY)?;
        let Ok(line) = Box::new(alloc, HubConnection::new(items, pieces)) else {
            return Err(HubFault::Memory);
        };
        let Ok(()) = self.desk.places.reserve(1) else {
            return Err(HubFault::Memory);
        };
        self.core.prepare(alloc)?;
        match self.recorder.note(EntryKind::Enter, conn, &[]) {
            Ok(()) => {}
            Err(fault) => return Err(self.desk.fault_of(fault)),
        }
        match self.core.enter(alloc, conn) {
            Ok(()) => {}
            Err(_) => return Err(HubFault::Memory),
        }
        self.desk.places.push_reserved(Place::Seated(line));
        Ok(Entered {
            seat: Seat { conn },
            inward,
            outward,
        })
    }
}
