//! The calls of a hub that take events.
ghost use Rattle.std.specs.Prelude.{◌≡◌, ◌≤◌, false};
ghost use Rattle.gateway_hub.specs.Calls.{TakesFirst, TakesFirstUp, Shuts, ShutsUp};
ghost use Rattle.gateway_hub.specs.Endings.{ShowsFault};
ghost use Rattle.gateway_hub.specs.Ends.{KeepsEnds};
ghost use Rattle.gateway_hub.specs.Keeps.{Keeps, StandsIdle};
ghost use Rattle.hub_queues.specs.Places.{line_at};
ghost use Rattle.gateway_hub.specs.Rooms.{RemembersLast};
ghost use Rattle.gateway_hub.specs.Take.{is_full_reason};

use crate::state::HubState;
use crate::{HubFault, Recorder, Taken};
use gateway_claim::{Core, Event, Standing, UpWhy};
use hub_queues::{is_seated, next_of};
use std::alloc::Global;
use std::sync::Wait;

impl<M: Core, R: Recorder> HubState<M, R> {
    /// Takes the first item in line of a connection, as an event.
    pub fn take<W: Wait>(&mut self, alloc: Global, rt: &W, conn: u32) -> Result<Taken, HubFault>
        ensures takes { TakesFirst conn (M.is_busy (M.bases self.old.core) conn) result
            (Keeps (StandsIdle M.stands M.waits M.bases self.old.core) (R.entries self.old.recorder)
            (R.faults self.old.recorder) self.old.desk)
            (Keeps (StandsIdle M.stands M.waits M.bases self.new.core) (R.entries self.new.recorder)
            (R.faults self.new.recorder) self.new.desk)
            self.old.desk self.new.desk }
        ensures ends { KeepsEnds self.old.desk self.new.desk }
        ensures last { self.new.last ≡ self.old.last }
        ensures bases { M.bases self.new.core ≡ M.bases self.old.core }
        ensures later { R.faults self.old.recorder ≤ R.faults self.new.recorder }
        ensures shown { ShowsFault self.old.desk.ending self.new.desk.ending (R.faults self.old.recorder)
            (R.faults self.new.recorder) }
    {
        if let Some(ending) = self.desk.ending {
            return Err(HubFault::from(ending));
        }
        let key = match self.core.standing(conn) {
            Standing::Closed => return Ok(Taken::Closed),
            Standing::Busy => return Ok(Taken::Busy),
            Standing::Ready(key) => key,
        };
        let Some(item) = next_of(&mut self.desk.places, rt, conn) else {
            return Ok(Taken::Empty);
        };
        match self.take_event(alloc, rt, Event::Client(conn, item), Some(key)) {
            Ok(_) => Ok(Taken::Done),
            Err(refused) => {
                self.desk.give_back(refused.event);
                Err(self.desk.fault_of(refused.fault))
            }
        }
    }

    /// Takes the first item in line of the server, as an event, and tells whether there was one. The connection for which
    /// bytes were put then is kept as the last one.
    pub fn take_up<W: Wait>(&mut self, alloc: Global, rt: &W) -> Result<bool, HubFault>
        ensures takes { TakesFirstUp result
            (Keeps (StandsIdle M.stands M.waits M.bases self.old.core) (R.entries self.old.recorder)
            (R.faults self.old.recorder) self.old.desk)
            (Keeps (StandsIdle M.stands M.waits M.bases self.new.core) (R.entries self.new.recorder)
            (R.faults self.new.recorder) self.new.desk)
            self.old.desk self.new.desk }
        ensures ends { KeepsEnds self.old.desk self.new.desk }
        ensures last { RemembersLast result self.old.last self.new.last self.old.desk.places.items
            self.new.desk.places.items }
        ensures bases { M.bases self.new.core ≡ M.bases self.old.core }
        ensures later { R.faults self.old.recorder ≤ R.faults self.new.recorder }
        ensures shown { ShowsFault self.old.desk.ending self.new.desk.ending (R.faults self.old.recorder)
            (R.faults self.new.recorder) }
    {
        if let Some(ending) = self.desk.ending {
            return Err(HubFault::from(ending));
        }
        let Some(item) = self.desk.server.next(rt) else {
            return Ok(false);
        };
        match self.take_event(alloc, rt, Event::Up(item), None) {
            Ok(landed) => {
                self.last = landed.or(self.last);
                Ok(true)
            }
            Err(refused) => {
                self.desk.give_back(refused.event);
                Err(self.desk.fault_of(refused.fault))
            }
        }
    }

    /// A connection ended. Where its number was never given, or is retired, nothing happens.
    pub fn shut<W: Wait>(&mut self, alloc: Global, rt: &W, conn: u32) -> Result<(), HubFault>
        ensures shuts { Shuts conn (line_at self.old.desk.places.items conn) result
            (Keeps (StandsIdle M.stands M.waits M.bases self.old.core) (R.entries self.old.recorder)
            (R.faults self.old.recorder) self.old.desk)
            (Keeps (StandsIdle M.stands M.waits M.bases self.new.core) (R.entries self.new.recorder)
            (R.faults self.new.recorder) self.new.desk)
            self.old.desk self.new.desk }
        ensures ends { KeepsEnds self.old.desk self.new.desk }
        ensures last { self.new.last ≡ self.old.last }
        ensures bases { M.bases self.new.core ≡ M.bases self.old.core }
        ensures later { R.faults self.old.recorder ≤ R.faults self.new.recorder }
        ensures shown { ShowsFault self.old.desk.ending self.new.desk.ending (R.faults self.old.recorder)
            (R.faults self.new.recorder) }
    {
        if let Some(ending) = self.desk.ending {
            return Err(HubFault::from(ending));
        }
        if !is_seated(&self.desk.places, conn) {
            return Ok(());
        }
        match self.take_event(alloc, rt, Event::End(conn), None) {
            Ok(_) => Ok(()),
            Err(refused) => Err(self.desk.fault_of(refused.fault)),
        }
    }

    /// The connection to the server ended, for another reason than that it was too slow.
    pub fn shut_up<W: Wait>(&mut self, alloc: Global, rt: &W, why: UpWhy) -> Result<(), HubFault>
        requires { is_full_reason why ≡ false }
        ensures shuts { ShutsUp why result
            (Keeps (StandsIdle M.stands M.waits M.bases self.old.core) (R.entries self.old.recorder)
            (R.faults self.old.recorder) self.old.desk)
            (Keeps (StandsIdle M.stands M.waits M.bases self.new.core) (R.entries self.new.recorder)
            (R.faults self.new.recorder) self.new.desk)
            self.old.desk self.new.desk }
        ensures ends { KeepsEnds self.old.desk self.new.desk }
        ensures last { self.new.last ≡ self.old.last }
        ensures bases { M.bases self.new.core ≡ M.bases self.old.core }
        ensures later { R.faults self.old.recorder ≤ R.faults self.new.recorder }
        ensures shown { ShowsFault self.old.desk.ending self.new.desk.ending (R.faults self.old.recorder)
            (R.faults self.new.recorder) }
    {
        if let Some(ending) = self.desk.ending {
            return Err(HubFault::from(ending));
        }
        match self.take_event(alloc, rt, Event::UpEnd(why), None) {
            Ok(_) => Ok(()),
            Err(refused) => Err(self.desk.fault_of(refused.fault)),
        }
    }
}
