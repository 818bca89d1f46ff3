//! The core, the recorder and the desk of a hub, and how one event is taken.
ghost use Rattle.std.specs.Prelude.{◌≡◌, ◌≤◌, ℕ, false, List, Option, None, IfOk, IfErr, IfSome, OnOk};
ghost use Rattle.gateway_claim.specs.Happenings.{HistoryEntry, happening_of};
ghost use Rattle.gateway_claim.specs.Cores.{IsTimely, IsOwnKey};
ghost use Rattle.gateway_hub.specs.Endings.{ShowsFault};
ghost use Rattle.gateway_hub.specs.Ends.{KeepsEnds, PutsFor};
ghost use Rattle.gateway_hub.specs.Keeps.{StandsIdle};
ghost use Rattle.gateway_hub.specs.Take.{TakesOneEvent, IsUntaken, SettlesOwed, TakesHubEvent, stop_of};

use crate::desk::{Delivery, Desk};
use crate::note::{asker_of, is_heard, note};
use crate::{NoteFault, Recorder, StopWhy};
use gate_bytes::Memory;
use gateway_claim::{ConnectionKey, Core, Event, UpWhy};
use std::alloc::Global;
use std::sync::Wait;

/// The core, the recorder and the desk of a hub.
#[derive(Drop)]
pub struct HubState<M: Core, R: Recorder> {
    /// The core.
    pub core: M,
    /// The recorder.
    pub recorder: R,
    /// All else.
    pub desk: Desk,
    /// The connection for which bytes were put last as an item of the server was taken, where that was not told since.
    pub last: Option<u32>,
    /// Whether a connection was closed since it was too slow, where that was not told since.
    pub closed: bool,
}

/// An event that was not taken, and why.
#[derive(Drop)]
pub struct RefusedEvent {
    /// The event.
    pub event: Event,
    /// Why.
    pub fault: NoteFault,
}

/// Why a hub is stopped when an event can't be noted.
pub fn stop_of(fault: NoteFault) -> StopWhy
    ensures { result ≡ stop_of fault }
{
    match fault {
        NoteFault::Failed => StopWhy::Record,
        NoteFault::Memory => StopWhy::Memory,
    }
}

/// What an event will do: by the key of its connection, where that is known.
fn plan_of<M: Core>(
    core: &M,
    alloc: Global,
    event: &Event,
    key: Option<ConnectionKey>,
) -> Result<M::Plan, Memory>
    requires { IfSome key (IsOwnKey (M.has_key core.now) event.now) }
    ensures { IfOk result (M.planned core.now event.now) }
{
    match key {
        Some(key) => core.plan_at(alloc, event, key),
        None => core.plan(alloc, event),
    }
}

impl<M: Core, R: Recorder> HubState<M, R> {
    /// Takes one event: it is planned, noted and committed, and what it hands out is put, first to the client and then to
    /// the server. Tells for whom bytes were put, and whose ports were full. Where memory was wanting, or the note failed, nothing was taken.
    /// It asks that the event is no item of a client whose connection is busy. A key is that of the event's connection in the
    /// core; without one the core searches for it.
    pub fn take_one<W: Wait>(
        &mut self,
        alloc: Global,
        rt: &W,
        event: Event,
        key: Option<ConnectionKey>,
    ) -> Result<Delivery, RefusedEvent>
        requires key { IfSome key (IsOwnKey (M.has_key self.old.core) event) }
        requires timely { (T : List HistoryEntry) → M.stands self.old.core T
            → IsTimely (M.is_busy (M.bases self.old.core)) T (happening_of event) }
        ensures ok { IfOk result (λ delivery.
            TakesOneEvent (happening_of event) delivery (StandsIdle M.stands M.waits M.bases self.old.core)
            (StandsIdle M.stands M.waits M.bases self.new.core) (R.entries self.old.recorder)
            (R.entries self.new.recorder) self.old.desk self.new.desk) }
        ensures err { IfErr result (λ refused.
            (refused.event ≡ event)
            × IsUntaken refused.fault (StandsIdle M.stands M.waits M.bases self.old.core)
            (StandsIdle M.stands M.waits M.bases self.new.core) (R.entries self.old.recorder)
            (R.entries self.new.recorder) (R.faults self.old.recorder) (R.faults self.new.recorder)
            self.old.desk self.new.desk) }
        ensures ends { KeepsEnds self.old.desk self.new.desk }
        ensures puts { IfOk result (λ delivery.
            PutsFor delivery.landed self.old.desk.places.items self.new.desk.places.items) }
        ensures last { self.new.last ≡ self.old.last }
        ensures bases { M.bases self.new.core ≡ M.bases self.old.core }
        ensures later { R.faults self.old.recorder ≤ R.faults self.new.recorder }
        ensures shown { ShowsFault self.old.desk.ending self.new.desk.ending (R.faults self.old.recorder)
            (R.faults self.new.recorder) }
    {
        let plan = match plan_of(&self.core, alloc, &event, key) {
            Ok(plan) => plan,
            Err(Memory) => {
                let fault = NoteFault::Memory;
                return Err(RefusedEvent { event, fault });
            }
        };
        match note(&mut self.recorder, &event) {
            Ok(()) => {}
            Err(fault) => return Err(RefusedEvent { event, fault }),
        }
        let asker = asker_of(&event);
        let heard = is_heard(&event);
        let outcome = self.core.commit(event, plan);
        Ok(self.desk.take_outcome(rt, asker, heard, outcome))
    }

    /// Ends the connection to the server since its port was full, where it was. Where that can't be noted, the hub is
    /// stopped. Tells for whom bytes were put.
    fn end_if_full<W: Wait>(&mut self, alloc: Global, rt: &W, full: bool) -> Option<u32>
        ensures settles { (client : Option ℕ)
            → SettlesOwed client full client false (StandsIdle M.stands M.waits M.bases self.old.core)
            (StandsIdle M.stands M.waits M.bases self.new.core) (R.entries self.old.recorder)
            (R.entries self.new.recorder) (R.faults self.old.recorder) (R.faults self.new.recorder)
            self.old.desk self.new.desk }
        ensures ends { KeepsEnds self.old.desk self.new.desk }
        ensures puts { PutsFor result self.old.desk.places.items self.new.desk.places.items }
        ensures last { self.new.last ≡ self.old.last }
        ensures bases { M.bases self.new.core ≡ M.bases self.old.core }
        ensures later { R.faults self.old.recorder ≤ R.faults self.new.recorder }
        ensures shown { ShowsFault self.old.desk.ending self.new.desk.ending (R.faults self.old.recorder)
            (R.faults self.new.recorder) }
    {
        if !full {
            return None;
        }
        match self.take_one(alloc, rt, Event::UpEnd(UpWhy::UpFull), None) {
            Ok(delivery) => delivery.landed,
            Err(refused) => {
                self.desk.stop(stop_of(refused.fault));
                None
            }
        }
    }

    /// Finds the client too slow whose port was full, where one was, unless the hub was stopped. Where that can't be noted,
    /// the hub is stopped, or why is kept with the end of the connection to the server. Tells for whom bytes were put.
    fn lag_if_full<W: Wait>(&mut self, alloc: Global, rt: &W, client: Option<u32>) -> Option<u32>
        ensures settles { SettlesOwed client false None false
            (StandsIdle M.stands M.waits M.bases self.old.core)
            (StandsIdle M.stands M.waits M.bases self.new.core) (R.entries self.old.recorder)
            (R.entries self.new.recorder) (R.faults self.old.recorder) (R.faults self.new.recorder)
            self.old.desk self.new.desk }
        ensures ends { KeepsEnds self.old.desk self.new.desk }
        ensures puts { PutsFor result self.old.desk.places.items self.new.desk.places.items }
        ensures last { self.new.last ≡ self.old.last }
        ensures bases { M.bases self.new.core ≡ M.bases self.old.core }
        ensures later { R.faults self.old.recorder ≤ R.faults self.new.recorder }
        ensures shown { ShowsFault self.old.desk.ending self.new.desk.ending (R.faults self.old.recorder)
            (R.faults self.new.recorder) }
    {
        let Some(conn) = client else { return None };
        if self.desk.is_stopped() {
            return None;
        }
        match self.take_one(alloc, rt, Event::Slow(conn), None) {
            Ok(delivery) => {
                self.closed = true;
                let later = self.end_if_full(alloc, rt, delivery.server);
                later.or(delivery.landed)
            }
            Err(refused) => {
                self.desk.leave_out(refused.fault);
                self.desk.stop(stop_of(refused.fault));
                None
            }
        }
    }

    /// Takes one event, and then those that full ports ask for: the end of the connection to the server, and the client
    /// that is too slow. Tells for whom bytes were put last. Where the event itself can't be planned or noted, nothing is
    /// taken. It asks that the event is no item of a client whose connection is busy. A key is that of the event's connection
    /// in the core.
    pub fn take_event<W: Wait>(
        &mut self,
        alloc: Global,
        rt: &W,
        event: Event,
        key: Option<ConnectionKey>,
    ) -> Result<Option<u32>, RefusedEvent>
        requires key { IfSome key (IsOwnKey (M.has_key self.old.core) event) }
        requires timely { (T : List HistoryEntry) → M.stands self.old.core T
            → IsTimely (M.is_busy (M.bases self.old.core)) T (happening_of event) }
        ensures ok { OnOk result
            (TakesHubEvent (happening_of event) (StandsIdle M.stands M.waits M.bases self.old.core)
            (StandsIdle M.stands M.waits M.bases self.new.core) (R.entries self.old.recorder)
            (R.entries self.new.recorder) (R.faults self.old.recorder) (R.faults self.new.recorder)
            self.old.desk self.new.desk) }
        ensures err { IfErr result (λ refused.
            (refused.event ≡ event)
            × IsUntaken refused.fault (StandsIdle M.stands M.waits M.bases self.old.core)
            (StandsIdle M.stands M.waits M.bases self.new.core) (R.entries self.old.recorder)
            (R.entries self.new.recorder) (R.faults self.old.recorder) (R.faults self.new.recorder)
            self.old.desk self.new.desk) }
        ensures ends { KeepsEnds self.old.desk self.new.desk }
        ensures puts { IfOk result (λ landed.
            PutsFor landed self.old.desk.places.items self.new.desk.places.items) }
        ensures last { self.new.last ≡ self.old.last }
        ensures bases { M.bases self.new.core ≡ M.bases self.old.core }
        ensures later { R.faults self.old.recorder ≤ R.faults self.new.recorder }
        ensures shown { ShowsFault self.old.desk.ending self.new.desk.ending (R.faults self.old.recorder)
            (R.faults self.new.recorder) }
    {
        let delivery = self.take_one(alloc, rt, event, key)?;
        let next = self.end_if_full(alloc, rt, delivery.server);
        let last = self.lag_if_full(alloc, rt, delivery.client);
        let earlier = next.or(delivery.landed);
        Ok(last.or(earlier))
    }
}
