//! A core that is watched: the records of what each event hands out are written before the next event.
ghost use Rattle.std.specs.Prelude.{◌≡◌, [], OnOk, OnErr};
ghost use Rattle.gateway_claim.specs.Happenings.{happening_of};
ghost use Rattle.gateway_claim.specs.Cores.{IsCoreHistory, IsNewTo};
ghost use Rattle.gateway_replay.specs.Runs.{TakesEvent, SinkCause};
ghost use Rattle.gateway_replay.specs.CoreRecords.{Watches, Advances, EntersAs};

use crate::alive::Living;
use crate::outcomes::write_outcome;
use gate_bytes::{Memory, Text};
use gate_outside::{Failed, Sink};
use gateway_claim::{Core, Event, Outcome};
use std::alloc::Global;

/// Why an event was not processed whole.
#[derive(Clone, Copy, Debug, PartialEq, Eq)]
pub enum ProcessFault {
    /// The sink failed.
    Sink,
    /// Memory ran out.
    Memory,
}

impl From<Memory> for ProcessFault {
    ghost use Rattle.std.specs.Prelude.{◌≡◌};
    ghost use Rattle.gateway_replay.specs.declared.core_records.ProcessFault.TheVariants as fault;

    ghost from_gives = { λ _ e. e ≡ fault.Memory };

    fn from(_: Memory) -> ProcessFault {
        ProcessFault::Memory
    }
}

/// A core, and the connections that are alive in it: no call of a core lists them.
#[derive(Drop)]
pub struct Watched<M: Core> {
    pub core: M,
    pub living: Living,
}

impl<M: Core> Watched<M> {
    /// A core to which nothing happened. It takes no memory.
    pub fn new(alloc: Global, core: M) -> Watched<M>
        ensures { M.stands core [] → Watches M.stands M.bases result.core result.living (M.bases core) [] }
    {
        Watched {
            core,
            living: Living::new(alloc),
        }
    }

    /// A connection enters, under a number that never entered.
    pub fn enter(&mut self, alloc: Global, conn: u32) -> Result<(), Memory>
        requires { IsNewTo (M.stands self.old.core) conn }
        ensures ok { OnOk result
            (EntersAs (Watches M.stands M.bases self.old.core self.old.living)
            (Watches M.stands M.bases self.new.core self.new.living) conn) }
        ensures err { OnErr result
            (Advances (Watches M.stands M.bases self.old.core self.old.living) (IsCoreHistory M.follows) []) }
    {
        if self.core.ended().is_some() {
            return self.core.enter(alloc, conn);
        }
        self.living.add(conn)?;
        self.core.enter(alloc, conn)
    }

    /// Takes one event, and writes its records. The text that was handed to a client is done with then, and takes the place
    /// of the spare one.
    pub fn take<K: Sink>(
        &mut self,
        alloc: Global,
        sink: &mut K,
        event: Event,
        spare: &mut Text,
    ) -> Result<(), ProcessFault>
        ensures takes { TakesEvent (IsCoreHistory M.follows)
            (Watches M.stands M.bases self.old.core self.old.living)
            (Watches M.stands M.bases self.new.core self.new.living) (happening_of event) (K.written sink.old)
            (K.written sink.new) result }
        ensures cause { SinkCause (K.faults sink.old) (K.faults sink.new) result }
    {
        let outcome = match self.core.step(alloc, event) {
            Ok(outcome) => outcome,
            Err((_, Memory)) => return Err(ProcessFault::Memory),
        };
        match write_outcome(sink, &mut self.living, &outcome) {
            Ok(()) => {
                spare_text(outcome, spare);
                Ok(())
            }
            Err(Failed) => Err(ProcessFault::Sink),
        }
    }
}

/// What was handed to a client takes the place of the spare text.
fn spare_text(outcome: Outcome, spare: &mut Text) {
    let Outcome { to_client, .. } = outcome;
    if let Some(piece) = to_client {
        *spare = piece.bytes;
    }
}
