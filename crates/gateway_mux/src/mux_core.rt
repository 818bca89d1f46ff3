//! The multiplexer as a core.

use crate::mux::{Mux, Plan};
use gate_bytes::Memory;
use gateway_claim::{Bases, ConnectionKey, Core, Event, Outcome, Standing, UpCause};
use std::alloc::Global;

impl Core for Mux {
    ghost use Rattle.gateway_claim.specs.Follows.{Follows};
    ghost use Rattle.gateway_claim.specs.Tells.{is_busy, requests_waiting, dropped_frames};
    ghost use Rattle.gateway_mux.specs.Stands.{Stands, IsPlanFor, HasKey, bases_of, is_prepared};
    ghost use Rattle.gateway_mux.specs.CoreLaws.{stands_for_history, one_follows, follows_in_order, waits_for_nothing, treats_at_once};

    type Plan = Plan;

    ghost bases = { bases_of };

    ghost stands = { Stands };

    ghost follows = { Follows };

    ghost planned = { IsPlanFor };

    ghost has_key = { HasKey };

    ghost is_busy = { is_busy };

    ghost waits = { requests_waiting };

    ghost dropped = { dropped_frames };

    ghost is_prepared = { is_prepared };

    fn prepare(&mut self, alloc: Global) -> Result<(), Memory> {
        Mux::prepare(self, alloc)
    }

    fn enter(&mut self, alloc: Global, conn: u32) -> Result<(), Memory> {
        Mux::enter(self, alloc, conn)
    }

    fn plan(&self, alloc: Global, event: &Event) -> Result<Plan, Memory> {
        Mux::plan(self, alloc, event)
    }

    fn plan_at(&self, alloc: Global, event: &Event, key: ConnectionKey) -> Result<Plan, Memory> {
        Mux::plan_at(self, alloc, event, key)
    }

    fn commit(&mut self, event: Event, plan: Plan) -> Outcome {
        Mux::commit(self, event, plan)
    }

    fn step(&mut self, alloc: Global, event: Event) -> Result<Outcome, (Event, Memory)> {
        Mux::step(self, alloc, event)
    }

    fn standing(&self, conn: u32) -> Standing {
        Mux::standing(self, conn)
    }

    fn busy(&self, conn: u32) -> bool {
        Mux::busy(self, conn)
    }

    fn waiting(&self, conn: u32) -> usize {
        Mux::waiting(self, conn)
    }

    fn alive(&self, conn: u32) -> bool {
        Mux::alive(self, conn)
    }

    fn dropped(&self) -> u64 {
        Mux::dropped(self)
    }

    fn ended(&self) -> Option<UpCause> {
        Mux::ended(self)
    }

    fn bases(&self) -> &Bases {
        Mux::bases(self)
    }

    ghost history = { stands_for_history };

    ghost one_next = { one_follows };

    ghost orderly = { follows_in_order };

    ghost none_waits = { waits_for_nothing };

    ghost none_waits_next = { treats_at_once };
}
