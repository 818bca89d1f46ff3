//! The multiplexer.
ghost use Rattle.std.specs.Prelude.{◌≡◌, true, false, is_some, IfOk, OnOk, IsOk, IsSome, IfErr, OnErr, [], List, ◌∷◌, ℕ, None};
ghost use Rattle.gateway_claim.specs.Cores.{IsOwnKey, TellsStanding, GivesKey, ever_entered};
ghost use Rattle.rtsp_head.specs.Shapes.{shape_of};
ghost use Rattle.rtsp_head.specs.declared.item.ItemKind.TheVariants.{Request};
ghost use Rattle.gateway_claim.specs.Happenings.{HistoryEntry, entry_of, entering, standing, is_alive, fault_in, happening_of, takes};
ghost use Rattle.gateway_claim.specs.Tells.{dropped_frames, IsFirstAlive, is_busy, requests_waiting, is_frame_item};

use crate::act::Act;
use crate::connections::Connections;
use crate::outcome::nothing;
use gate_bytes::Memory;
use gateway_claim::{Bases, ConnectionKey, Event, Outcome, Standing, UpCause};
use rtsp_head::{Item, ItemKind};
use std::alloc::Global;

/// What an event will do, as [`Mux::plan`] found it. All memory for it is taken, and [`Mux::commit`] carries it out; nobody
/// else looks into it.
#[derive(Drop)]
pub struct Plan {
    alloc: Global,
    act: Act,
}

/// All connections of a gateway, and its connection to the server. It stands for the history of what
/// happened to it.
#[derive(Drop)]
pub struct Mux {
    connections: Connections,
    ended: Option<UpCause>,
    dropped: u64,
}

impl Mux {
    ghost use Rattle.gateway_mux.specs.Free.{needs_memory};
    ghost use Rattle.gateway_mux.specs.Short.{IsShort};
    ghost use Rattle.gateway_mux.specs.Stands.{Stands, IsFresh, IsPlanFor, HasKey, bases_of, end_of, is_prepared, IsActFor};

    /// A gateway with these addresses, to which nothing happened. Where memory is wanting, the answer is [`Memory`].
    pub fn new(alloc: Global, bases: Bases) -> Result<Mux, Memory>
        ensures stands { IfOk result (λ mux. Stands mux []) }
        ensures bases { IfOk result (λ mux. bases_of mux ≡ bases) }
    {
        Ok(Mux {
            connections: Connections::new(alloc, bases),
            ended: None,
            dropped: 0,
        })
    }

    /// Takes the memory for one connection more, and for all that its events can need, so that it can
    /// enter. Nothing else changes. Where that was taken already, and after the end of the connection
    /// to the server, no memory is.
    pub fn prepare(&mut self, alloc: Global) -> Result<(), Memory>
        ensures stands { (T : List HistoryEntry) → Stands self.old T → Stands self.new T }
        ensures fresh { (conn : ℕ) → IsFresh self.old conn → IsFresh self.new conn }
        ensures prepared { OnOk result (is_prepared self.new ≡ true) }
        ensures free { is_prepared self.old ≡ true → IsOk result }
        ensures ended { end_of self.new ≡ end_of self.old }
        ensures bases { bases_of self.new ≡ bases_of self.old }
    {
        if self.ended.is_some() {
            return Ok(());
        }
        self.connections.prepare(alloc)
    }

    /// A connection enters, under a number that never entered. Where no memory was taken for it, that
    /// is taken first. After the end of the connection to the server it takes no part, and no memory is
    /// taken.
    pub fn enter(&mut self, alloc: Global, conn: u32) -> Result<(), Memory>
        requires { IsFresh self.old conn }
        ensures ok { OnOk result
            ((T : List HistoryEntry) → Stands self.old T
            → ever_entered conn T ≡ false
            → Stands self.new (entering conn ∷ T)) }
        ensures err { OnErr result ((T : List HistoryEntry) → Stands self.old T → Stands self.new T) }
        ensures free { IsSome (end_of self.old) → IsOk result }
        ensures prepared { is_prepared self.old ≡ true → IsOk result }
        ensures used { OnOk result (end_of self.old ≡ None → is_prepared self.new ≡ false) }
        ensures ended { end_of self.new ≡ end_of self.old }
        ensures bases { bases_of self.new ≡ bases_of self.old }
    {
        if self.ended.is_some() {
            return Ok(());
        }
        self.connections.prepare(alloc)?;
        self.connections.enter(conn);
        Ok(())
    }

    /// What an event will do. Nothing changes, and all memory for it is taken. Only a request of a
    /// client or a message of the server may need memory.
    #[inline(always)]
    pub fn plan(&self, alloc: Global, event: &Event) -> Result<Plan, Memory>
        ensures plan { IfOk result (IsPlanFor self.now event.now) }
        ensures free { needs_memory event.now ≡ false → IsOk result }
    {
        let act = self.act(alloc, event)?;
        Ok(Plan { alloc, act })
    }

    /// What an event will do, also after the end of the connection to the server.
    #[inline(always)]
    fn act(&self, alloc: Global, event: &Event) -> Result<Act, Memory>
        ensures act { IfOk result (IsActFor self.now.ended self.now event.now) }
        ensures free { needs_memory event.now ≡ false → IsOk result }
    {
        if self.ended.is_some() {
            return Ok(Act::Nothing);
        }
        self.connections.plan(alloc, event)
    }

    /// What an event of a connection will do, as [`plan`](Mux::plan) tells it, by the key that
    /// [`standing`](Mux::standing) gave with the connection: its number is not searched for.
    #[inline(always)]
    pub fn plan_at(&self, alloc: Global, event: &Event, key: ConnectionKey) -> Result<Plan, Memory>
        requires { IsOwnKey (HasKey self.now) event.now key }
        ensures plan { IfOk result (IsPlanFor self.now event.now) }
        ensures free { needs_memory event.now ≡ false → IsOk result }
    {
        if self.ended.is_some() {
            return Ok(Plan {
                alloc,
                act: Act::Nothing,
            });
        }
        let act = self.connections.plan_at(alloc, event, key)?;
        Ok(Plan { alloc, act })
    }

    /// Carries out the plan for an event: what it hands out is the next entry of the history. It takes
    /// no memory, and can't be refused.
    #[inline(always)]
    pub fn commit(&mut self, event: Event, plan: Plan) -> Outcome
        requires { IsPlanFor self.old event plan }
        ensures stands { (T : List HistoryEntry) → Stands self.old T
            → Stands self.new (entry_of event result ∷ T) }
        ensures short { IsShort result }
        ensures bases { bases_of self.new ≡ bases_of self.old }
    {
        self.carry_out(plan.alloc, event, plan.act)
    }

    /// Carries out what an event does.
    #[inline(always)]
    fn carry_out(&mut self, alloc: Global, event: Event, act: Act) -> Outcome
        requires { IsActFor self.old.ended self.old event act }
        ensures stands { (T : List HistoryEntry) → Stands self.old T
            → Stands self.new (entry_of event result ∷ T) }
        ensures short { IsShort result }
        ensures bases { bases_of self.new ≡ bases_of self.old }
    {
        if self.ended.is_some() {
            return nothing();
        }
        let is_frame = is_frame(&event);
        let outcome = self.connections.commit(alloc, event, act);
        self.ended = outcome.fault;
        if is_frame && outcome.to_client.is_none() && outcome.to_up.message.is_none() {
            self.dropped = self.dropped.saturating_add(1);
        }
        outcome
    }

    /// Takes a frame, while the connection to the server stands. No plan is made for it: one is large, and moved some times.
    #[inline(always)]
    fn pass(&mut self, event: Event) -> Outcome
        requires open { is_some self.old.ended ≡ false }
        requires frame { is_frame_item (happening_of event) ≡ true }
        ensures stands { (T : List HistoryEntry) → Stands self.old T
            → Stands self.new (entry_of event result ∷ T) }
        ensures short { IsShort result }
        ensures bases { bases_of self.new ≡ bases_of self.old }
    {
        let outcome = self.connections.pass(event);
        if outcome.to_client.is_none() && outcome.to_up.message.is_none() {
            self.dropped = self.dropped.saturating_add(1);
        }
        outcome
    }

    /// Takes a request of a client, while the connection to the server stands. It is planned and carried out where it
    /// stands: no plan of it is kept, so none takes memory. After `Memory` nothing changed.
    #[inline(always)]
    fn take_request(&mut self, alloc: Global, conn: u32, item: &Item) -> Result<Outcome, Memory>
        requires open { is_some self.old.ended ≡ false }
        requires request { item.now.kind ≡ Request }
        ensures stands { IfOk result (λ outcome.
            (T : List HistoryEntry) → Stands self.old T
            → Stands self.new (record { happening = takes conn (shape_of item.now); outcome = outcome } ∷ T)) }
        ensures short { IfOk result (λ outcome. IsShort outcome) }
        ensures err { OnErr result ((T : List HistoryEntry) → Stands self.old T → Stands self.new T) }
        ensures bases { bases_of self.new ≡ bases_of self.old }
    {
        let outcome = self.connections.take_request(alloc, conn, item)?;
        self.ended = outcome.fault;
        Ok(outcome)
    }

    /// Takes an event: what it hands out is the next entry of the history. After `Memory` nothing was
    /// handed out, and the event is given back. Only a request of a client or a message of the server
    /// may need memory.
    pub fn step(&mut self, alloc: Global, event: Event) -> Result<Outcome, (Event, Memory)>
        ensures ok { IfOk result (λ outcome.
            (T : List HistoryEntry) → Stands self.old T → Stands self.new (entry_of event outcome ∷ T)) }
        ensures short { IfOk result (λ outcome. IsShort outcome) }
        ensures given_back { IfErr result (λ refused. refused.0 ≡ event) }
        ensures err { OnErr result ((T : List HistoryEntry) → Stands self.old T → Stands self.new T) }
        ensures free { needs_memory event ≡ false → IsOk result }
        ensures bases { bases_of self.new ≡ bases_of self.old }
    {
        if self.ended.is_none() && is_frame(&event) {
            return Ok(self.pass(event));
        }
        if let Event::Client(conn, item) = &event
            && self.ended.is_none()
            && item.kind == ItemKind::Request
        {
            return match self.take_request(alloc, *conn, item) {
                Ok(outcome) => Ok(outcome),
                Err(memory) => Err((event, memory)),
            };
        }
        match self.act(alloc, &event) {
            Ok(act) => Ok(self.carry_out(alloc, event, act)),
            Err(memory) => Err((event, memory)),
        }
    }

    /// Where a connection stands, by one look-up: it is closed where it is not alive, else busy where a
    /// request of it would wait, and else ready, with the key under which it is kept now.
    pub fn standing(&self, conn: u32) -> Standing
        ensures tells { (T : List HistoryEntry) → Stands self.now T
            → TellsStanding (is_alive conn T) (is_busy (bases_of self.now) conn T) result }
        ensures key { GivesKey (HasKey self.now conn) result }
    {
        if self.ended.is_some() {
            return Standing::Closed;
        }
        self.connections.standing(conn)
    }

    /// Whether a connection is alive: it entered, and was not closed.
    pub fn alive(&self, conn: u32) -> bool
        ensures { (T : List HistoryEntry) → Stands self.now T → result ≡ is_alive conn T }
    {
        self.ended.is_none() && self.connections.alive(conn)
    }

    /// Whether a request of a connection would wait: it is alive, and another request of it is open.
    pub fn busy(&self, conn: u32) -> bool
        ensures { (T : List HistoryEntry) → Stands self.now T → result ≡ is_busy (bases_of self.now) conn T }
    {
        self.ended.is_none() && self.connections.busy(conn)
    }

    /// How many requests of a connection wait: those that came while another one was open. Where the
    /// connection to the server has ended, those that waited then.
    pub fn waiting(&self, conn: u32) -> usize
        ensures { (T : List HistoryEntry) → Stands self.now T
            → result ≡ requests_waiting (bases_of self.now) conn T }
    {
        self.connections.waiting(conn)
    }

    /// The first connection from this number on that is alive, or that was alive when the connection
    /// to the server ended. So a caller can go over those that its end closed.
    pub fn next_alive(&self, from: u32) -> Option<u32>
        ensures { (T : List HistoryEntry) → Stands self.now T → IsFirstAlive from (standing T) result }
    {
        self.connections.next_alive(from)
    }

    /// Why the connection to the server ended, where it did.
    pub fn ended(&self) -> Option<UpCause>
        ensures history { (T : List HistoryEntry) → Stands self.now T → result ≡ fault_in T }
        ensures value { result ≡ end_of self.now }
    {
        self.ended
    }

    /// How many frames were dropped; it stops at the greatest number of 64 bits.
    pub fn dropped(&self) -> u64
        ensures { (T : List HistoryEntry) → Stands self.now T → result ≡ dropped_frames T }
    {
        self.dropped
    }

    /// The addresses with which the gateway was made.
    pub fn bases(&self) -> &Bases
        ensures { result.now ≡ bases_of self.now }
    {
        &self.connections.bases
    }
}

/// Whether an event is a frame.
fn is_frame(event: &Event) -> bool
    ensures { result ≡ is_frame_item (happening_of event.now) }
{
    match event {
        Event::Client(_, item) | Event::Up(item) => item.kind == ItemKind::Frame,
        Event::End(_) | Event::Slow(_) | Event::UpEnd(_) => false,
    }
}
