//! A core that refuses: it answers every request of a player with 501, and asks the server nothing.
ghost use Rattle.std.specs.Prelude.{◌≡◌, [], ℕ, false, None, Some, nat_eq};
ghost use Rattle.std.specs.HashSet.{contains};
ghost use Rattle.gateway_claim.specs.Cores.{stays_alive, closing_all};
ghost use Rattle.gateway_claim.specs.Happenings.{happening_of, nothing_up, silent, cause_of};
ghost use Rattle.test_transcripts.specs.Refuser.{refused_text, handing, closed_if, item_refused, refusing, text_for, text_planned, StandsRefusing};

use gate_bytes::{Memory, Text};
use gateway_claim::{
    CloseWhy, Closed, ConnectionKey, Core, Event, Outcome, Standing, ToClient, ToUp, UpCause, UpWhy,
};
use rtsp_head::ItemKind;
use rtsp_uri::Bases;
use std::alloc::Global;
use std::collections::HashSet;

// What a request is answered.
const REFUSAL: &[u8] = b"RTSP/1.0 501 Not Implemented\r\n\r\n";

/// A core that refuses: who is alive in it, and why the connection to the server ended.
#[derive(Drop)]
pub struct Refuser {
    bases: Bases,
    numbers: HashSet<u32>,
    over: Option<UpCause>,
}

/// The answer to a request, where the event is one of a connection that is alive.
#[derive(Drop)]
pub struct RefuserPlan {
    text: Option<Text>,
}

// This for one client, this close, and this end of the connection to the server.
fn outcome(to_client: Option<ToClient>, closed: Closed, fault: Option<UpCause>) -> Outcome
    ensures { result ≡ record { to_client = to_client; to_up = nothing_up; closed = closed; fault = fault } }
{
    Outcome {
        to_client,
        to_up: ToUp {
            answer: None,
            message: None,
        },
        closed,
        fault,
    }
}

// Nothing.
fn nothing() -> Outcome
    ensures { result ≡ silent }
{
    outcome(None, Closed::Nobody, None)
}

// The cause of an end that no item of the server caused.
fn cause_of(why: UpWhy) -> UpCause
    ensures { result ≡ cause_of why }
{
    match why {
        UpWhy::Ended => UpCause::Ended,
        UpWhy::ReadFault => UpCause::ReadFault,
        UpWhy::WriteFault => UpCause::WriteFault,
        UpWhy::UpFull => UpCause::UpFull,
    }
}

impl Refuser {
    ghost use Rattle.gateway_claim.specs.declared.event.Event.{Event};

    /// A core to which nothing happened. It takes no memory.
    pub fn new(alloc: Global, bases: Bases) -> Refuser
        ensures { StandsRefusing result.bases (λ i. contains nat_eq result.numbers i) result.over [] }
    {
        Refuser {
            bases,
            numbers: HashSet::new(alloc),
            over: None,
        }
    }

    // An item of a player.
    fn take(&mut self, conn: u32, kind: ItemKind, text: Option<Text>) -> Outcome
        requires { text ≡ text_for (contains nat_eq self.old.numbers conn) kind }
        ensures outcome { result ≡ item_refused (contains nat_eq self.old.numbers conn) kind conn }
        ensures numbers { (i : ℕ)
            → contains nat_eq self.new.numbers i
            ≡ stays_alive i result.closed (contains nat_eq self.old.numbers i) }
        ensures over { self.new.over ≡ self.old.over }
        ensures bases { self.new.bases ≡ self.old.bases }
    {
        if !self.numbers.contains(&conn) {
            return nothing();
        }
        match kind {
            ItemKind::Request => answered(conn, text),
            ItemKind::Response => nothing(),
            ItemKind::Frame => nothing(),
            ItemKind::Bad(_) => self.close(conn, CloseWhy::BadItem),
        }
    }

    // A player's connection closes, where it is alive.
    fn close(&mut self, conn: u32, why: CloseWhy) -> Outcome
        ensures outcome { result ≡ closed_if (contains nat_eq self.old.numbers conn) conn why }
        ensures numbers { (i : ℕ)
            → contains nat_eq self.new.numbers i
            ≡ stays_alive i result.closed (contains nat_eq self.old.numbers i) }
        ensures over { self.new.over ≡ self.old.over }
        ensures bases { self.new.bases ≡ self.old.bases }
    {
        if self.numbers.remove(&conn) {
            outcome(None, Closed::One(conn, why), None)
        } else {
            nothing()
        }
    }

    // The connection to the server ends.
    fn end(&mut self, cause: UpCause) -> Outcome
        ensures outcome { result ≡ closing_all cause }
        ensures numbers { (i : ℕ) → contains nat_eq self.new.numbers i ≡ false }
        ensures over { self.new.over ≡ Some cause }
        ensures bases { self.new.bases ≡ self.old.bases }
    {
        self.numbers.clear();
        self.over = Some(cause);
        outcome(None, Closed::All, Some(cause))
    }

    // What an event gives, with the text that it needs.
    fn give(&mut self, event: Event, text: Option<Text>) -> Outcome
        requires standing { self.old.over ≡ None }
        requires text { text ≡ text_planned (λ i. contains nat_eq self.old.numbers i) event }
        ensures outcome { result ≡ refusing (λ i. contains nat_eq self.old.numbers i) (happening_of event) }
        ensures numbers { (i : ℕ)
            → contains nat_eq self.new.numbers i
            ≡ stays_alive i result.closed (contains nat_eq self.old.numbers i) }
        ensures over { self.new.over ≡ result.fault }
        ensures bases { self.new.bases ≡ self.old.bases }
    {
        match event {
            Event::Client(conn, item) => self.take(conn, item.kind, text),
            Event::Up(_) => nothing(),
            Event::End(conn) => self.close(conn, CloseWhy::Ended),
            Event::Slow(conn) => self.close(conn, CloseWhy::Slow),
            Event::UpEnd(why) => self.end(cause_of(why)),
        }
    }
}

// The answer to a request.
fn answered(conn: u32, text: Option<Text>) -> Outcome
    requires { text ≡ Some refused_text }
    ensures { result ≡ handing conn refused_text }
{
    match text {
        Some(bytes) => outcome(Some(ToClient { conn, bytes }), Closed::Nobody, None),
        None => nothing(),
    }
}

impl Core for Refuser {
    ghost use Rattle.std.specs.Prelude.{◌≡◌, true, false, nat_eq, refl};
    ghost use Rattle.std.specs.HashSet.{contains};
    ghost use Rattle.test_transcripts.specs.Refuser.{StandsRefusing, FollowsRefusing, text_planned};
    ghost use Rattle.test_transcripts.specs.RefuserLaws.{one_refusal, refusals_orderly};

    type Plan = RefuserPlan;

    ghost bases = { λ core. core.bases };

    ghost stands = { λ core T. StandsRefusing core.bases (λ i. contains nat_eq core.numbers i) core.over T };

    ghost follows = { FollowsRefusing };

    ghost planned = { λ core event plan. plan.text ≡ text_planned (λ i. contains nat_eq core.numbers i) event };

    ghost has_key = { λ core i key. contains nat_eq core.numbers i ≡ true };

    ghost is_busy = { λ bases i T. false };

    ghost waits = { λ bases i T. 0 };

    ghost dropped = { λ T. 0 };

    ghost is_prepared = { λ core. false };

    fn prepare(&mut self, alloc: Global) -> Result<(), Memory> {
        Err(Memory)
    }

    fn enter(&mut self, alloc: Global, conn: u32) -> Result<(), Memory> {
        if self.over.is_some() {
            return Ok(());
        }
        self.numbers.insert(conn)?;
        Ok(())
    }

    fn plan(&self, alloc: Global, event: &Event) -> Result<RefuserPlan, Memory> {
        let needed = match event {
            Event::Client(conn, item) => {
                item.kind == ItemKind::Request && self.numbers.contains(conn)
            }
            _ => false,
        };
        if needed {
            return Ok(RefuserPlan {
                text: Some(Text::copy(alloc, REFUSAL)?),
            });
        }
        Ok(RefuserPlan { text: None })
    }

    fn plan_at(
        &self,
        alloc: Global,
        event: &Event,
        key: ConnectionKey,
    ) -> Result<RefuserPlan, Memory> {
        self.plan(alloc, event)
    }

    fn commit(&mut self, event: Event, plan: RefuserPlan) -> Outcome {
        if self.over.is_some() {
            return nothing();
        }
        self.give(event, plan.text)
    }

    fn step(&mut self, alloc: Global, event: Event) -> Result<Outcome, (Event, Memory)> {
        match self.plan(alloc, &event) {
            Ok(plan) => Ok(self.commit(event, plan)),
            Err(memory) => Err((event, memory)),
        }
    }

    fn standing(&self, conn: u32) -> Standing {
        if self.numbers.contains(&conn) {
            Standing::Ready(ConnectionKey { place: 0 })
        } else {
            Standing::Closed
        }
    }

    fn busy(&self, conn: u32) -> bool {
        false
    }

    fn waiting(&self, conn: u32) -> usize {
        0
    }

    fn alive(&self, conn: u32) -> bool {
        self.numbers.contains(&conn)
    }

    fn dropped(&self) -> u64 {
        0
    }

    fn ended(&self) -> Option<UpCause> {
        self.over
    }

    fn bases(&self) -> &Bases {
        &self.bases
    }

    ghost history = { λ core T stands. stands.is_history };

    ghost one_next = { one_refusal };

    ghost orderly = { refusals_orderly };

    ghost none_waits = { λ bases i. refl };

    ghost none_waits_next = { λ bases T entry history follows timely none i. refl };
}
