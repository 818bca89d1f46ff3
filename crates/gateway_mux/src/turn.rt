//! The turn of a connection.
ghost use Rattle.std.specs.Prelude.{◌≡◌, ◌≢◌, ◌+◌, ◌<◌, ℕ, true, List, Option, Some, None, is_some, IsSome, IfSome};
ghost use Rattle.std.specs.Option.{option_copied};
ghost use Rattle.session_one.specs.declared.parts.TheConstants.{MOST_SESSIONS};
ghost use Rattle.channel_map.specs.Pairs.{held_at};
ghost use Rattle.client_slot.specs.Client.{Client};
ghost use Rattle.up_books.specs.Ids.{holder_of};
ghost use Rattle.up_books.specs.Numbers.{asker_of, next_number};
ghost use Rattle.client_machine.specs.Plans.{IsReady, IsShortPlan, IsShortDone};
ghost use Rattle.connection_table.specs.CarryOut.{IsCarriedAt};
ghost use Rattle.connection_table.specs.Tables.{client_at, is_ready, IsKeyOf};
ghost use Rattle.gateway_mux.specs.Settlements.{CanSettle, torn_of, binds, unbinds, asker_settled, held_settled, holder_settled};
ghost use Rattle.gateway_mux.specs.Upstream.{held_lent};
ghost use Rattle.gateway_mux.specs.Turn.{asks_pair, asker_lent, issued_then, one_if, free_once};

use crate::settlement::Settlement;
use crate::upstream::UpstreamBooks;
use client_machine::{Done, PlannedStep};
use client_slot::{Pending, Slot};
use connection_table::ConnectionTable;
use std::alloc::Global;

/// What is planned for a connection: what the server's reply settles, and what the connection does.
#[derive(Drop)]
pub struct PlannedTurn {
    /// The connection.
    pub conn: u32,
    /// The key under which it is kept.
    pub key: usize,
    /// The number of its open request, which a reply answers.
    pub number: u32,
    /// The number of the next request.
    pub next: u32,
    /// What a final reply settles.
    pub settled: Option<Settlement>,
    /// What the connection does.
    pub plan: PlannedStep,
    /// Whether a request goes up.
    pub asks: bool,
}

impl PlannedTurn {
    ghost use Rattle.std.specs.Prelude.{◌≡◌};
    ghost use Rattle.client_machine.specs.BlankPlans.{blank_plan};
    ghost use Rattle.gateway_mux.specs.BlankTurns.{blank_turn};

    /// The turn of a connection that is to be planned. It takes no memory.
    #[inline(always)]
    pub fn blank(alloc: Global, conn: u32, key: usize, number: u32, next: u32) -> PlannedTurn
        ensures { result ≡ blank_turn conn key number next blank_plan }
    {
        PlannedTurn {
            conn,
            key,
            number,
            next,
            settled: None,
            plan: PlannedStep::blank(alloc),
            asks: false,
        }
    }

    /// What it settles is known, and whether a request goes up.
    #[inline(always)]
    pub fn complete(&mut self, settled: Option<Settlement>, asks: bool)
        ensures { self.new ≡ record self.old { settled = settled; asks = asks } }
    {
        self.settled = settled;
        self.asks = asks;
    }
}

/// Carries out what is planned for a connection. It takes no memory, and can't be refused. What is handed out is moved out
/// of the planned turn, which is not to be used again.
#[inline(always)]
pub(crate) fn commit_turn(
    alloc: Global,
    seats: &mut ConnectionTable,
    upstream: &mut UpstreamBooks,
    turn: &mut PlannedTurn,
) -> Option<Done>
    requires key { IsKeyOf seats.old turn.old.conn turn.old.key }
    requires ready { IfSome (client_at seats.old turn.old.conn) (λ client. IsReady client turn.old.plan) }
    requires settles { IfSome turn.old.settled
        (CanSettle (λ n. asker_of upstream.old.requests n) (λ p. held_at p upstream.old.channels)
        (λ id. holder_of upstream.old.sessions id) upstream.old.sessions.spare turn.old.conn
        (torn_of turn.old.settled (client_at seats.old turn.old.conn))) }
    requires within { IfSome turn.old.settled (λ settled. IfSome settled.torn (λ place. place < MOST_SESSIONS)) }
    requires room { turn.old.asks ≡ true → turn.old.settled ≡ None → 0 < upstream.old.requests.spare }
    requires left { turn.old.asks ≡ true → IsSome (next_number upstream.old.requests.issued) }
    ensures done { IsSome (client_at seats.old turn.old.conn)
        → IfSome result (λ done.
        IsCarriedAt (client_at seats.old turn.old.conn) (client_at seats.new turn.old.conn) turn.old.plan turn.old.number
        turn.old.next done) }
    ensures some { IsSome (client_at seats.old turn.old.conn) → IsSome result }
    ensures short { IsShortPlan turn.old.plan → IfSome result IsShortDone }
    ensures key { IsKeyOf seats.new turn.old.conn turn.old.key }
    ensures ready { is_ready seats.new ≡ is_ready seats.old }
    ensures others { (i : ℕ) → turn.old.conn ≢ i → client_at seats.new i ≡ client_at seats.old i }
    ensures issued { IsSome result
        → upstream.new.requests.issued ≡ issued_then turn.old.asks upstream.old.requests.issued }
    ensures room { IsSome result
        → upstream.new.requests.spare + one_if turn.old.asks
        ≡ upstream.old.requests.spare + one_if (is_some turn.old.settled) }
    ensures spare { IsSome result
        → upstream.new.sessions.spare + one_if (binds turn.old.settled)
        ≡ upstream.old.sessions.spare
        + one_if (unbinds turn.old.settled (torn_of turn.old.settled (client_at seats.old turn.old.conn))) }
    ensures asked { IsSome result
        → (n : ℕ)
        → asker_of upstream.new.requests n
        ≡ asker_lent turn.old.asks turn.old.conn (upstream.old.requests.issued + 1) n
        (asker_settled turn.old.settled n (asker_of upstream.old.requests n)) }
    ensures held { IsSome result
        → (p : ℕ)
        → held_at p upstream.new.channels
        ≡ held_lent turn.old.asks (asks_pair (client_at seats.new turn.old.conn)) turn.old.conn
        (free_once turn.old.settled (λ q. held_at q upstream.old.channels)) p
        (held_settled turn.old.settled p (held_at p upstream.old.channels)) }
    ensures holder { IsSome result
        → (id : List ℕ)
        → holder_of upstream.new.sessions id
        ≡ holder_settled turn.old.settled (torn_of turn.old.settled (client_at seats.old turn.old.conn)) turn.old.conn id (holder_of upstream.old.sessions id) }
{
    let (conn, key, asks) = (turn.conn, turn.key, turn.asks);
    let (number, next) = (turn.number, turn.next);
    let slot = seats.at(key)?;
    let torn = torn_id(slot, &turn.settled);
    upstream.settle_where(conn, torn, &mut turn.settled);
    let done = seats.commit(alloc, conn, key, &mut turn.plan, number, next)?;
    if asks {
        upstream.issue(conn, is_for_a_pair(seats, conn, key));
    }
    Some(done)
}

/// The id of the session that ends with what is settled.
fn torn_id<'a>(slot: &'a Slot, settled: &Option<Settlement>) -> Option<&'a [u8]>
    requires { IfSome settled.now (λ one. IfSome one.torn (λ place. place < MOST_SESSIONS)) }
    ensures { option_copied result ≡ torn_of settled.entry.now (Some slot.entry.now) }
{
    match settled {
        Some(settled) => slot.session(settled.torn?),
        None => None,
    }
}

/// Whether the open request of a connection, which is kept under this key, asks for a pair of channels.
fn is_for_a_pair(seats: &ConnectionTable, conn: u32, key: usize) -> bool
    requires { IsKeyOf seats.now conn key }
    ensures { result ≡ asks_pair (client_at seats.now conn) }
{
    let Some(slot) = seats.at(key) else {
        return false;
    };
    match slot.pending() {
        Some(Pending::Client(_, Some(_))) => true,
        Some(_) | None => false,
    }
}
