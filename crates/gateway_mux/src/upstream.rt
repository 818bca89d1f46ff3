//! The one connection to the server.
ghost use Rattle.std.specs.Prelude.{◌≡◌, ◌==◌, ◌+◌, ◌<◌, ◌≤◌, ℕ, List, None, Some, is_some, is_none, true, false, IsSome, IfSome, if◌then◌else◌};
ghost use Rattle.std.specs.Option.{option_copied};
ghost use Rattle.channel_map.specs.declared.map.TheConstants.{PAIRS};
ghost use Rattle.channel_map.specs.Pairs.{held_at, is_free, lowest_free};
ghost use Rattle.up_books.specs.Ids.{holder_of};
ghost use Rattle.up_books.specs.Numbers.{asker_of, next_number};
ghost use Rattle.up_books.specs.declared.cseq.TheConstants.{LAST_NUMBER};
ghost use Rattle.gateway_mux.specs.Settlements.{held_by, holder_by, CanSettle, gives_back, binds, unbinds, asker_settled, held_settled, holder_settled};
ghost use Rattle.gateway_mux.specs.Turn.{free_once, one_if};
ghost use Rattle.gateway_mux.specs.Upstream.{reserved_by};

use crate::settlement::Settlement;
use channel_map::{ChannelMap, Freed};
use gate_bytes::Text;
use std::alloc::Global;
use up_books::{CseqBook, SessionBook, Spent};

/// What is kept of the connection to the server: its open requests, its sessions, and its pairs of
/// channels.
#[derive(Drop)]
pub(crate) struct UpstreamBooks {
    pub requests: CseqBook,
    pub sessions: SessionBook,
    pub channels: ChannelMap,
}

impl UpstreamBooks {
    /// Nothing is open, bound or held, and `first` is the next number. It takes no memory.
    pub fn starting(alloc: Global, first: u32) -> UpstreamBooks
        requires low { 0 < first }
        requires high { first ≤ LAST_NUMBER }
        ensures issued { result.requests.issued + 1 ≡ first }
        ensures open { (n : ℕ) → asker_of result.requests n ≡ None }
        ensures bound { (id : List ℕ) → holder_of result.sessions id ≡ None }
        ensures held { (p : ℕ) → held_at p result.channels ≡ None }
    {
        UpstreamBooks {
            requests: CseqBook::starting(alloc, first),
            sessions: SessionBook::new(alloc),
            channels: ChannelMap::new(),
        }
    }

    /// Whether a request is due for which no number is left.
    #[inline(always)]
    pub fn lacks_number(&self, is_due: bool) -> bool
        ensures lacking { result ≡ true → (is_due ≡ true) × (next_number self.now.requests.issued ≡ None) }
        ensures left { result ≡ false → is_due ≡ true → IsSome (next_number self.now.requests.issued) }
    {
        if !is_due {
            return false;
        }
        self.requests.next().is_none()
    }

    /// Settles what the final reply to a request of a connection settles. This is the session that ends.
    pub fn settle(&mut self, conn: u32, torn: Option<&[u8]>, settled: Settlement)
        requires { CanSettle (λ n. asker_of self.old.requests n) (λ p. held_at p self.old.channels)
            (λ id. holder_of self.old.sessions id) self.old.sessions.spare conn (option_copied torn)
            settled }
        ensures issued { self.new.requests.issued ≡ self.old.requests.issued }
        ensures open { (n : ℕ)
            → asker_of self.new.requests n
            ≡ (if n == settled.number then None else asker_of self.old.requests n) }
        ensures room { self.new.requests.spare ≡ self.old.requests.spare + 1 }
        ensures spare { self.new.sessions.spare + one_if (is_some settled.bound)
            ≡ self.old.sessions.spare
            + one_if (gives_back settled.bound (option_copied torn.entry)) }
        ensures held { (p : ℕ)
            → held_at p self.new.channels
            ≡ held_by settled.granted settled.freed p (held_at p self.old.channels) }
        ensures holder { (id : List ℕ)
            → holder_of self.new.sessions id
            ≡ holder_by settled.bound (option_copied torn.entry) conn id (holder_of self.old.sessions id) }
    {
        let _ = self.requests.settle(settled.number);
        settle_channels(&mut self.channels, settled.granted, settled.freed);
        settle_sessions(&mut self.sessions, conn, settled.bound, torn);
    }

    /// Settles what the final reply to a request of a connection settles, where one came: that is taken. It is large, and most
    /// events settle nothing.
    #[inline(always)]
    pub fn settle_where(&mut self, conn: u32, torn: Option<&[u8]>, settled: &mut Option<Settlement>)
        requires { IfSome settled.old
            (CanSettle (λ n. asker_of self.old.requests n) (λ p. held_at p self.old.channels)
            (λ id. holder_of self.old.sessions id) self.old.sessions.spare conn (option_copied torn)) }
        ensures issued { self.new.requests.issued ≡ self.old.requests.issued }
        ensures open { (n : ℕ)
            → asker_of self.new.requests n ≡ asker_settled settled.old n (asker_of self.old.requests n) }
        ensures room { self.new.requests.spare
            ≡ (if is_some settled.old then self.old.requests.spare + 1 else self.old.requests.spare) }
        ensures spare { self.new.sessions.spare + one_if (binds settled.old)
            ≡ self.old.sessions.spare + one_if (unbinds settled.old (option_copied torn.entry)) }
        ensures held { (p : ℕ)
            → held_at p self.new.channels ≡ held_settled settled.old p (held_at p self.old.channels) }
        ensures holder { (id : List ℕ)
            → holder_of self.new.sessions id ≡ holder_settled settled.old (option_copied torn.entry) conn id (holder_of self.old.sessions id) }
    {
        if settled.is_none() {
            return;
        }
        if let Some(settled) = settled.take() {
            self.settle(conn, torn, settled);
        }
    }

    /// The lowest pair of channels that is free once that is settled.
    pub fn free_once(&self, settled: &Option<Settlement>) -> Option<u8>
        ensures free { result ≡ free_once settled.now (λ p. held_at p self.now.channels) }
        ensures low { IfSome result (λ pair. pair < PAIRS) }
    {
        match settled {
            Some(settled) if settled.granted.is_none() => self.channels.free_after(settled.freed),
            _ => self.channels.free_after(Freed::Nothing),
        }
    }

    /// Issues the next number to a request of a connection, and reserves the lowest pair of channels
    /// that is free, where it asks for one.
    pub fn issue(&mut self, conn: u32, reserves: bool)
        requires room { 0 < self.old.requests.spare }
        requires left { IsSome (next_number self.old.requests.issued) }
        ensures sessions { self.new.sessions ≡ self.old.sessions }
        ensures issued { self.new.requests.issued ≡ self.old.requests.issued + 1 }
        ensures open { (n : ℕ)
            → asker_of self.new.requests n
            ≡ (if n == self.old.requests.issued + 1 then Some conn else asker_of self.old.requests n) }
        ensures room { self.new.requests.spare + 1 ≡ self.old.requests.spare }
        ensures held { (p : ℕ)
            → held_at p self.new.channels
            ≡ reserved_by reserves conn (lowest_free (λ pair. is_free (held_at pair self.old.channels))) p
            (held_at p self.old.channels) }
    {
        match self.requests.issue(conn) {
            Ok(_) => {}
            Err(Spent) => unreachable!(),
        }
        if reserves {
            let _ = self.channels.reserve(conn);
        }
    }
}

/// Settles the pairs of channels: one is granted, or some are freed.
fn settle_channels(channels: &mut ChannelMap, granted: Option<u8>, freed: Freed)
    requires { IfSome granted (λ pair. IsSome (held_at pair channels.old)) }
    ensures { (p : ℕ) → held_at p channels.new ≡ held_by granted freed p (held_at p channels.old) }
{
    match granted {
        Some(pair) => channels.grant(pair),
        None => channels.free(freed),
    }
}

/// Settles the sessions: a new one is bound, or one ends.
fn settle_sessions(sessions: &mut SessionBook, conn: u32, bound: Option<Text>, torn: Option<&[u8]>)
    requires spare { IsSome bound → 0 < sessions.old.spare }
    requires fresh { IfSome bound (λ id. holder_of sessions.old id ≡ None) }
    requires owned { IfSome torn (λ id. is_some (holder_of sessions.old id.now) ≡ true) }
    ensures spare { sessions.new.spare + one_if (is_some bound)
        ≡ sessions.old.spare + one_if (gives_back bound (option_copied torn.entry)) }
    ensures holder { (id : List ℕ)
        → holder_of sessions.new id ≡ holder_by bound (option_copied torn.entry) conn id (holder_of sessions.old id) }
{
    match (bound, torn) {
        (Some(id), _) => match sessions.bind(id, conn) {
            Ok(()) => {}
            Err(_) => unreachable!(),
        },
        (None, Some(id)) => sessions.free(id),
        (None, None) => {}
    }
}
