//! What a final reply settles.
ghost use Rattle.std.specs.Prelude.{◌≡◌, ◌≤◌, ◌<◌, ℕ, IfOk, IfSome, Some, None, if◌then◌else◌};
ghost use Rattle.channel_map.specs.declared.map.TheConstants.{PAIRS};
ghost use Rattle.channel_map.specs.PairSets.{is_in_set};
ghost use Rattle.session_one.specs.declared.parts.TheConstants.{MOST_SESSIONS};
ghost use Rattle.client_slot.specs.Client.{Client};
ghost use Rattle.client_slot.specs.Purposes.{purpose_seen};
ghost use Rattle.gateway_claim.specs.Books.{final_of, id_said};
ghost use Rattle.gateway_claim.specs.Turns.{kind_pending};
ghost use Rattle.gateway_mux.specs.Settlements.{has_pair, AreSettled};
ghost use Rattle.gateway_mux.specs.ByPurpose.{pair_named, ending_place, torn_at, IsFreedAt, bound_at};

use crate::grant::id_said;
use channel_map::{Freed, PairSet};
use client_slot::{Pending, Slot};
use gate_bytes::{Memory, Text};
use head_two::Reply2;
use rtsp_small::Method;
use session_one::{Track, is_success};
use std::alloc::Global;

/// What a final reply settles in the books.
#[derive(Drop)]
pub struct Settlement {
    /// The number of the request that is open no longer.
    pub number: u32,
    /// The pairs of channels that it frees.
    pub freed: Freed,
    /// The pair that it grants.
    pub granted: Option<u8>,
    /// The id of a new session.
    pub bound: Option<Text>,
    /// The place of the session that ends.
    pub torn: Option<u8>,
}

/// What the final reply settles to the open request of a connection.
pub(crate) fn what_settles<'a>(
    alloc: Global,
    slot: &'a Slot,
    pending: Pending<'a>,
    reply: &Reply2<'_>,
) -> Result<Settlement, Memory>
    requires last { 200 ≤ reply.now.code }
    requires pending { slot.now.pending ≡ Some (purpose_seen pending) }
    ensures { (conn : ℕ) (client : Client)
        → slot.entry.now ≡ client → client.pending ≡ Some (purpose_seen pending.entry)
        → IfOk result (λ settled.
        AreSettled
        (final_of reply.now
        (Some (record { conn = conn; kind = kind_pending client.sessions client.pending })))
        client (Some settled)) }
{
    slot.keeps();
    let success = is_success(reply.code);
    let pair = pair_named(pending);
    let torn = torn_place(slot, pending, success);
    Ok(Settlement {
        number: reply.cseq,
        freed: what_frees(slot, pair_if(!success, pair), torn),
        granted: pair_if(success, pair),
        bound: bound_id(alloc, pending, success, reply)?,
        torn,
    })
}

/// The place of the session that ends with the final reply to a request.
fn torn_place(slot: &Slot, pending: Pending<'_>, success: bool) -> Option<u8>
    requires { slot.now.pending ≡ Some (purpose_seen pending) }
    ensures torn { result
        ≡ torn_at slot.now.sessions (ending_place (purpose_seen pending.entry) success) }
    ensures within { IfSome result (λ place. place < MOST_SESSIONS) }
{
    slot.keeps();
    let place = ending_place(pending, success)?;
    slot.session(place)?;
    Some(place)
}

/// The place whose session is to end: that of a TEARDOWN with a success, and that of a connection that
/// closed with any.
fn ending_place(pending: Pending<'_>, success: bool) -> Option<u8>
    ensures { result ≡ ending_place (purpose_seen pending.entry) success }
{
    match pending {
        Pending::Client(asked, None) if success && asked.method == Method::Teardown => asked.place,
        Pending::Client(_, _) | Pending::Released(_) => None,
        Pending::Closing(place) => Some(place),
    }
}

/// The pairs of channels that it frees: that of a SETUP that failed, and those of the session that ends.
fn what_frees(slot: &Slot, failed: Option<u8>, torn: Option<u8>) -> Freed
    requires { IfSome torn (λ place. place < MOST_SESSIONS) }
    ensures { IsFreedAt failed torn slot.now.sessions result }
{
    match (failed, torn) {
        (Some(pair), _) => Freed::Pair(pair),
        (None, Some(place)) => Freed::Granted(pairs_of(slot.tracks(place))),
        (None, None) => Freed::Nothing,
    }
}

/// The pair that a SETUP asks for.
fn pair_named(pending: Pending<'_>) -> Option<u8>
    ensures { result ≡ pair_named (purpose_seen pending.entry) }
{
    match pending {
        Pending::Client(_, Some(track)) => Some(track.pair),
        _ => None,
    }
}

/// The pair, where that is so.
fn pair_if(is_so: bool, pair: Option<u8>) -> Option<u8>
    ensures { result ≡ (if is_so then pair else None) }
{
    if is_so { pair } else { None }
}

/// The id of the session that the success of a SETUP brings, where that named none.
fn bound_id(
    alloc: Global,
    pending: Pending<'_>,
    success: bool,
    reply: &Reply2<'_>,
) -> Result<Option<Text>, Memory>
    ensures { IfOk result (λ bound.
        bound ≡ bound_at (purpose_seen pending.entry) success (id_said reply.now)) }
{
    match pending {
        Pending::Client(asked, Some(_)) if success && asked.place.is_none() => {
            Text::copied(alloc, id_said(reply))
        }
        _ => Ok(None),
    }
}

/// The pairs of channels of some streams.
fn pairs_of(tracks: &[Track]) -> PairSet
    ensures { (p : ℕ) → p < PAIRS → is_in_set result p ≡ has_pair p tracks.now }
{
    let mut pairs = PairSet::new();
    for track in tracks {
        pairs.insert(track.pair);
    }
    pairs
}
