//! A connection as it will be after an event, which was not carried out yet.
ghost use Rattle.std.specs.Prelude.{◌≡◌, ◌<◌, ◌==◌, ℕ, true, is_some, map, length, slice_get, List, Option, IfSome, Some, None, if◌then◌else◌};
ghost use Rattle.std.specs.Option.{option_copied};
ghost use Rattle.rtsp_small.specs.Sessions.{is_session_id};
ghost use Rattle.session_one.specs.declared.parts.TheConstants.{MOST_SESSIONS};
ghost use Rattle.session_one.specs.declared.parts.Play.{Play};
ghost use Rattle.session_one.specs.declared.table.State.TheVariants.{Ready};
ghost use Rattle.client_slot.specs.Purposes.{purpose_seen};
ghost use Rattle.client_slot.specs.Session.{PlayerSession};
ghost use Rattle.client_slot.specs.Places.{session_at, session_where, changed_at, changed_where, filled_place};
ghost use Rattle.client_slot.specs.SessionTurns.{brought_by, control_by, part_then, tracks_then, queue_then, turned};
ghost use Rattle.client_slot.specs.SessionChanges.{when_ended};
ghost use Rattle.client_slot.specs.Changes.{settled_place, sessions_after, described_by, described_after};
ghost use Rattle.client_machine.specs.Sights.{sight, sight_of, with_added, replaced_where, brought_of, id_changed};
ghost use Rattle.client_machine.specs.Outlooks.{sights_of};

use crate::outlook::Outlook;
use crate::sight::{PlacedShowing, Showing, seen};
use client_slot::{PartTurn, Pending, SessionTurn, Slot};
use rtsp_small::Method;
use session_one::{Asked, Play, State, Track, is_success};
use session_two::Names;

/// What a request and its reply bring to a session, lent.
#[derive(Clone, Copy)]
pub(crate) struct LentParts<'a> {
    /// The URI that stands for what the session is about then.
    pub control: Option<&'a [u8]>,
    /// The id of a session that the server made.
    pub id: Option<&'a [u8]>,
    /// The stream that a SETUP sets up.
    pub track: Option<&'a Track>,
}

/// The connection after the final reply with this code to its open request. The id is that of the
/// session which the server made, where it made one.
pub(crate) fn after_reply<'a>(
    slot: &'a Slot,
    pending: Pending<'a>,
    code: u16,
    id: Option<&'a [u8]>,
) -> Outlook<'a>
    requires pending { slot.now.pending ≡ Some (purpose_seen pending) }
    requires valid { IfSome id (λ one. is_session_id one.now ≡ true) }
    ensures shows { (number : ℕ)
        → sights_of result
        ≡ map sight
        (sessions_after (purpose_seen pending.entry) number code slot.entry.now.described
        (option_copied id.entry) slot.entry.now.sessions) }
    ensures described { (number : ℕ)
        → option_copied result.described
        ≡ described_after (purpose_seen pending.entry) code
        (sessions_after (purpose_seen pending.entry) number code slot.entry.now.described
        (option_copied id.entry) slot.entry.now.sessions)
        slot.entry.now.described }
    ensures slot { result.slot.now ≡ slot.entry.now }
    ensures own { (number : ℕ)
        → option_copied (id_changed result.changed)
        ≡ (session_where
        (settled_place (purpose_seen pending.entry) (option_copied id.entry) slot.entry.now.sessions)
        (sessions_after (purpose_seen pending.entry) number code slot.entry.now.described
        (option_copied id.entry) slot.entry.now.sessions)).id }
    ensures valid { IfSome (id_changed result.changed) (λ one. is_session_id one.now ≡ true) }
{
    slot.keeps();
    let changed = changed_by(slot, pending, code, id);
    let after = Outlook {
        slot,
        changed,
        described: slot.described(),
    };
    Outlook {
        slot,
        changed,
        described: described_then(&after, pending, code),
    }
}

/// The session that the final reply changes, as it will be, and its place.
fn changed_by<'a>(
    slot: &'a Slot,
    pending: Pending<'a>,
    code: u16,
    id: Option<&'a [u8]>,
) -> Option<PlacedShowing<'a>>
    requires pending { slot.now.pending ≡ Some (purpose_seen pending) }
    requires valid { IfSome id (λ one. is_session_id one.now ≡ true) }
    ensures shows { (number : ℕ)
        → replaced_where result (map sight slot.entry.now.sessions)
        ≡ map sight
        (sessions_after (purpose_seen pending.entry) number code slot.entry.now.described
        (option_copied id.entry) slot.entry.now.sessions) }
    ensures own { (number : ℕ)
        → option_copied (id_changed result)
        ≡ (session_where
        (settled_place (purpose_seen pending.entry) (option_copied id.entry) slot.entry.now.sessions)
        (sessions_after (purpose_seen pending.entry) number code slot.entry.now.described
        (option_copied id.entry) slot.entry.now.sessions)).id }
    ensures valid { IfSome (id_changed result) (λ one. is_session_id one.now ≡ true) }
{
    slot.keeps();
    let place = slot.settled_place(id.is_some())?;
    let turn = SessionTurn::of(slot.state(place), pending, code, id.is_some());
    let session = after_turn(slot, place, turn, brought(slot, pending, id));
    Some(PlacedShowing { place, session })
}

/// The URI that was described, in the light of the sessions then.
fn described_then<'a>(after: &Outlook<'a>, pending: Pending<'a>, code: u16) -> Option<&'a [u8]>
    ensures { (sessions : List PlayerSession) → sights_of after.entry.now ≡ map sight sessions
        → option_copied result
        ≡ described_after (purpose_seen pending.entry) code sessions (option_copied after.entry.now.described) }
{
    match pending {
        Pending::Client(asked, _) if is_success(code) => described_by(after, asked),
        _ => after.described,
    }
}

/// The URI that was described, after the success of a player's request.
fn described_by<'a>(after: &Outlook<'a>, asked: &'a Asked) -> Option<&'a [u8]>
    ensures { (sessions : List PlayerSession) → sights_of after.entry.now ≡ map sight sessions
        → option_copied result
        ≡ described_by asked.entry.now.method asked.entry.now.uri sessions (option_copied after.entry.now.described) }
{
    match asked.method {
        Method::Describe => Some(asked.uri.as_bytes()),
        Method::Teardown => described_left(after),
        _ => after.described,
    }
}

/// The URI that was described, where a session is left.
fn described_left<'a>(after: &Outlook<'a>) -> Option<&'a [u8]>
    ensures { (sessions : List PlayerSession) → sights_of after.entry.now ≡ map sight sessions
        → option_copied result
        ≡ (if is_some (filled_place sessions) then option_copied after.entry.now.described else None) }
{
    if after.has_session() {
        after.described
    } else {
        None
    }
}

/// What a request and its reply bring to its session.
fn brought<'a>(slot: &'a Slot, pending: Pending<'a>, id: Option<&'a [u8]>) -> LentParts<'a>
    ensures id { result.id ≡ id.entry }
    ensures brought { (number : ℕ)
        → brought_of number result
        ≡ brought_by (purpose_seen pending.entry) number slot.entry.now.described (option_copied id.entry) }
{
    match pending {
        Pending::Client(asked, track) => LentParts {
            control: about(asked, slot.described()),
            id,
            track,
        },
        Pending::Released(play) => LentParts {
            control: Some(play.uri.as_bytes()),
            id,
            track: None,
        },
        Pending::Closing(_) => LentParts {
            control: None,
            id,
            track: None,
        },
    }
}

/// What a session is about after a player's request.
fn about<'a>(asked: &'a Asked, described: Option<&'a [u8]>) -> Option<&'a [u8]>
    ensures { option_copied result
        ≡ control_by asked.entry.now.method asked.entry.now.uri (option_copied described.entry) }
{
    match asked.method {
        Method::Describe => None,
        Method::Setup => match described {
            Some(uri) => Some(uri),
            None => Some(asked.uri.as_bytes()),
        },
        _ => Some(asked.uri.as_bytes()),
    }
}

/// What the session at a place shows after a turn.
fn after_turn<'a>(
    slot: &'a Slot,
    place: u8,
    turn: SessionTurn,
    brought: LentParts<'a>,
) -> Showing<'a>
    requires place { place < MOST_SESSIONS }
    requires valid { IfSome brought.id (λ one. is_session_id one.now ≡ true) }
    ensures shows { (number : ℕ)
        → sight_of result
        ≡ sight (turned turn (brought_of number brought.entry) (session_at place slot.entry.now.sessions)) }
    ensures valid { IfSome result.id (λ one. is_session_id one.now ≡ true) }
{
    let now = seen(slot, place, turn.state);
    let (tracks, added) = streams_after(turn.tracks, now.tracks, brought.track);
    let (first, queued) = queue_after(turn.queue, now.first, now.queued);
    Showing {
        state: turn.state,
        id: part_after(turn.id, now.id, brought.id),
        control: part_after(turn.control, now.control, brought.control),
        tracks,
        added,
        runs: runs_after(turn.running, now.runs),
        first,
        queued,
    }
}

/// What becomes of the streams: those that stay, and the one that comes.
fn streams_after<'a>(
    part: PartTurn,
    was: &'a [Track],
    new: Option<&'a Track>,
) -> (&'a [Track], Option<&'a Track>)
    ensures { with_added result.0.now (option_copied result.1)
        ≡ tracks_then part was.entry.now (option_copied new.entry) }
{
    match part {
        PartTurn::Keeps => (was, None),
        PartTurn::Takes => (was, new),
        PartTurn::Loses => (&[], None),
    }
}

/// Whether a PLAY runs then.
fn runs_after(part: PartTurn, runs: bool) -> bool
    ensures { (running : Option ℕ) (number : ℕ) → runs ≡ is_some running
        → result ≡ is_some (part_then part running (Some number)) }
{
    match part {
        PartTurn::Keeps => runs,
        PartTurn::Takes => true,
        PartTurn::Loses => false,
    }
}

/// What becomes of the PLAYs that wait: the first of them, and how many there are.
fn queue_after(part: PartTurn, first: Option<&Play>, queued: usize) -> (Option<&Play>, usize)
    ensures { (queue : List Play) → option_copied first.entry ≡ slice_get queue 0 → queued ≡ length queue
        → (option_copied result.0 ≡ slice_get (queue_then part queue) 0)
        × (result.1 ≡ length (queue_then part queue)) }
{
    match part {
        PartTurn::Keeps | PartTurn::Takes => (first, queued),
        PartTurn::Loses => (None, 0),
    }
}

/// What becomes of a text.
fn part_after<'a>(part: PartTurn, was: Option<&'a [u8]>, new: Option<&'a [u8]>) -> Option<&'a [u8]>
    ensures valid { IfSome was.entry (λ one. is_session_id one.now ≡ true)
        → IfSome new.entry (λ one. is_session_id one.now ≡ true)
        → IfSome result (λ one. is_session_id one.now ≡ true) }
    ensures copied { option_copied result ≡ part_then part (option_copied was.entry) (option_copied new.entry) }
{
    match part {
        PartTurn::Keeps => was,
        PartTurn::Takes => new,
        PartTurn::Loses => None,
    }
}

/// The connection after the end of what plays was told of the session at a place, where one has it.
pub(crate) fn after_end(slot: &Slot, place: Option<u8>, names: Names) -> Outlook<'_>
    requires { IfSome place (λ one. one < MOST_SESSIONS) }
    ensures shows { sights_of result ≡ map sight (changed_where place (when_ended names) slot.now.sessions) }
    ensures described { option_copied result.described ≡ slot.now.described }
    ensures slot { result.slot.now ≡ slot.now }
{
    slot.keeps();
    Outlook {
        slot,
        changed: ended_where(slot, place, names),
        described: slot.described(),
    }
}

/// The session that changes by the end of what plays, and its place.
fn ended_where(slot: &Slot, place: Option<u8>, names: Names) -> Option<PlacedShowing<'_>>
    requires { IfSome place (λ one. one < MOST_SESSIONS) }
    ensures { replaced_where result (map sight slot.now.sessions)
        ≡ map sight (changed_where place (when_ended names) slot.now.sessions) }
{
    ended_at(slot, place?, names)
}

/// That at a given place, where what plays there has ended.
fn ended_at(slot: &Slot, place: u8, names: Names) -> Option<PlacedShowing<'_>>
    requires { place < MOST_SESSIONS }
    ensures { replaced_where result (map sight slot.now.sessions)
        ≡ map sight (changed_at place (when_ended names) slot.now.sessions) }
{
    if !names.ends(slot.running(place)) {
        return None;
    }
    let session = seen(slot, place, slot.state(place));
    Some(PlacedShowing {
        place,
        session: Showing {
            state: state_ended(session.state, session.queued),
            runs: false,
            ..session
        },
    })
}

/// A session in which nothing runs any longer is Ready, but for one in which PLAYs wait.
fn state_ended(state: State, queued: usize) -> State
    ensures { result ≡ (if queued == 0 then Ready else state) }
{
    if queued == 0 { State::Ready } else { state }
}
