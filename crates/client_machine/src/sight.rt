//! What a connection shows to the requests that are treated once an event is heard.
ghost use Rattle.std.specs.Prelude.{◌≡◌, ◌<◌, [], ◌∷◌, true, is_some, map, length, slice_index_or, slice_set, List, Some, None, IfOk, IfSome};
ghost use Rattle.std.specs.Option.{option_copied};
ghost use Rattle.session_one.specs.declared.parts.TheConstants.{MOST_SESSIONS, MOST_TRACKS};
ghost use Rattle.rtsp_small.specs.Sessions.{is_session_id};
ghost use Rattle.translate_up.specs.Views.{session_shown, no_session};
ghost use Rattle.client_slot.specs.Places.{session_at};
ghost use Rattle.client_machine.specs.Sights.{sight, sight_of, sight_at, sight_where, with_added, due_seen, has_due_seen, filled_seen, session_in_sight, id_changed, IsTidySight};
ghost use Rattle.client_machine.specs.Outlooks.{sights_of, streams_changed};

use crate::outlook::Outlook;
use client_slot::Slot;
use gate_bytes::Memory;
use session_one::{MOST_SESSIONS, Play, State, Track};
use std::alloc::Global;
use translate_up::SessionView;

/// A session as it is, or as it will be after an event.
#[derive(Clone, Copy)]
pub(crate) struct Showing<'a> {
    /// Its state.
    pub state: State,
    /// Its id, where it has one.
    pub id: Option<&'a [u8]>,
    /// The URI that stands for what it is about.
    pub control: Option<&'a [u8]>,
    /// Its streams but for the one that the event adds.
    pub tracks: &'a [Track],
    /// The stream that the event adds.
    pub added: Option<&'a Track>,
    /// Whether a PLAY runs.
    pub runs: bool,
    /// The first PLAY that waits.
    pub first: Option<&'a Play>,
    /// How many PLAYs wait.
    pub queued: usize,
}

/// A session and its place.
#[derive(Clone, Copy)]
pub(crate) struct PlacedShowing<'a> {
    /// Its place.
    pub place: u8,
    /// What it shows.
    pub session: Showing<'a>,
}

impl<'a> Outlook<'a> {
    /// A connection as it is.
    pub fn now(slot: &'a Slot) -> Outlook<'a>
        ensures sights { sights_of result ≡ map sight slot.entry.now.sessions }
        ensures described { option_copied result.described ≡ slot.entry.now.described }
        ensures slot { result.slot.now ≡ slot.entry.now }
        ensures same { result.changed ≡ None }
    {
        slot.keeps();
        Outlook {
            slot,
            changed: None,
            described: slot.described(),
        }
    }

    /// The id of the session that changes, as it will be.
    pub fn changed_id(&self) -> Option<&'a [u8]>
        ensures { result ≡ id_changed self.now.changed }
    {
        match self.changed {
            Some(changed) => changed.session.id,
            None => None,
        }
    }

    /// What the session at a place shows.
    pub fn session(&self, place: u8) -> Showing<'a>
        requires { place < MOST_SESSIONS }
        ensures { sight_of result ≡ sight_where (Some place) (sights_of self.now) }
    {
        match self.changed {
            Some(changed) if changed.place == place => changed.session,
            _ => seen(self.slot, place, self.slot.state(place)),
        }
    }

    /// The streams of the session that the event changes, as they will be.
    pub fn streams(&self, alloc: Global) -> Result<Vec<Track>, Memory>
        ensures { IfOk result (λ all. all.items ≡ streams_changed self.now) }
    {
        match self.changed {
            Some(changed) => with_one_more(alloc, changed.session.tracks, changed.session.added),
            None => Ok(Vec::new(alloc)),
        }
    }

    /// The sessions as a request finds them, where these are the streams of that which the event changes.
    pub fn sessions<'v>(&self, streams: &'v [Track]) -> [Option<SessionView<'a, 'v>>; MOST_SESSIONS]
    where
        'a: 'v,
        ensures { streams.entry.now ≡ streams_changed self.entry.now
            → map session_shown result ≡ map session_in_sight (sights_of self.entry.now) }
    {
        [
            self.session_view(0, streams),
            self.session_view(1, streams),
            self.session_view(2, streams),
            self.session_view(3, streams),
        ]
    }

    /// The session at a place as a request finds it.
    fn session_view<'v>(&self, place: u8, streams: &'v [Track]) -> Option<SessionView<'a, 'v>>
    where
        'a: 'v,
        requires { place < MOST_SESSIONS }
        ensures { streams.entry.now ≡ streams_changed self.entry.now
            → session_shown result ≡ session_in_sight (sight_at place (sights_of self.entry.now)) }
    {
        match self.changed {
            Some(changed) if changed.place == place => view_of(changed.session, streams),
            _ => {
                // Most places are empty.
                self.slot.session(place)?;
                let now = seen(self.slot, place, self.slot.state(place));
                view_of(now, now.tracks)
            }
        }
    }

    /// The place that has a PLAY due, where no request is open.
    pub fn due_place(&self) -> Option<u8>
        ensures place { result ≡ due_seen (sights_of self.now) }
        ensures within { IfSome result (λ place. place < MOST_SESSIONS) }
    {
        for place in 0..MOST_SESSIONS {
            if self.session(place as u8).has_due() {
                return Some(place as u8);
            }
        }
        None
    }

    /// Whether a session is left.
    pub fn has_session(&self) -> bool
        ensures { result ≡ is_some (filled_seen (sights_of self.now)) }
    {
        for place in 0..MOST_SESSIONS {
            if self.session(place as u8).id.is_some() {
                return true;
            }
        }
        false
    }
}

impl<'a> Showing<'a> {
    /// Whether a PLAY waits, and none runs.
    pub fn has_due(&self) -> bool
        ensures { result ≡ has_due_seen (sight_of self.now) }
    {
        !self.runs && self.first.is_some()
    }
}

/// A session as a request finds it, with these streams.
fn view_of<'a, 'v>(showing: Showing<'a>, tracks: &'v [Track]) -> Option<SessionView<'a, 'v>>
where
    'a: 'v,
    requires { IsTidySight (sight_of showing) }
    ensures { tracks.entry.now ≡ (sight_of showing.entry).tracks
        → session_shown result ≡ session_in_sight (sight_of showing.entry) }
{
    Some(SessionView {
        id: showing.id?,
        state: showing.state,
        tracks,
        queued: showing.queued,
        control: showing.control?,
    })
}

/// The session at a place as it is, but for its state.
pub(crate) fn seen(slot: &Slot, place: u8, state: State) -> Showing<'_>
    requires { place < MOST_SESSIONS }
    ensures shows { sight_of result ≡ sight (record (session_at place slot.now.sessions) { state = state }) }
    ensures tracks { result.tracks.now ≡ (session_at place slot.now.sessions).tracks }
    ensures valid { IfSome result.id (λ id. is_session_id id.now ≡ true) }
{
    Showing {
        state,
        id: slot.session(place),
        control: slot.control(place),
        tracks: slot.tracks(place),
        added: None,
        runs: slot.running(place).is_some(),
        first: slot.first_queued(place),
        queued: slot.queued(place),
    }
}

/// The sessions of a connection as a request finds them now, in place of none. Most places are empty, and are left as they are.
pub(crate) fn see_sessions<'v>(
    slot: &'v Slot,
    sessions: &mut [Option<SessionView<'v, 'v>>; MOST_SESSIONS],
)
    requires { sessions.old ≡ None ∷ None ∷ None ∷ None ∷ [] }
    ensures shown { map session_shown sessions.new ≡ map session_in_sight (map sight slot.entry.now.sessions) }
    ensures four { length sessions.new ≡ MOST_SESSIONS }
{
    slot.keeps();
    see_session(slot, 0, sessions);
    see_session(slot, 1, sessions);
    see_session(slot, 2, sessions);
    see_session(slot, 3, sessions);
}

/// The session at a place as a request finds it now, in place of none.
fn see_session<'v>(
    slot: &'v Slot,
    place: u8,
    sessions: &mut [Option<SessionView<'v, 'v>>; MOST_SESSIONS],
)
    requires place { place < MOST_SESSIONS }
    requires none { slice_index_or (map session_shown sessions.old) place no_session ≡ no_session }
    ensures four { length sessions.old ≡ MOST_SESSIONS → length sessions.new ≡ MOST_SESSIONS }
    ensures shown { map session_shown sessions.new
        ≡ slice_set (map session_shown sessions.old) place
        (session_in_sight (sight (session_at place slot.entry.now.sessions))) }
{
    slot.keeps();
    if let Some(id) = slot.session(place) {
        sessions[usize::from(place)] = Some(view_now(slot, place, id));
    }
}

/// The session at a place, which has this id, as a request finds it now. It is not inlined, since most places are empty.
#[inline(never)]
fn view_now<'v>(slot: &'v Slot, place: u8, id: &'v [u8]) -> SessionView<'v, 'v>
    requires place { place < MOST_SESSIONS }
    requires id { (session_at place slot.now.sessions).id ≡ Some id.now }
    ensures { session_shown (Some result) ≡ session_in_sight (sight (session_at place slot.entry.now.sessions)) }
{
    slot.keeps();
    let Some(control) = slot.control(place) else {
        unreachable!();
    };
    SessionView {
        id,
        state: slot.state(place),
        tracks: slot.tracks(place),
        queued: slot.queued(place),
        control,
    }
}

/// Copies of the streams, with one more.
fn with_one_more(
    alloc: Global,
    tracks: &[Track],
    added: Option<&Track>,
) -> Result<Vec<Track>, Memory>
    ensures { IfOk result (λ all. all.items ≡ with_added tracks.now (option_copied added.entry)) }
{
    let mut all = Vec::new(alloc);
    for track in tracks {
        all.push(track.try_clone(alloc)?)?;
    }
    if let Some(added) = added {
        all.push(added.try_clone(alloc)?)?;
    }
    Ok(all)
}
