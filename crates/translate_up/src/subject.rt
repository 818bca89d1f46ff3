//! The session that a request is for.
ghost use Rattle.std.specs.Prelude.{◌≡◌, ◌<◌, ◌≤◌, length, map, is_none, slice_index_or, None, Some, IfSome};
ghost use Rattle.std.specs.List.{list_any};
ghost use Rattle.std.specs.Option.{option_copied};
ghost use Rattle.translate_up.specs.Views.{given_of, session_shown, session_or_none, place_with_id, place_named, judged_at, judged_by};
ghost use Rattle.translate_up.specs.Ids.{are_same};
ghost use Rattle.session_one.specs.declared.parts.TheConstants.{MOST_SESSIONS};
ghost use Rattle.translate_up.specs.Subjects.{judged_seen, IsNamedSession};

use crate::view::{SessionView, View};
use rtsp_small::read_session;
use session_one::{MOST_SESSIONS, State, Track};

/// The session that a request names, as the request finds it. A request that names none finds an empty
/// place.
#[derive(Clone, Copy)]
pub(crate) struct Subject<'v, 's, 'a> {
    /// Its place, where the request names it.
    pub(crate) place: Option<u8>,
    /// Its state.
    pub(crate) state: State,
    /// Its id.
    pub(crate) session: Option<&'s [u8]>,
    /// Its streams.
    pub(crate) tracks: &'v [Track],
    /// How many PLAYs wait.
    pub(crate) queued: usize,
    /// What it is about, or else what was described, where one of them is known.
    pub(crate) control: Option<&'s [u8]>,
    /// The connection.
    pub(crate) view: &'v View<'s, 'a>,
}

impl<'v, 's, 'a> Subject<'v, 's, 'a> {
    /// The session that a Session field names, where there is one.
    pub(crate) fn named(view: &'v View<'s, 'a>, field: Option<&[u8]>) -> Subject<'v, 's, 'a>
        ensures judged { judged_seen result ≡ judged_by (given_of view.entry.now) (option_copied field.entry) }
        ensures named { IsNamedSession (judged_seen result).session (option_copied field.entry) }
    {
        match place_named(view, field) {
            Some(place) => Subject::at(view, Some(place), session_at(view.sessions, place)),
            None => Subject::at(view, None, None),
        }
    }

    /// The session at a place, as it is seen.
    fn at(
        view: &'v View<'s, 'a>,
        place: Option<u8>,
        session: Option<SessionView<'s, 'a>>,
    ) -> Subject<'v, 's, 'a>
        requires { session_or_none place (given_of view.now).sessions ≡ session_shown session }
        ensures { judged_seen result ≡ judged_at (given_of view.entry.now) place }
    {
        let Some(session) = session else {
            return Subject {
                place,
                state: State::Init,
                session: None,
                tracks: &[],
                queued: 0,
                control: view.described,
                view,
            };
        };
        Subject {
            place,
            state: session.state,
            session: Some(session.id),
            tracks: session.tracks,
            queued: session.queued,
            control: Some(session.control),
            view,
        }
    }

    /// Whether a place is empty.
    pub(crate) fn has_room(&self) -> bool
        ensures { result ≡ (judged_seen self.now).has_room }
    {
        has_empty(self.view.sessions)
    }
}

/// The session at a place.
fn session_at<'s, 'a>(
    sessions: &[Option<SessionView<'s, 'a>>],
    place: u8,
) -> Option<SessionView<'s, 'a>>
    ensures { result ≡ slice_index_or sessions.now place None }
{
    match sessions.get(usize::from(place)) {
        Some(session) => *session,
        None => None,
    }
}

/// Whether a place is empty.
fn has_empty(sessions: &[Option<SessionView<'_, '_>>]) -> bool
    ensures { result ≡ list_any (λ one. is_none one) sessions.now }
{
    sessions.iter().any(|session| session.is_none())
}

/// The place of the session that a Session field names.
fn place_named(view: &View<'_, '_>, field: Option<&[u8]>) -> Option<u8>
    ensures place { result ≡ place_named (option_copied field.entry) (given_of view.now).sessions }
    ensures within { IfSome result (λ place. place < MOST_SESSIONS) }
{
    let named = read_session(field?)?;
    place_of(view.sessions, named.id)
}

/// The place of the session with an id.
fn place_of(sessions: &[Option<SessionView<'_, '_>>], id: &[u8]) -> Option<u8>
    requires { length sessions.now ≤ MOST_SESSIONS }
    ensures place { result ≡ place_with_id id.now (map session_shown sessions.now) }
    ensures within { IfSome result (λ place. place < MOST_SESSIONS) }
{
    for (place, session) in sessions.iter().enumerate() {
        if has_id(session, id) {
            return Some(place as u8);
        }
    }
    None
}

/// Whether a session, where there is one, has an id.
fn has_id(session: &Option<SessionView<'_, '_>>, id: &[u8]) -> bool
    ensures { result ≡ are_same (session_shown session.now).id (Some id.now) }
{
    match session {
        Some(session) => session.id == id,
        None => false,
    }
}
