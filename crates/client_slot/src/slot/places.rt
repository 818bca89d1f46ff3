//! The places of a connection's sessions.
ghost use Rattle.std.specs.Prelude.{◌≡◌, ◌<◌, ◌≤◌, true, length, IfSome};
ghost use Rattle.session_one.specs.declared.parts.TheConstants.{MOST_SESSIONS};
ghost use Rattle.client_slot.specs.Places.{is_session, first_place, place_with, empty_place, filled_place, has_due};

use super::Slot;
use crate::session::Session;
use session_one::Play;

impl Slot {
    ghost use Rattle.std.specs.Prelude.{◌≡◌, ◌<◌, option_map, IfSome};
    ghost use Rattle.std.specs.Prelude.{ℕ, List, Option, is_some};
    ghost use Rattle.std.specs.Option.{option_and_then};
    ghost use Rattle.client_slot.specs.Changes.{due_place, due_play, closing_place, settled_place};

    /// The place of the session with an id.
    pub fn find(&self, id: &[u8]) -> Option<u8>
        ensures place { result ≡ place_with id.now self.now.sessions }
        ensures within { IfSome result (λ place. place < MOST_SESSIONS) }
    {
        place_with(&self.sessions, id)
    }

    /// The place whose PLAY is to go up now: the lowest with one that waits and none that runs, where no
    /// request is open.
    pub fn due_place(&self) -> Option<u8>
        ensures place { result ≡ due_place self.now }
        ensures within { IfSome result (λ place. place < MOST_SESSIONS) }
    {
        if self.pending.is_some() {
            return None;
        }
        first_due(&self.sessions)
    }

    /// The PLAY that is to go up now, where one is.
    pub fn due(&self) -> Option<&Play>
        ensures { option_map (λ play. play.now) result ≡ due_play self.now }
    {
        let place = self.due_place()?;
        self.first_queued(place)
    }

    /// The place of the session that the final reply to the open request changes: the server made one,
    /// or not.
    pub fn settled_place(&self, is_made: bool) -> Option<u8>
        ensures place { (id : Option (List ℕ)) → is_some id ≡ is_made
            → result ≡ option_and_then (λ purpose. settled_place purpose id self.now.sessions) self.now.pending }
        ensures within { IfSome result (λ place. place < MOST_SESSIONS) }
    {
        match &self.pending {
            Some(purpose) => purpose.settled_place(&self.sessions, is_made),
            None => None,
        }
    }

    /// The place whose closing TEARDOWN is to go up now: the lowest with a session, where the connection
    /// closed and no request is open.
    pub fn closing_place(&self) -> Option<u8>
        ensures place { result ≡ closing_place self.now }
        ensures within { IfSome result (λ place. place < MOST_SESSIONS) }
    {
        if self.alive || self.pending.is_some() {
            return None;
        }
        filled_place(&self.sessions)
    }
}

/// The place of the session with an id.
fn place_with(sessions: &[Session], id: &[u8]) -> Option<u8>
    requires { length sessions.now ≤ MOST_SESSIONS }
    ensures place { result ≡ place_with id.now sessions.now }
    ensures within { IfSome result (λ place. place < MOST_SESSIONS) }
{
    for (place, session) in sessions.iter().enumerate() {
        if session.has_id(id) {
            return Some(place as u8);
        }
    }
    None
}

/// The lowest place that has a PLAY due.
fn first_due(sessions: &[Session]) -> Option<u8>
    requires { length sessions.now ≤ MOST_SESSIONS }
    ensures place { result ≡ first_place has_due 0 sessions.now }
    ensures within { IfSome result (λ place. place < MOST_SESSIONS) }
{
    for (place, session) in sessions.iter().enumerate() {
        if session.has_due() {
            return Some(place as u8);
        }
    }
    None
}

/// The lowest place that is empty.
pub(crate) fn empty_place(sessions: &[Session]) -> Option<u8>
    requires { length sessions.now ≤ MOST_SESSIONS }
    ensures place { result ≡ empty_place sessions.now }
    ensures within { IfSome result (λ place. place < MOST_SESSIONS) }
{
    for (place, session) in sessions.iter().enumerate() {
        if !session.is_set_up() {
            return Some(place as u8);
        }
    }
    None
}

/// The lowest place that has a session.
pub(crate) fn filled_place(sessions: &[Session]) -> Option<u8>
    requires { length sessions.now ≤ MOST_SESSIONS }
    ensures place { result ≡ filled_place sessions.now }
    ensures within { IfSome result (λ place. place < MOST_SESSIONS) }
{
    for (place, session) in sessions.iter().enumerate() {
        if session.is_set_up() {
            return Some(place as u8);
        }
    }
    None
}
