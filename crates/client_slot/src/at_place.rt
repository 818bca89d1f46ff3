//! What changes the session at a place.
ghost use Rattle.std.specs.Prelude.{◌≡◌, ◌≤◌, ◌<◌, length, map, slice_get, IfSome, Some};
ghost use Rattle.client_slot.specs.declared.limits.TheConstants.{LONGEST_URI};
ghost use Rattle.session_one.specs.declared.parts.TheConstants.{MOST_SESSIONS};
ghost use Rattle.play_queue.specs.declared.queue.TheConstants.{MOST_PLAYS};
ghost use Rattle.session_two.specs.Ends.{end_counts};
ghost use Rattle.client_slot.specs.Places.{session_at, changed_at, changed_where, queued_at};
ghost use Rattle.client_slot.specs.SessionChanges.{when_queued, when_next, when_ended, when_unqueued};

use crate::session::Session;
use crate::waiting_play::WaitingPlay;
use session_one::{MOST_SESSIONS, Play};
use session_two::Names;

/// A PLAY waits, in its session.
pub(crate) fn queue_at(sessions: &mut Vec<Session>, play: WaitingPlay)
    requires places { length sessions.old.items ≡ MOST_SESSIONS }
    requires uri { length play.uri ≤ LONGEST_URI }
    requires room { IfSome play.place (λ place.
        (place < MOST_SESSIONS) × (length (session_at place sessions.old.items).queue < MOST_PLAYS)) }
    ensures { sessions.new.items ≡ changed_where play.place (when_queued play) sessions.old.items }
{
    if let Some(place) = play.play().place {
        sessions[usize::from(place)].queue(play);
    }
}

/// The first PLAY that waits in a session is taken out.
pub(crate) fn next_at(sessions: &mut Vec<Session>, place: u8) -> Option<Play>
    requires places { length sessions.old.items ≡ MOST_SESSIONS }
    requires within { place < MOST_SESSIONS }
    ensures first { result ≡ queued_at place sessions.old.items }
    ensures uri { IfSome result (λ play. length play.uri ≤ LONGEST_URI) }
    ensures rest { sessions.new.items ≡ changed_where (Some place) when_next sessions.old.items }
{
    sessions[usize::from(place)].next()
}

/// The end of what plays in a session was told: whether it counts.
pub(crate) fn end_at(sessions: &mut Vec<Session>, place: u8, names: Names) -> bool
    requires places { length sessions.old.items ≡ MOST_SESSIONS }
    requires within { place < MOST_SESSIONS }
    ensures counts { result ≡ end_counts (session_at place sessions.old.items).running names }
    ensures ended { sessions.new.items ≡ changed_where (Some place) (when_ended names) sessions.old.items }
{
    sessions[usize::from(place)].end(names)
}

/// No PLAY of any session waits any longer.
pub(crate) fn unqueue_all(sessions: &mut Vec<Session>)
    ensures { sessions.new.items ≡ map when_unqueued sessions.old.items }
{
    for place in 0..sessions.len() {
        sessions[place].unqueue();
    }
}
