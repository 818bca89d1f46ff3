//! What a final reply does to the sessions of a connection.
ghost use Rattle.std.specs.Prelude.{◌≡◌, ◌≤◌, ◌<◌, length, true, IsSome, IfSome};
ghost use Rattle.client_slot.specs.declared.limits.TheConstants.{LONGEST_URI};
ghost use Rattle.client_slot.specs.declared.purpose.Purpose.TheVariants as purposes;
ghost use Rattle.session_one.specs.declared.parts.TheConstants.{MOST_SESSIONS};
ghost use Rattle.client_slot.specs.Bounds.{IsPlaced, IsPlacedIn};
ghost use Rattle.client_slot.specs.NewSessions.{id_kept, described_kept};
ghost use Rattle.client_slot.specs.Places.{changed_where, session_where};
ghost use Rattle.client_slot.specs.Changes.{session_after, sessions_after, described_after};

use crate::new_session::MadeParts;
use crate::purpose::Purpose;
use crate::session::Session;
use crate::session_turn::SessionTurn;
use crate::slot::places::filled_place;
use gate_bytes::Text;
use rtsp_small::Method;
use session_one::{Asked, MOST_SESSIONS, Track, is_success};

/// A final reply to the open request.
#[derive(Drop)]
pub(crate) struct FinalReply {
    /// The number with which the request went up.
    pub number: u32,
    /// Its code.
    pub code: u16,
    /// The session that the server made for the request.
    pub made: Option<MadeParts>,
}

/// The open request, which was for this, has its final reply.
pub(crate) fn settle_sessions(
    sessions: &mut Vec<Session>,
    described: &mut Option<Text>,
    purpose: Purpose,
    reply: FinalReply,
)
    requires places { length sessions.old.items ≡ MOST_SESSIONS }
    requires placed { IsPlacedIn sessions.old.items purpose }
    requires made { IsSome reply.made → described_kept reply.made ≡ described.old }
    ensures sessions { sessions.new.items
        ≡ sessions_after purpose reply.number reply.code described.old (id_kept reply.made)
        sessions.old.items }
    ensures described { described.new ≡ described_after purpose reply.code sessions.new.items described.old }
{
    let place = purpose.settled_place(sessions, reply.made.is_some());
    match purpose {
        Purpose::Client(asked, track) => answered(sessions, described, place, asked, track, reply),
        Purpose::Released(play) => turn_at(sessions, place, Purpose::Released(play), reply),
        Purpose::Closing(closed) => turn_at(sessions, place, Purpose::Closing(closed), reply),
    }
}

/// A player's request has its final reply. It is for the session at this place, where it is for one.
fn answered(
    sessions: &mut Vec<Session>,
    described: &mut Option<Text>,
    place: Option<u8>,
    asked: Asked,
    track: Option<Track>,
    reply: FinalReply,
)
    requires places { length sessions.old.items ≡ MOST_SESSIONS }
    requires within { IfSome place (λ place. place < MOST_SESSIONS) }
    requires placed { IsPlaced (length (session_where place sessions.old.items).tracks)
        (purposes.Client asked track) }
    ensures sessions { sessions.new.items
        ≡ changed_where place
        (session_after (purposes.Client asked track) reply.number reply.code (described_kept reply.made) (id_kept reply.made))
        sessions.old.items }
    ensures described { described.new
        ≡ described_after (purposes.Client asked track) reply.code sessions.new.items described.old }
{
    let is_granted = is_success(reply.code);
    match asked.method {
        Method::Describe => {
            if is_granted {
                *described = Some(asked.uri);
            }
        }
        Method::Teardown => {
            turn_at(sessions, place, Purpose::Client(asked, track), reply);
            if is_granted && filled_place(sessions).is_none() {
                *described = None;
            }
        }
        _ => turn_at(sessions, place, Purpose::Client(asked, track), reply),
    }
}

/// The session at a place has the final reply to a request for it.
fn turn_at(sessions: &mut Vec<Session>, place: Option<u8>, purpose: Purpose, reply: FinalReply)
    requires places { length sessions.old.items ≡ MOST_SESSIONS }
    requires within { IfSome place (λ place. place < MOST_SESSIONS) }
    requires placed { IsPlaced (length (session_where place sessions.old.items).tracks) purpose }
    ensures { sessions.new.items
        ≡ changed_where place
        (session_after purpose reply.number reply.code (described_kept reply.made) (id_kept reply.made))
        sessions.old.items }
{
    if let Some(place) = place {
        turn_session(&mut sessions[usize::from(place)], purpose, reply);
    }
}

/// A session has the final reply to a request for it.
fn turn_session(session: &mut Session, purpose: Purpose, reply: FinalReply)
    requires { IsPlaced (length session.old.tracks) purpose }
    ensures { session.new
        ≡ session_after purpose reply.number reply.code (described_kept reply.made) (id_kept reply.made) session.old }
{
    let FinalReply { number, code, made } = reply;
    let turn = SessionTurn::of(session.state(), purpose.seen(), code, made.is_some());
    session.turn(turn, purpose.brings(number, made));
}
