//! What the request is for that is open at the server.
ghost use Rattle.std.specs.Prelude.{◌≡◌, ◌≤◌, ℕ, List, Option, is_some, length, true, IfSome};
ghost use Rattle.session_one.specs.declared.parts.TheConstants.{MOST_SESSIONS};
ghost use Rattle.rtsp_small.specs.Sessions.{is_session_id};
ghost use Rattle.client_slot.specs.declared.limits.TheConstants.{LONGEST_URI};
ghost use Rattle.client_slot.specs.Bounds.{HasShortUri};
ghost use Rattle.client_slot.specs.ShortUris.{is_short_where};
ghost use Rattle.client_slot.specs.Gains.{brought_seen};
ghost use Rattle.client_slot.specs.NewSessions.{id_kept, described_kept};
ghost use Rattle.client_slot.specs.SessionTurns.{brought_by, control_by};
ghost use Rattle.client_slot.specs.Changes.{purpose_place, settled_place};
ghost use Rattle.client_slot.specs.Purposes.{settled_as, purpose_seen};

use crate::gain::BroughtParts;
use crate::new_session::MadeParts;
use crate::session::Session;
use crate::slot::places::empty_place;
use gate_bytes::Text;
use rtsp_small::Method;
use session_one::{Asked, Play, Track};

/// What the open request of a connection is for, as it is kept.
#[derive(Drop)]
pub(crate) enum Purpose {
    /// The player asked it. A SETUP comes with the stream that it sets up.
    Client(Asked, Option<Track>),
    /// It is a PLAY that waited in the queue.
    Released(Play),
    /// It is the TEARDOWN of the session at this place, of a connection that closed.
    Closing(u8),
}

/// What the open request of a connection is for.
#[derive(Clone, Copy)]
pub enum Pending<'a> {
    /// The player asked it. A SETUP comes with the stream that it sets up.
    Client(&'a Asked, Option<&'a Track>),
    /// It is a PLAY that waited in the queue.
    Released(&'a Play),
    /// It is the TEARDOWN of the session at this place, of a connection that closed.
    Closing(u8),
}

/// What the request was for that a final reply answered.
#[derive(Clone, Copy, Debug, PartialEq, Eq)]
pub enum Settled {
    /// The player's request with this method.
    Client(Method),
    /// A PLAY that waited in the queue.
    Released,
    /// The TEARDOWN of a connection that closed.
    Closing,
}

impl Purpose {
    /// What it is called once it is settled.
    pub fn settled(&self) -> Settled
        ensures { result ≡ settled_as self.now }
    {
        match self {
            Purpose::Client(asked, _) => Settled::Client(asked.method),
            Purpose::Released(_) => Settled::Released,
            Purpose::Closing(_) => Settled::Closing,
        }
    }

    /// The place of the session that it is for. A SETUP that names none is for the lowest empty place.
    pub fn place(&self, sessions: &[Session]) -> Option<u8>
        requires { length sessions.now ≤ MOST_SESSIONS }
        ensures { result ≡ purpose_place self.now sessions.now }
    {
        match self {
            Purpose::Client(asked, _) => match asked.place {
                Some(place) => Some(place),
                None if asked.method == Method::Setup => empty_place(sessions),
                None => None,
            },
            Purpose::Released(play) => play.place,
            Purpose::Closing(place) => Some(*place),
        }
    }

    /// The place of the session that its final reply changes: the server made one, or not.
    pub fn settled_place(&self, sessions: &[Session], is_made: bool) -> Option<u8>
        requires { length sessions.now ≤ MOST_SESSIONS }
        ensures { (id : Option (List ℕ)) → is_some id ≡ is_made
            → result ≡ settled_place self.now id sessions.now }
    {
        match self {
            Purpose::Client(asked, _) if asked.place.is_none() && !is_made => None,
            _ => self.place(sessions),
        }
    }

    /// It, lent.
    pub fn seen(&self) -> Pending<'_>
        ensures { purpose_seen result ≡ self.now }
    {
        match self {
            Purpose::Client(asked, track) => Pending::Client(asked, track.as_ref()),
            Purpose::Released(play) => Pending::Released(play),
            Purpose::Closing(place) => Pending::Closing(*place),
        }
    }

    /// What it and its reply bring to its session: the number with which it went up, and the session
    /// that the server made for it.
    pub fn brings(self, number: u32, made: Option<MadeParts>) -> BroughtParts
        requires { HasShortUri self }
        ensures brought { brought_seen result
            ≡ brought_by self number (described_kept made) (id_kept made) }
        ensures uri { IfSome result.control (λ uri. length uri ≤ LONGEST_URI) }
        ensures id { IfSome result.id (λ id. is_session_id id ≡ true) }
    {
        let (id, described) = match made {
            Some(MadeParts { id, described }) => (Some(id), described),
            None => (None, None),
        };
        let (control, track) = match self {
            Purpose::Client(asked, track) => (control_of(asked, described), track),
            Purpose::Released(play) => (Some(play.uri), None),
            Purpose::Closing(_) => (None, None),
        };
        BroughtParts {
            number,
            control,
            id,
            track,
        }
    }
}

/// What a session is about then.
fn control_of(asked: Asked, described: Option<Text>) -> Option<Text>
    requires uri { length asked.uri ≤ LONGEST_URI }
    requires described { is_short_where described ≡ true }
    ensures control { result ≡ control_by asked.method asked.uri described }
    ensures short { IfSome result (λ uri. length uri ≤ LONGEST_URI) }
{
    match asked.method {
        Method::Describe => None,
        Method::Setup => match described {
            Some(uri) => Some(uri),
            None => Some(asked.uri),
        },
        _ => Some(asked.uri),
    }
}
