//! What a final reply makes of a session: the one place that says so, for each method.
ghost use Rattle.std.specs.Prelude.{◌≡◌};
ghost use Rattle.client_slot.specs.Purposes.{purpose_seen};
ghost use Rattle.client_slot.specs.SessionTurns.{moved_turn, gone_turn, granted_turn, released_turn, reply_turn};

use crate::purpose::Pending;
use rtsp_small::Method;
use session_one::{State, after, is_success};

/// What becomes of a part of a session.
#[derive(Clone, Copy, Debug, PartialEq, Eq)]
pub enum PartTurn {
    /// It stays.
    Keeps,
    /// It is what the request or its reply brings; a stream comes to those that are there.
    Takes,
    /// It goes.
    Loses,
}

/// What an event makes of a session, part by part. It is made when the event is planned, read by what is
/// decided in its light, and applied when the event is carried out.
#[derive(Clone, Copy, Debug, PartialEq, Eq)]
pub struct SessionTurn {
    /// Its state then.
    pub state: State,
    /// Its id.
    pub id: PartTurn,
    /// The URI that stands for what it is about.
    pub control: PartTurn,
    /// Its streams.
    pub tracks: PartTurn,
    /// The PLAY that runs.
    pub running: PartTurn,
    /// The PLAYs that wait.
    pub queue: PartTurn,
}

impl SessionTurn {
    /// What the final reply with this code to a request makes of a session in this state. The server
    /// made the session, or not.
    pub fn of(state: State, pending: Pending<'_>, code: u16, is_made: bool) -> SessionTurn
        ensures { result ≡ reply_turn (purpose_seen pending.entry) code is_made state }
    {
        match pending {
            Pending::Client(asked, _) if is_success(code) => {
                SessionTurn::granted(asked.method, is_made, after(state, asked.method, code))
            }
            Pending::Client(_, _) => SessionTurn::moved(state),
            Pending::Released(_) => SessionTurn::released(state, is_success(code)),
            Pending::Closing(_) => SessionTurn::gone(),
        }
    }

    /// Nothing but the state changes.
    fn moved(state: State) -> SessionTurn
        ensures { result ≡ moved_turn state }
    {
        SessionTurn {
            state,
            id: PartTurn::Keeps,
            control: PartTurn::Keeps,
            tracks: PartTurn::Keeps,
            running: PartTurn::Keeps,
            queue: PartTurn::Keeps,
        }
    }

    /// Nothing is left.
    fn gone() -> SessionTurn
        ensures { result ≡ gone_turn }
    {
        SessionTurn {
            state: State::Init,
            id: PartTurn::Loses,
            control: PartTurn::Loses,
            tracks: PartTurn::Loses,
            running: PartTurn::Loses,
            queue: PartTurn::Loses,
        }
    }

    /// The success of a player's request, after which the session has this state.
    fn granted(method: Method, is_made: bool, state: State) -> SessionTurn
        ensures { result ≡ granted_turn method is_made state }
    {
        let moved = SessionTurn::moved(state);
        match method {
            Method::Setup if is_made => SessionTurn {
                id: PartTurn::Takes,
                control: PartTurn::Takes,
                tracks: PartTurn::Takes,
                ..moved
            },
            Method::Setup => SessionTurn {
                tracks: PartTurn::Takes,
                ..moved
            },
            Method::Play => SessionTurn {
                control: PartTurn::Takes,
                running: PartTurn::Takes,
                ..moved
            },
            Method::Pause => SessionTurn {
                running: PartTurn::Loses,
                queue: PartTurn::Loses,
                ..moved
            },
            Method::Teardown => SessionTurn::gone(),
            Method::Options | Method::Describe | Method::GetParameter | Method::SetParameter =>
                moved,
        }
    }

    /// The final reply to a PLAY that waited.
    fn released(state: State, is_success: bool) -> SessionTurn
        ensures { result ≡ released_turn is_success state }
    {
        if is_success {
            SessionTurn {
                control: PartTurn::Takes,
                running: PartTurn::Takes,
                ..SessionTurn::moved(state)
            }
        } else {
            SessionTurn {
                running: PartTurn::Loses,
                queue: PartTurn::Loses,
                ..SessionTurn::moved(State::Ready)
            }
        }
    }
}
