//! The states of a session, and which method leads from one to which.
ghost use Rattle.std.specs.Prelude.{◌≡◌};
ghost use Rattle.session_one.specs.Table.{next_of, is_allowed, state_after, is_success};

use rtsp_small::Method;
use rtsp_status::{FIRST_SUCCESS, LAST_SUCCESS};

/// The state of a session (RFC 2326, A.2).
#[derive(Clone, Copy, Debug, PartialEq, Eq)]
pub enum State {
    /// Nothing is set up.
    Init,
    /// A stream is set up, and none plays.
    Ready,
    /// The streams play.
    Playing,
}

/// Whether a player may ask for a method in a state: the table has a row for both.
pub fn allowed(state: State, method: Method) -> bool
    ensures { result ≡ is_allowed state method }
{
    next(state, method).is_some()
}

/// The state after a reply with this code to a request with this method: a success goes by the
/// table, and every other code leaves the state. So does a success that has no row.
pub fn after(state: State, method: Method, code: u16) -> State
    ensures { result ≡ state_after state method code }
{
    if is_success(code) {
        next(state, method).unwrap_or(state)
    } else {
        state
    }
}

/// Whether a code is one of success (RFC 2326, 7.1.1; RFC 7826, 17).
pub fn is_success(code: u16) -> bool
    ensures { result ≡ is_success code }
{
    (FIRST_SUCCESS..=LAST_SUCCESS).contains(&code)
}

/// The state that the table's row for a state and a method has, where there is such a row.
fn next(state: State, method: Method) -> Option<State>
    ensures { result ≡ next_of state method }
{
    match (state, method) {
        (State::Init | State::Ready, Method::Setup) => Some(State::Ready),
        (State::Ready | State::Playing, Method::Play) => Some(State::Playing),
        (State::Playing, Method::Pause) => Some(State::Ready),
        (State::Ready | State::Playing, Method::Teardown) => Some(State::Init),
        (_, Method::Options | Method::Describe | Method::GetParameter | Method::SetParameter) =>
            Some(state),
        _ => None,
    }
}
