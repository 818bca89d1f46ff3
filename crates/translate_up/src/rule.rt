//! The rules by which a request is refused that its head does not refuse, and what they let through.
ghost use Rattle.std.specs.Prelude.{◌≡◌, true, IfOk, IfErr};
ghost use Rattle.std.specs.Option.{option_copied};
ghost use Rattle.rtsp_status.specs.Reasons.{has_reason};
ghost use Rattle.translate_up.specs.Subjects.{judged_seen, IsNamedSession};
ghost use Rattle.translate_up.specs.SeenFields.{said_seen, HasWritableRange, AdmitsWritable};
ghost use Rattle.translate_up.specs.Rules.{rules_checked, names_no_session, sets_up_again, is_out_of_turn, names_one_of_many, must_wait, finds_no_place};
ghost use Rattle.translate_up.specs.Admissions.{channels_and_range};

use crate::field::{SaidFields, is_play, is_setup, is_track, needs_session};
use crate::subject::Subject;
use play_queue::MOST_PLAYS;
use rtsp_range::Range;
use rtsp_small::Method;
use rtsp_transport::Pair;
use session_one::{MOST_TRACKS, State, allowed};

/// What the rules let through, with what they read of it.
#[derive(Clone, Copy)]
pub(crate) enum Admission {
    /// A SETUP, with the channels that its player gets.
    SetUp(Pair),
    /// A PLAY, with its range where it has one.
    Played(Option<Range>),
    /// Any other request.
    Other,
}

/// What the rules let through of a request with this URI on its way up, or the code of the first rule
/// that refuses it.
pub(crate) fn check_rules(
    subject: &Subject<'_, '_, '_>,
    method: Method,
    said: &SaidFields<'_>,
    uri: &[u8],
) -> Result<Admission, u16>
    requires writable { HasWritableRange said.now }
    requires named { IsNamedSession (judged_seen subject.now).session (said_seen said.now).session }
    ensures checked { result ≡ rules_checked (judged_seen subject.now) method (said_seen said.now) uri.now }
    ensures reason { IfErr result (λ code. has_reason code ≡ true) }
    ensures range { IfOk result AdmitsWritable }
{
    if names_no_session(method, subject.session, said.session) {
        return Err(454);
    }
    if is_out_of_turn(subject, method, said, uri) {
        return Err(455);
    }
    if names_one_of_many(subject, method, uri) {
        return Err(460);
    }
    let admission = admit(method, said)?;
    if is_setup(method) && subject.view.full {
        return Err(453);
    }
    if finds_no_place(subject, method, said) {
        return Err(503);
    }
    Ok(admission)
}

/// What is let through of a request by its channels and its range.
fn admit(method: Method, said: &SaidFields<'_>) -> Result<Admission, u16>
    requires { HasWritableRange said.now }
    ensures checked { result ≡ channels_and_range method (said_seen said.now) }
    ensures reason { IfErr result (λ code. has_reason code ≡ true) }
    ensures range { IfOk result AdmitsWritable }
{
    match method {
        Method::Setup => match said.channels {
            Some(pair) => Ok(Admission::SetUp(pair)),
            None => Err(461),
        },
        Method::Play => match said.range {
            Some(Ok(range)) => Ok(Admission::Played(Some(range))),
            Some(Err(_)) => Err(457),
            None => Ok(Admission::Played(None)),
        },
        Method::Pause if said.range.is_some() => Err(457),
        _ => Ok(Admission::Other),
    }
}

/// Whether a Session field names no session of the player's, or is missing where there must be one. The session is that which
/// the field names.
fn names_no_session(method: Method, session: Option<&[u8]>, field: Option<&[u8]>) -> bool
    requires { IsNamedSession (option_copied session) (option_copied field) }
    ensures { result ≡ names_no_session method (option_copied session.entry) (option_copied field.entry) }
{
    match field {
        Some(_) => session.is_none(),
        None => needs_session(method),
    }
}

/// Whether the table of states has no row for a request, or a stream would be set up again.
fn is_out_of_turn(
    subject: &Subject<'_, '_, '_>,
    method: Method,
    said: &SaidFields<'_>,
    uri: &[u8],
) -> bool
    ensures { result ≡ is_out_of_turn (judged_seen subject.now) method (said_seen said.now) uri.now }
{
    !allowed(subject.state, method) || sets_up_again(subject, method, said, uri)
}

/// Whether there is no place for the session that a SETUP would make, or its session has the stream.
fn sets_up_again(
    subject: &Subject<'_, '_, '_>,
    method: Method,
    said: &SaidFields<'_>,
    uri: &[u8],
) -> bool
    ensures { result ≡ sets_up_again (judged_seen subject.now) method (said_seen said.now) uri.now }
{
    let finds_no_room = !said.is_named() && !subject.has_room();
    is_setup(method) && (finds_no_room || is_track(subject.tracks, uri))
}

/// Whether one of several streams is named, which are played, paused and torn down together.
fn names_one_of_many(subject: &Subject<'_, '_, '_>, method: Method, uri: &[u8]) -> bool
    ensures { result ≡ names_one_of_many (judged_seen subject.now) method uri.now }
{
    needs_session(method) && (is_track(subject.tracks, uri) && subject.tracks.len() >= 2)
}

/// Whether a PLAY would wait for what plays.
fn must_wait(subject: &Subject<'_, '_, '_>, method: Method, said: &SaidFields<'_>) -> bool
    ensures { result ≡ must_wait (judged_seen subject.now) method (said_seen said.now) }
{
    let plays = is_play(method) && subject.state == State::Playing;
    plays && said.range.is_some()
}

/// Whether the session of a SETUP has all its streams, or as many PLAYs wait as may.
fn finds_no_place(subject: &Subject<'_, '_, '_>, method: Method, said: &SaidFields<'_>) -> bool
    ensures { result ≡ finds_no_place (judged_seen subject.now) method (said_seen said.now) }
{
    let is_whole = is_setup(method) && subject.tracks.len() >= MOST_TRACKS;
    is_whole || (must_wait(subject, method, said) && subject.queued >= MOST_PLAYS)
}
