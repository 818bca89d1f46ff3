//! The channels of a stream on the player's connection.
ghost use Rattle.std.specs.Prelude.{◌≡◌, ◌<◌};
ghost use Rattle.std.specs.List.{list_any};
ghost use Rattle.std.specs.Option.{option_copied};
ghost use Rattle.translate_up.specs.Views.{session_shown, tracks_shown};
ghost use Rattle.translate_up.specs.Channels.{share, is_taken, pair_at, free_pair, client_pair};

use crate::view::SessionView;
use rtsp_transport::{Pair, Wanted, pick};
use session_one::Track;

/// The pair that a player gets whose SETUP has this Transport field: the one that it asks for, where
/// no channel of it is taken, and where it asks for none, the lowest free one. There is none where
/// the field is missing or of no use.
pub(crate) fn client_pair(
    sessions: &[Option<SessionView<'_, '_>>],
    transport: Option<&[u8]>,
) -> Option<Pair>
    ensures { result ≡ client_pair (tracks_shown sessions.now) (option_copied transport.entry) }
{
    match pick(transport?) {
        Ok(Wanted::Any) => Some(free_pair(sessions)),
        Ok(Wanted::Exact(pair)) => {
            if is_taken(sessions, pair) {
                None
            } else {
                Some(pair)
            }
        }
        Err(_) => None,
    }
}

/// The pair of the lowest even channel that is free with the next one.
fn free_pair(sessions: &[Option<SessionView<'_, '_>>]) -> Pair
    ensures { result ≡ free_pair (tracks_shown sessions.now) }
{
    for half in 0..127 {
        let pair = pair_at(2 * half);
        if !is_taken(sessions, pair) {
            return pair;
        }
    }
    pair_at(254)
}

/// A channel and the next one.
fn pair_at(rtp: u8) -> Pair
    requires { rtp < 255 }
    ensures { result ≡ pair_at rtp }
{
    Pair { rtp, rtcp: rtp + 1 }
}

/// Whether a channel of a pair is one of a stream that was set up.
fn is_taken(sessions: &[Option<SessionView<'_, '_>>], pair: Pair) -> bool
    ensures { result ≡ is_taken (tracks_shown sessions.now) pair }
{
    is_taken_among(sessions, pair)
}

/// Whether a channel of a pair is one of a stream of some session.
fn is_taken_among(sessions: &[Option<SessionView<'_, '_>>], pair: Pair) -> bool
    ensures { result ≡ list_any (λ one. is_taken (session_shown one).tracks pair) sessions.now }
{
    sessions.iter().any(|session| is_taken_by(session, pair))
}

/// Whether a channel of a pair is one of a stream of a session, where there is one.
fn is_taken_by(session: &Option<SessionView<'_, '_>>, pair: Pair) -> bool
    ensures { result ≡ is_taken (session_shown session.now).tracks pair }
{
    match session {
        Some(session) => is_taken_in(session.tracks, pair),
        None => false,
    }
}

/// Whether a channel of a pair is one of a stream.
fn is_taken_in(tracks: &[Track], pair: Pair) -> bool
    ensures { result ≡ is_taken tracks.now pair }
{
    tracks.iter().any(|track| share(track.client, pair))
}

/// Whether two pairs have a channel in common.
fn share(one: Pair, other: Pair) -> bool
    ensures { result ≡ share one other }
{
    (one.rtp == other.rtp || one.rtp == other.rtcp)
        || (one.rtcp == other.rtp || one.rtcp == other.rtcp)
}
