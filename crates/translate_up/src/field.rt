//! What a player's request says of its session, its channels, its range and its scale.
ghost use Rattle.std.specs.Prelude.{◌≡◌, IfSome, IfOk, IsTrue};
ghost use Rattle.std.specs.Option.{option_copied};
ghost use Rattle.translate_up.specs.SeenFields.{said_seen, HasWritableRange};
ghost use Rattle.translate_up.specs.Views.{tracks_shown};
ghost use Rattle.translate_up.specs.Subjects.{judged_seen};
ghost use Rattle.translate_up.specs.Fields.{said_of, is_describe, is_setup, is_play, is_named, needs_session, brings_body_up, is_track, scale_of};
ghost use Rattle.translate_up.specs.Upward.{session_said};
ghost use Rattle.rtsp_range.specs.Writable.{can_be_written};
ghost use Rattle.rtsp_range.specs.Meaning.{One, meaning};
ghost use Rattle.rtsp_range.specs.declared.range.Range.{Range};
ghost use Rattle.rtsp_range.specs.declared.fault.RangeFault.{RangeFault};
ghost use Rattle.std.specs.Prelude.{option_map};

use crate::channels::client_pair;
use crate::subject::Subject;
use crate::view::SessionView;
use head_one::Request1;
use rtsp_head::said_where;
use rtsp_range::{Range, RangeFault, read_one};
use rtsp_small::{Method, is_scale};
use rtsp_transport::Pair;
use session_one::Track;

/// What a request says of its session, its channels and its range, each read once.
#[derive(Clone, Copy)]
pub(crate) struct SaidFields<'a> {
    /// The value of its Session field (RFC 2326, 12.37).
    pub(crate) session: Option<&'a [u8]>,
    /// The channels that the player of a SETUP gets (RFC 2326, 12.39).
    pub(crate) channels: Option<Pair>,
    /// What the Range of a PLAY or a PAUSE means (RFC 2326, 12.29).
    pub(crate) range: Option<Result<Range, RangeFault>>,
}

impl<'a> SaidFields<'a> {
    /// What a request says on a connection with these sessions.
    pub(crate) fn read(
        sessions: &[Option<SessionView<'_, '_>>],
        request: &'a Request1<'_>,
    ) -> SaidFields<'a>
        ensures said { said_seen result ≡ said_of (tracks_shown sessions.now) request.now }
        ensures range { HasWritableRange result }
    {
        let channels = match request.method {
            Method::Setup => client_pair(sessions, request.head.field(b"Transport")),
            _ => None,
        };
        let range = match request.method {
            Method::Play | Method::Pause => read_range(request.head.field(b"Range")),
            _ => None,
        };
        SaidFields {
            session: request.head.field(b"Session"),
            channels,
            range,
        }
    }

    /// Whether the request names a session.
    pub(crate) fn is_named(&self) -> bool
        ensures { result ≡ is_named (said_seen self.now) }
    {
        self.session.is_some()
    }
}

/// What the value of a Range field means, where there is one.
fn read_range(value: Option<&[u8]>) -> Option<Result<Range, RangeFault>>
    ensures value { result ≡ option_map (meaning One) (option_copied value.entry) }
    ensures writable { IfSome result (λ read. IfOk read (λ range. IsTrue (can_be_written range))) }
{
    Some(read_one(value?))
}

/// The session, where a request names it.
pub(crate) fn session_said<'s>(
    subject: &Subject<'_, 's, '_>,
    said: &SaidFields<'_>,
) -> Option<&'s [u8]>
    ensures { option_copied result ≡ session_said (judged_seen subject.now) (said_seen said.now) }
{
    said_where(said.is_named(), subject.session)
}

/// Whether a method is DESCRIBE.
pub(crate) fn is_describe(method: Method) -> bool
    ensures { result ≡ is_describe method }
{
    matches!(method, Method::Describe)
}

/// Whether a method is SETUP.
pub(crate) fn is_setup(method: Method) -> bool
    ensures { result ≡ is_setup method }
{
    matches!(method, Method::Setup)
}

/// Whether a method is PLAY.
pub(crate) fn is_play(method: Method) -> bool
    ensures { result ≡ is_play method }
{
    matches!(method, Method::Play)
}

/// Whether a method is for a session that is there (RFC 2326, 10.5 to 10.7).
pub(crate) fn needs_session(method: Method) -> bool
    ensures { result ≡ needs_session method }
{
    matches!(method, Method::Play | Method::Pause | Method::Teardown)
}

/// Whether a method may bring a body up (RFC 2326, 10.8 and 10.9).
pub(crate) fn brings_body_up(method: Method) -> bool
    ensures { result ≡ brings_body_up method }
{
    matches!(method, Method::GetParameter | Method::SetParameter)
}

/// Whether a URI is that of a stream that was set up.
pub(crate) fn is_track(tracks: &[Track], uri: &[u8]) -> bool
    ensures { result ≡ is_track tracks.now uri.now }
{
    tracks.iter().any(|track| track.uri.as_bytes() == uri)
}

/// The scale of a request, where it has one in the grammar (RFC 2326, 12.34).
pub(crate) fn scale_of<'a>(request: &'a Request1<'_>) -> Option<&'a [u8]>
    ensures { option_copied result ≡ scale_of request.now }
{
    let value = request.head.field(b"Scale")?;
    if is_scale(value) { Some(value) } else { None }
}
