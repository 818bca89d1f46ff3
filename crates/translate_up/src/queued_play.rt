//! PLAYs that waited.
ghost use Rattle.std.specs.Prelude.{◌≡◌, IfOk};
ghost use Rattle.std.specs.Option.{option_copied};
ghost use Rattle.rtsp_head.specs.Optional.{field_headers};
ghost use Rattle.translate_up.specs.QueuedPlay.{play_fields_up, play_up};

use gate_bytes::Memory;
use head_two::Request2;
use rtsp_head::Headers;
use rtsp_range::write;
use rtsp_small::Method;
use rtsp_uri::UriParts;
use session_one::Play;
use std::alloc::Global;

/// A PLAY that waited, as it goes up for a session, without its number (RFC 7826, 13.4).
pub fn play_up<'a>(
    alloc: Global,
    session: Option<&'a [u8]>,
    play: &'a Play,
) -> Result<Request2<'a>, Memory>
    ensures { IfOk result (λ up. up ≡ play_up (option_copied session.entry) play.now) }
{
    Ok(Request2 {
        method: Method::Play.name(),
        uri: UriParts::whole(play.uri.as_bytes()),
        headers: play_headers(alloc, session, play)?,
        body: b"",
    })
}

/// Its headers in their order.
fn play_headers<'a>(
    alloc: Global,
    session: Option<&'a [u8]>,
    play: &'a Play,
) -> Result<Headers<'a>, Memory>
    ensures { IfOk result (λ headers.
        headers ≡ field_headers (play_fields_up (option_copied session.entry) play.now)) }
{
    let scale = match &play.scale {
        Some(scale) => Some(scale.as_bytes()),
        None => None,
    };
    let mut headers = Headers::new(alloc);
    headers.push_lent(b"Session", session)?;
    headers.push_text(b"Range", Some(write(alloc, &play.range)?))?;
    headers.push_lent(b"Scale", scale)?;
    Ok(headers)
}
