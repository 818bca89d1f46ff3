//! The answers of the drill's server.
ghost use Rattle.std.specs.Prelude.{◌≡◌, ◌+◌, IfOk, codes, option_map};
ghost use Rattle.rtsp_head.specs.Shapes.{shape_of};
ghost use Rattle.head_two.specs.Replies.{ask_of_item};
ghost use Rattle.rtsp_small.specs.Methods.{method_of};
ghost use Rattle.drill_server.specs.AskedFields.{uri_asked, field_asked, channel_asked};
ghost use Rattle.rtsp_head.specs.Headers.{field_of};
ghost use Rattle.drill_server.specs.Texts.{success_text, end_notify};
ghost use Rattle.drill_server.specs.Answers.{answer_by, answer_read, setup_answer, setup_in, play_answer_text, play_answer, plain_answer, describe_answer, bare_answer, track_made};

use crate::texts::{notify_text, one_field, push_frames, session_id, success};
use crate::track::DrillTrack;
use gate_bytes::{Memory, Text};
use head_two::{Ask2, TwoFault, read_ask};
use rtsp_head::{Headers, Item, StartLine};
use rtsp_small::{Method, read_method};
use rtsp_transport::read_grant;
use std::alloc::Global;

/// An answer, and what it changes.
#[derive(Drop)]
pub struct DrillAnswer {
    /// The reply, and what follows it.
    pub text: Text,
    /// The track that it makes.
    pub track: Option<DrillTrack>,
    /// Whether it makes a session.
    pub session: bool,
    /// Whether it tells of an end.
    pub notify: bool,
}

/// An answer that changes nothing.
fn plain(text: Text) -> DrillAnswer
    ensures { result ≡ plain_answer text }
{
    DrillAnswer {
        text,
        track: None,
        session: false,
        notify: false,
    }
}

/// The value of a field, where it is there.
fn field_said<'a>(ask: &'a Ask2<'_>, name: &[u8]) -> Option<&'a [u8]>
    ensures { option_map (λ value. value.now) result ≡ field_of ask.now.head.headers name.now }
{
    ask.head.field(name)
}

/// The value of a field; nothing where it is missing.
fn field<'a>(ask: &'a Ask2<'_>, name: &[u8]) -> &'a [u8]
    ensures { result.now ≡ field_asked ask.now name.now }
{
    match field_said(ask, name) {
        Some(value) => value,
        None => b"",
    }
}

/// The URI of a request.
fn uri<'a>(ask: &Ask2<'a>) -> &'a [u8]
    ensures { result.now ≡ uri_asked ask.now.head.start }
{
    match ask.head.start() {
        StartLine::Request { uri, .. } => uri,
        StartLine::Status { .. } => b"",
    }
}

/// The text of a success with these fields, and this body.
fn success_text(
    alloc: Global,
    ask: &Ask2<'_>,
    fields: &Headers<'_>,
    body: &[u8],
) -> Result<Text, Memory>
    ensures { IfOk result (λ text. text ≡ success_text ask.now.cseq fields.now body.now) }
{
    success(alloc, ask.cseq, fields, body)
}

/// The text of the notify of the end of what a PLAY plays, which has its own number.
fn end_text(alloc: Global, own: u32, ask: &Ask2<'_>, id: &[u8]) -> Result<Text, Memory>
    ensures { IfOk result (λ text.
        text ≡ end_notify own (uri_asked ask.now.head.start) id.now ask.now.cseq) }
{
    notify_text(alloc, own, uri(ask), id, ask.cseq)
}

/// The first channel that a Transport names.
fn channel(transport: &[u8]) -> Option<u8>
    ensures { result ≡ channel_asked transport.now }
{
    match read_grant(transport) {
        Ok(grant) => Some(grant.pair.rtp),
        Err(_) => None,
    }
}

/// The track that a SETUP makes on this channel.
fn track(alloc: Global, id: &[u8], channel: Option<u8>) -> Result<Option<DrillTrack>, Memory>
    ensures { IfOk result (λ track. track ≡ track_made id.now channel) }
{
    match channel {
        Some(channel) => Ok(Some(DrillTrack {
            session: Text::copy(alloc, id)?,
            channel,
        })),
        None => Ok(None),
    }
}

/// The answer to a SETUP in this session.
fn setup(alloc: Global, ask: &Ask2<'_>, id: &[u8], session: bool) -> Result<DrillAnswer, Memory>
    ensures { IfOk result (λ answer. answer ≡ setup_answer ask.now id.now session) }
{
    let transport = field(ask, b"Transport");
    let mut fields = one_field(alloc, b"Session", id)?;
    fields.push_lent(b"Transport", Some(transport))?;
    Ok(DrillAnswer {
        text: success_text(alloc, ask, &fields, b"")?,
        track: track(alloc, id, channel(transport))?,
        session,
        notify: false,
    })
}

/// The answer to a SETUP: the session is the one that it names, or else a new one.
fn setup_in(alloc: Global, sessions: u32, ask: &Ask2<'_>) -> Result<DrillAnswer, Memory>
    ensures { IfOk result (λ answer.
        answer ≡ setup_in sessions ask.now (field_of ask.now.head.headers (codes "Session"))) }
{
    match field_said(ask, b"Session") {
        Some(id) => setup(alloc, ask, id, false),
        None => {
            let number = sessions.checked_add(1).ok_or(Memory)?;
            let id = session_id(alloc, u64::from(number))?;
            setup(alloc, ask, id.as_bytes(), true)
        }
    }
}

/// The number of the next notify.
fn next_notify(notifies: u32) -> Result<u32, Memory>
    ensures { IfOk result (λ own. own ≡ notifies + 1) }
{
    notifies.checked_add(1).ok_or(Memory)
}

/// The reply to a PLAY, a frame on each track, and the notify of its end, which has its own number.
fn play_text(
    alloc: Global,
    tracks: &[DrillTrack],
    own: u32,
    ask: &Ask2<'_>,
    id: &[u8],
) -> Result<Text, Memory>
    ensures { IfOk result (λ text. text ≡ play_answer_text tracks.now own ask.now id.now) }
{
    let fields = one_field(alloc, b"Session", id)?;
    let mut text = success_text(alloc, ask, &fields, b"")?;
    push_frames(&mut text, id, tracks)?;
    let notify = end_text(alloc, own, ask, id)?;
    text.push_slice(notify.as_bytes())?;
    Ok(text)
}

/// The answer to a PLAY, which is over at once.
fn play(
    alloc: Global,
    tracks: &[DrillTrack],
    notifies: u32,
    ask: &Ask2<'_>,
) -> Result<DrillAnswer, Memory>
    ensures { IfOk result (λ answer.
        answer ≡ play_answer tracks.now notifies ask.now (field_asked ask.now (codes "Session"))) }
{
    let own = next_notify(notifies)?;
    Ok(DrillAnswer {
        text: play_text(alloc, tracks, own, ask, field(ask, b"Session"))?,
        track: None,
        session: false,
        notify: true,
    })
}

/// The answer to a DESCRIBE.
fn describe(alloc: Global, ask: &Ask2<'_>) -> Result<DrillAnswer, Memory>
    ensures { IfOk result (λ answer. answer ≡ describe_answer ask.now) }
{
    let fields = one_field(alloc, b"Content-Type", b"application/sdp")?;
    Ok(plain(success_text(alloc, ask, &fields, b"v=0\r\n")?))
}

/// The answer to a request that changes nothing.
fn nothing_new(alloc: Global, ask: &Ask2<'_>) -> Result<DrillAnswer, Memory>
    ensures { IfOk result (λ answer. answer ≡ bare_answer ask.now) }
{
    let fields = Headers::new(alloc);
    Ok(plain(success_text(alloc, ask, &fields, b"")?))
}

/// The answer to a request of a server that made so many sessions, which have these tracks, and sent so many notifies.
fn answer_ask(
    alloc: Global,
    sessions: u32,
    tracks: &[DrillTrack],
    notifies: u32,
    ask: &Ask2<'_>,
) -> Result<DrillAnswer, Memory>
    ensures { IfOk result (λ answer.
        answer ≡ answer_by (method_of ask.now.method) sessions tracks.now notifies ask.now) }
{
    match read_method(ask.method) {
        Some(Method::Describe) => describe(alloc, ask),
        Some(Method::Setup) => setup_in(alloc, sessions, ask),
        Some(Method::Play) => play(alloc, tracks, notifies, ask),
        _ => nothing_new(alloc, ask),
    }
}

/// The answer to the request that an item is; nothing where it can't be read.
pub fn answer_item(
    alloc: Global,
    sessions: u32,
    tracks: &[DrillTrack],
    notifies: u32,
    item: &Item,
) -> Result<DrillAnswer, Memory>
    ensures { IfOk result (λ answer.
        answer ≡ answer_read sessions tracks.now notifies (ask_of_item (shape_of item.now))) }
{
    match read_ask(alloc, item) {
        Ok(ask) => answer_ask(alloc, sessions, tracks, notifies, &ask),
        Err(TwoFault::Memory) => Err(Memory),
        Err(_) => Ok(plain(Text::new(alloc))),
    }
}
