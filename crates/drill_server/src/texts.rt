//! The texts that the drill's server writes.
ghost use Rattle.std.specs.Prelude.{◌≡◌, ◌++◌, ◌∷◌, [], IfOk, OnOk};
ghost use Rattle.drill_server.specs.Texts.{success_text, drill_session, frames_of, status_told, end_request, end_notify, answer_field};

use crate::track::{DrillTrack, ID_BASE};
use gate_bytes::{Memory, Text, after, push_decimal};
use head_two::{Request2, write_request};
use rtsp_head::{Headers, push_message};
use rtsp_uri::UriParts;
use std::alloc::Global;

/// One field.
pub fn one_field<'a>(alloc: Global, name: &'a [u8], value: &'a [u8]) -> Result<Headers<'a>, Memory>
    ensures { IfOk result (λ fields. fields ≡ answer_field name.now value.now ∷ []) }
{
    let mut fields = Headers::new(alloc);
    fields.push_lent(name, Some(value))?;
    Ok(fields)
}

/// A success with these fields, and this body.
pub fn success(
    alloc: Global,
    number: u32,
    fields: &Headers<'_>,
    body: &[u8],
) -> Result<Text, Memory>
    ensures { IfOk result (λ text. text ≡ success_text number fields.now body.now) }
{
    let mut text = Text::with_room(alloc, 128)?;
    text.push_slice(b"RTSP/2.0 ")?;
    push_decimal(&mut text, 200)?;
    text.push_slice(b" OK\r\n")?;
    push_message(&mut text, Some(u64::from(number)), fields, body)?;
    Ok(text)
}

/// The id of the session with this number.
pub fn session_id(alloc: Global, number: u64) -> Result<Text, Memory>
    ensures { IfOk result (λ id. id ≡ drill_session number) }
{
    let mut digits = Text::with_room(alloc, 32)?;
    push_decimal(&mut digits, ID_BASE.checked_add(number).ok_or(Memory)?)?;
    let mut id = Text::with_room(alloc, 32)?;
    id.push_slice(b"d")?;
    if !digits.is_empty() {
        id.push_slice(after(digits.as_bytes(), 1))?;
    }
    Ok(id)
}

/// Appends a frame on the channel of each track of a session.
pub fn push_frames(text: &mut Text, id: &[u8], tracks: &[DrillTrack]) -> Result<(), Memory>
    ensures { OnOk result (text.new ≡ text.old ++ frames_of id.now tracks.now) }
{
    for track in tracks {
        if track.session.as_bytes() == id {
            text.push_slice(&[b'$', track.channel, 0, 1, 0])?;
        }
    }
    Ok(())
}

/// The value that tells which PLAY ended.
fn status_value(alloc: Global, number: u32) -> Result<Text, Memory>
    ensures { IfOk result (λ value. value ≡ status_told number) }
{
    let mut value = Text::with_room(alloc, 64)?;
    value.push_slice(b"cseq=")?;
    push_decimal(&mut value, u64::from(number))?;
    value.push_slice(b" status=200 reason=\"OK\"")?;
    Ok(value)
}

/// The request that tells the end of the PLAY with this number.
fn end_request<'a>(
    alloc: Global,
    uri: &'a [u8],
    id: &'a [u8],
    number: u32,
) -> Result<Request2<'a>, Memory>
    ensures { IfOk result (λ request. request ≡ end_request uri.now id.now number) }
{
    let mut headers = one_field(alloc, b"Session", id)?;
    headers.push_lent(b"Notify-Reason", Some(b"end-of-stream"))?;
    headers.push_text(b"Request-Status", Some(status_value(alloc, number)?))?;
    Ok(Request2 {
        method: b"PLAY_NOTIFY",
        uri: UriParts::whole(uri),
        headers,
        body: b"",
    })
}

/// The notify, with its own number, that the PLAY with this number has reached its end.
pub fn notify_text(
    alloc: Global,
    own: u32,
    uri: &[u8],
    id: &[u8],
    number: u32,
) -> Result<Text, Memory>
    ensures { IfOk result (λ text. text ≡ end_notify own uri.now id.now number) }
{
    let request = end_request(alloc, uri, id, number)?;
    write_request(alloc, &request, own)
}
