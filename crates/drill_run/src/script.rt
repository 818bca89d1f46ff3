//! What each player sends at each step.
ghost use Rattle.std.specs.Prelude.{◌≡◌, ◌++◌, ◌∷◌, [], IfOk, OnOk, codes};
ghost use Rattle.drill_run.specs.Steps.{drilled_uri, drilled_request, drilled_field, transport_asked, session_field, first_setup, second_setup, drilled_play_fields, drilled_play, drilled_plays, drilled_teardown, drilled_describe, step_text, is_last_step, said_at};

use crate::step::PlayerStep;
use gate_bytes::{Memory, Text, push_decimal};
use rtsp_head::{Headers, push_message};
use std::alloc::Global;

/// The URI of a player, and a track's path behind it.
fn uri(alloc: Global, player: u32, path: &[u8]) -> Result<Text, Memory>
    ensures { IfOk result (λ uri. uri ≡ drilled_uri player ++ path.now) }
{
    let mut uri = Text::with_room(alloc, 64)?;
    uri.push_slice(b"rtsp://gate.example/c")?;
    push_decimal(&mut uri, u64::from(player))?;
    uri.push_slice(path)?;
    Ok(uri)
}

/// A request with its number and these fields.
fn request(
    alloc: Global,
    method: &[u8],
    uri: &[u8],
    number: u64,
    fields: &Headers<'_>,
) -> Result<Text, Memory>
    ensures { IfOk result (λ text. text ≡ drilled_request method.now uri.now number fields.now) }
{
    let mut text = Text::with_room(alloc, 192)?;
    text.push_slice(method)?;
    text.push_slice(b" ")?;
    text.push_slice(uri)?;
    text.push_slice(b" RTSP/1.0\r\n")?;
    push_message(&mut text, Some(number), fields, b"")?;
    Ok(text)
}

/// The Transport that asks for a pair of channels.
fn transport(alloc: Global, channels: &[u8]) -> Result<Text, Memory>
    ensures { IfOk result (λ value. value ≡ transport_asked channels.now) }
{
    let mut value = Text::with_room(alloc, 64)?;
    value.push_slice(b"RTP/AVP/TCP;interleaved=")?;
    value.push_slice(channels)?;
    Ok(value)
}

/// Appends the field that asks for a pair of channels.
fn push_transport(alloc: Global, fields: &mut Headers<'_>, channels: &[u8]) -> Result<(), Memory>
    ensures { OnOk result
        (fields.new ≡ fields.old ++ drilled_field (codes "Transport") (transport_asked channels.now) ∷ []) }
{
    fields.push_text(b"Transport", Some(transport(alloc, channels)?))
}

/// The field with a session.
fn session(alloc: Global, id: &[u8]) -> Result<Headers<'_>, Memory>
    ensures { IfOk result (λ fields. fields ≡ session_field id.now ∷ []) }
{
    let mut fields = Headers::new(alloc);
    fields.push_lent(b"Session", Some(id))?;
    Ok(fields)
}

/// The SETUP of the first track.
fn first_setup(alloc: Global, player: u32) -> Result<Text, Memory>
    ensures { IfOk result (λ text. text ≡ first_setup player) }
{
    let mut fields = Headers::new(alloc);
    push_transport(alloc, &mut fields, b"0-1")?;
    let uri = uri(alloc, player, b"/1")?;
    Ok(request(alloc, b"SETUP", uri.as_bytes(), 3, &fields)?)
}

/// The SETUP of the second track, in the session.
fn second_setup(alloc: Global, player: u32, id: &[u8]) -> Result<Text, Memory>
    ensures { IfOk result (λ text. text ≡ second_setup player id.now) }
{
    let mut fields = session(alloc, id)?;
    push_transport(alloc, &mut fields, b"2-3")?;
    let uri = uri(alloc, player, b"/2")?;
    Ok(request(alloc, b"SETUP", uri.as_bytes(), 4, &fields)?)
}

/// The fields of a PLAY of a part.
fn play_fields<'a>(alloc: Global, id: &'a [u8], range: &'a [u8]) -> Result<Headers<'a>, Memory>
    ensures { IfOk result (λ fields. fields ≡ drilled_play_fields id.now range.now) }
{
    let mut fields = session(alloc, id)?;
    fields.push_lent(b"Range", Some(range))?;
    Ok(fields)
}

/// A PLAY of a part.
fn play(alloc: Global, player: u32, number: u64, id: &[u8], range: &[u8]) -> Result<Text, Memory>
    ensures { IfOk result (λ text. text ≡ drilled_play player number id.now range.now) }
{
    let fields = play_fields(alloc, id, range)?;
    let uri = uri(alloc, player, b"")?;
    Ok(request(alloc, b"PLAY", uri.as_bytes(), number, &fields)?)
}

/// Two PLAYs, of which the second has to wait.
fn plays(alloc: Global, player: u32, id: &[u8]) -> Result<Text, Memory>
    ensures { IfOk result (λ text. text ≡ drilled_plays player id.now) }
{
    let mut text = play(alloc, player, 5, id, b"npt=0-10")?;
    let second = play(alloc, player, 6, id, b"npt=20-30")?;
    text.push_slice(second.as_bytes())?;
    Ok(text)
}

/// The TEARDOWN of the session.
fn teardown(alloc: Global, player: u32, id: &[u8]) -> Result<Text, Memory>
    ensures { IfOk result (λ text. text ≡ drilled_teardown player id.now) }
{
    let fields = session(alloc, id)?;
    let uri = uri(alloc, player, b"")?;
    Ok(request(alloc, b"TEARDOWN", uri.as_bytes(), 7, &fields)?)
}

/// The DESCRIBE.
fn describe(alloc: Global, player: u32) -> Result<Text, Memory>
    ensures { IfOk result (λ text. text ≡ drilled_describe player) }
{
    let uri = uri(alloc, player, b"")?;
    Ok(request(alloc, b"DESCRIBE", uri.as_bytes(), 2, &Headers::new(alloc))?)
}

/// What a player says.
#[derive(Drop)]
pub struct PlayerWords {
    /// Its bytes: whole items.
    pub text: Text,
    /// Whether it ends the connection after them.
    pub last: bool,
}

/// What a player sends at a step, in the session with this id; nothing at its end.
pub fn step_text(alloc: Global, step: PlayerStep, player: u32, id: &[u8]) -> Result<Text, Memory>
    ensures { IfOk result (λ text. text ≡ step_text step player id.now) }
{
    match step {
        PlayerStep::Options => request(alloc, b"OPTIONS", b"*", 1, &Headers::new(alloc)),
        PlayerStep::Describe => describe(alloc, player),
        PlayerStep::SetupFirst => first_setup(alloc, player),
        PlayerStep::SetupSecond => second_setup(alloc, player, id),
        PlayerStep::Play => plays(alloc, player, id),
        PlayerStep::Frame => Text::copy(alloc, &[b'$', 1, 0, 1, (player % 256) as u8]),
        PlayerStep::Teardown => teardown(alloc, player, id),
        PlayerStep::End => Ok(Text::new(alloc)),
    }
}

/// Whether a step is the last.
fn is_last(step: PlayerStep) -> bool
    ensures { result ≡ is_last_step step }
{
    step == PlayerStep::End
}

/// What a player says at a step, in the session with this id; nothing where it has none left.
pub fn said_at(
    alloc: Global,
    step: Option<PlayerStep>,
    player: u32,
    id: &[u8],
) -> Result<PlayerWords, Memory>
    ensures { IfOk result (λ said. said ≡ said_at step player id.now) }
{
    match step {
        Some(step) => Ok(PlayerWords {
            text: step_text(alloc, step, player, id)?,
            last: is_last(step),
        }),
        None => Ok(PlayerWords {
            text: Text::new(alloc),
            last: false,
        }),
    }
}
