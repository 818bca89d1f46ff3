//! What a reply of the server says, and what the player gets of it.
ghost use Rattle.std.specs.Prelude.{◌≡◌, ◌<◌, ◌^◌, true, Option, Some, IfOk, IfSome, option_map};
ghost use Rattle.std.specs.Option.{option_copied, option_and_then};
ghost use Rattle.rtsp_small.specs.declared.session.TheConstants.{TIMEOUT_DIGITS};
ghost use Rattle.rtsp_small.specs.Sessions.{is_session_id, SessionParts};
ghost use Rattle.rtsp_small.specs.Views.{session_seen};
ghost use Rattle.rtsp_transport.specs.Channels.{AreApart};
ghost use Rattle.head_two.specs.declared.reply.Reply2.{Reply2};
ghost use Rattle.translate_down.specs.Replies.{told_by, reply_text_of};
ghost use Rattle.client_slot.specs.Purposes.{purpose_seen};
ghost use Rattle.client_machine.specs.Step.{session_told, IsToldFor, new_id, reply_hand};
ghost use Rattle.client_machine.specs.UpTexts.{grant_said};

use crate::input::ServerReply;
use client_slot::{Pending, Slot};
use gate_bytes::{Memory, Text};
use head_two::Reply2;
use rtsp_small::{Method, SessionField, read_session};
use rtsp_transport::{Grant, Pair, read_grant};
use rtsp_uri::Bases;
use session_one::{Asked, Track};
use std::alloc::Global;
use translate_down::{Context, reply_one};

/// What a reply's Transport grants, where that can be read.
pub fn grant_said(reply: &Reply2<'_>) -> Option<Grant>
    ensures { result ≡ grant_said reply.now }
{
    match read_grant(reply.head.field(b"Transport")?) {
        Ok(grant) => Some(grant),
        Err(_) => None,
    }
}

/// What the field Session of the reply to the open request says. It is looked up for a SETUP alone: of no other reply
/// does it matter.
pub(crate) fn told_for<'a>(pending: Pending<'_>, reply: &'a Reply2<'_>) -> Option<SessionField<'a>>
    ensures said { IsToldFor (purpose_seen pending.entry) (told_by reply.now) (option_map session_seen result) }
    ensures valid { IfSome result (λ field. is_session_id field.id.now ≡ true) }
    ensures timeout { IfSome result (λ field.
        IfSome field.timeout (λ seconds. seconds < 10 ^ TIMEOUT_DIGITS)) }
{
    match pending {
        Pending::Client(asked, _) if asked.method == Method::Setup => session_told(reply),
        _ => None,
    }
}

/// What the field Session of a reply says.
fn session_told<'a>(reply: &'a Reply2<'_>) -> Option<SessionField<'a>>
    ensures said { option_map session_seen result ≡ session_told (told_by reply.now) }
    ensures valid { IfSome result (λ field. is_session_id field.id.now ≡ true) }
    ensures timeout { IfSome result (λ field.
        IfSome field.timeout (λ seconds. seconds < 10 ^ TIMEOUT_DIGITS)) }
{
    read_session(reply.head.field(b"Session")?)
}

/// The timeout that the field tells.
pub(crate) fn timeout_told(told: Option<SessionField<'_>>) -> Option<u64>
    requires { IfSome told (λ field. IfSome field.timeout (λ seconds. seconds < 10 ^ TIMEOUT_DIGITS)) }
    ensures timeout { result ≡ option_and_then (λ field. field.timeout) (option_map session_seen told.entry) }
    ensures short { IfSome result (λ seconds. seconds < 10 ^ TIMEOUT_DIGITS) }
{
    told?.timeout
}

/// The id of the session that the server made for a SETUP that named none.
pub(crate) fn new_id<'a>(pending: Pending<'a>, told: Option<SessionField<'a>>) -> Option<&'a [u8]>
    requires { IfSome told (λ field. is_session_id field.id.now ≡ true) }
    ensures id { (reply : Reply2)
        → IsToldFor (purpose_seen pending.entry) (told_by reply) (option_map session_seen told.entry)
        → option_copied result ≡ new_id (purpose_seen pending.entry) (told_by reply) }
    ensures valid { IfSome result (λ id. is_session_id id.now ≡ true) }
{
    match pending {
        Pending::Client(asked, _) if asked.method == Method::Setup && asked.place.is_none() => {
            Some(told?.id)
        }
        _ => None,
    }
}

/// The reply as its player gets it. Nobody gets one that is to a request of the gateway itself, or
/// whose connection closed. The id is that of the player's session once the reply was heard.
pub(crate) fn reply_hand<'a>(
    alloc: Global,
    bases: &'a Bases,
    slot: &'a Slot,
    pending: Pending<'a>,
    answer: ServerReply<'a>,
    id: Option<&'a [u8]>,
    timeout: Option<u64>,
) -> Result<Text, Memory>
    requires pending { slot.now.pending ≡ Some (purpose_seen pending) }
    requires id { IfSome id (λ one. is_session_id one.now ≡ true) }
    requires timeout { IfSome timeout (λ seconds. seconds < 10 ^ TIMEOUT_DIGITS) }
    ensures { IfOk result (λ text. (said : Option SessionParts)
        → IsToldFor (purpose_seen pending.entry) (told_by answer.entry.reply.now) said
        → timeout ≡ option_and_then (λ field. field.timeout) said
        → text
        ≡ reply_hand bases.entry.now slot.entry.now.alive (purpose_seen pending.entry)
        (told_by answer.entry.reply.now) answer.entry.source (option_copied id.entry)) }
{
    slot.keeps();
    match pending {
        Pending::Client(asked, track) if slot.alive() => {
            reply_down(alloc, bases, asked, track, answer, id, timeout)
        }
        _ => Ok(Text::new(alloc)),
    }
}

/// The reply to a player's request.
fn reply_down<'a>(
    alloc: Global,
    bases: &'a Bases,
    asked: &'a Asked,
    track: Option<&'a Track>,
    answer: ServerReply<'a>,
    id: Option<&'a [u8]>,
    timeout: Option<u64>,
) -> Result<Text, Memory>
    requires apart { IfSome track (λ one. AreApart one.now.client) }
    requires id { IfSome id (λ one. is_session_id one.now ≡ true) }
    requires timeout { IfSome timeout (λ seconds. seconds < 10 ^ TIMEOUT_DIGITS) }
    ensures { IfOk result (λ text. text ≡ reply_text_of (record {
      front = bases.entry.now.front.text;
      up = bases.entry.now.up.text;
      session = option_copied id.entry;
      client = option_map (λ one. one.client) (option_copied track.entry);
      ssrc = answer.entry.source;
      timeout = timeout;
    }) asked.entry.now (told_by answer.entry.reply.now)) }
{
    let context = Context {
        bases,
        session: id,
        client: player_channels(track),
        ssrc: answer.source,
        timeout,
    };
    reply_one(alloc, &context, asked, answer.reply)
}

/// The channels that a player gets for a stream.
fn player_channels<'a>(track: Option<&'a Track>) -> Option<&'a Pair>
    requires { IfSome track (λ one. AreApart one.now.client) }
    ensures same { option_copied result ≡ option_map (λ one. one.client) (option_copied track.entry) }
    ensures apart { IfSome result (λ one. AreApart one.now) }
{
    match track {
        Some(track) => Some(&track.client),
        None => None,
    }
}
