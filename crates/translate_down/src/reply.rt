//! The server's replies as players get them.
ghost use Rattle.std.specs.Prelude.{◌≡◌, ◌++◌, IfOk, OnOk};
ghost use Rattle.std.specs.Option.{option_copied};
ghost use Rattle.rtsp_head.specs.Optional.{field_lines};
ghost use Rattle.head_one.specs.Replies.{reply_text};
ghost use Rattle.translate_down.specs.Contents.{type_value, encoding_value};
ghost use Rattle.translate_down.specs.Settings.{setting_of, CanBeTold};
ghost use Rattle.translate_down.specs.Replies.{unsupported_value, refusal_of, public_value, session_fields, play_fields, content_fields, success_fields, success_of, reply_text_of, told_whole, told_by};

use crate::Context;
use crate::content::{BodyFields, base, body};
use crate::line::{push_lent, push_text, push_value};
use crate::play::{info, range, scale};
use crate::session::{session, transport};
use gate_bytes::{Memory, Text};
use head_one::{Reply1, begin_reply, write_reply};
use head_two::Reply2;
use rtsp_head::{Headers, push_end};
use rtsp_small::{Method, push_methods};
use rtsp_status::to_one;
use session_one::{Asked, is_success};
use std::alloc::Global;

/// The server's reply to a request of a player, as the player gets it.
///
/// A success is 200, with the headers that this method's reply has and with the body where one was
/// asked for. Any other code becomes that which RTSP 1.0 has for it, and tells nothing but the
/// number, and with 551 what is not supported. What can't be read in the server's reply is left out,
/// and so is what the context doesn't have.
pub fn reply_one(
    alloc: Global,
    context: &Context<'_>,
    asked: &Asked,
    reply: &Reply2<'_>,
) -> Result<Text, Memory>
    requires { CanBeTold (setting_of context.now) }
    ensures { IfOk result (λ text.
        text ≡ reply_text_of (setting_of context.now) asked.now (told_by reply.now)) }
{
    if is_success(reply.code) {
        success(alloc, context, asked, reply)
    } else {
        refusal(alloc, asked, reply)
    }
}

/// The text of a refusal.
fn refusal(alloc: Global, asked: &Asked, reply: &Reply2<'_>) -> Result<Text, Memory>
    ensures { IfOk result (λ text. text ≡ reply_text (refusal_of asked.now (told_whole reply.now))) }
{
    let mut headers = Headers::new(alloc);
    headers.push_lent(b"Unsupported", unsupported(reply))?;
    let refusal = Reply1 {
        code: to_one(reply.code),
        cseq: Some(asked.cseq),
        headers,
        body: b"",
    };
    write_reply(alloc, &refusal)
}

/// The value of Unsupported, with 551.
fn unsupported<'a>(reply: &'a Reply2<'_>) -> Option<&'a [u8]>
    ensures { option_copied result ≡ unsupported_value (told_whole reply.now) }
{
    let is_told = reply.code == 551;
    reply.head.field_where(is_told, b"Unsupported")
}

/// The text of a success. It is written line by line, so that no list of its headers takes memory.
fn success(
    alloc: Global,
    context: &Context<'_>,
    asked: &Asked,
    reply: &Reply2<'_>,
) -> Result<Text, Memory>
    requires { CanBeTold (setting_of context.now) }
    ensures { IfOk result (λ text.
        text ≡ reply_text (success_of (setting_of context.now) asked.now (told_whole reply.now))) }
{
    let fields = BodyFields::read(asked.method, reply);
    let body = body(alloc, context, asked.method, reply, fields)?;
    let bytes = body.as_bytes();
    let mut text = begin_reply(alloc, 200, Some(asked.cseq), bytes.len())?;
    push_fields(alloc, &mut text, context, asked, reply, fields)?;
    push_end(&mut text, bytes)?;
    Ok(text)
}

/// Appends the lines of a success.
fn push_fields(
    alloc: Global,
    text: &mut Text,
    context: &Context<'_>,
    asked: &Asked,
    reply: &Reply2<'_>,
    fields: BodyFields<'_>,
) -> Result<(), Memory>
    requires told { CanBeTold (setting_of context.now) }
    requires kind { option_copied fields.kind
        ≡ type_value asked.now.method reply.now.head.headers reply.now.body }
    requires encoding { option_copied fields.encoding
        ≡ encoding_value asked.now.method reply.now.head.headers reply.now.body }
    ensures { OnOk result
        (text.new
        ≡ text.old ++ field_lines (success_fields (setting_of context.now) asked.now (told_whole reply.now))) }
{
    push_session(alloc, text, context, asked)?;
    push_play(alloc, text, context, asked.method, reply)?;
    push_text(text, b"Public", public(alloc, asked.method)?)?;
    push_content(alloc, text, context, asked.method, reply, fields)
}

/// Appends what is told of the session.
fn push_session(
    alloc: Global,
    text: &mut Text,
    context: &Context<'_>,
    asked: &Asked,
) -> Result<(), Memory>
    requires { CanBeTold (setting_of context.now) }
    ensures { OnOk result
        (text.new ≡ text.old ++ field_lines (session_fields (setting_of context.now) asked.now)) }
{
    push_value(text, b"Session", session(alloc, context, asked)?)?;
    push_text(text, b"Transport", transport(alloc, context, asked.method)?)
}

/// Appends what is told of playing.
fn push_play(
    alloc: Global,
    text: &mut Text,
    context: &Context<'_>,
    method: Method,
    reply: &Reply2<'_>,
) -> Result<(), Memory>
    ensures { OnOk result
        (text.new
        ≡ text.old ++ field_lines (play_fields (setting_of context.now) method reply.now.head.headers)) }
{
    push_text(text, b"Range", range(alloc, method, &reply.head)?)?;
    push_lent(text, b"Scale", scale(method, &reply.head))?;
    push_text(
        text,
        b"RTP-Info",
        info(alloc, context, method, &reply.head)?,
    )
}

/// The value of Public, with OPTIONS.
fn public(alloc: Global, method: Method) -> Result<Option<Text>, Memory>
    ensures { IfOk result (λ value. value ≡ public_value method) }
{
    if method == Method::Options {
        let mut methods = Text::new(alloc);
        push_methods(&mut methods)?;
        Ok(Some(methods))
    } else {
        Ok(None)
    }
}

/// Appends what is told of the body.
fn push_content(
    alloc: Global,
    text: &mut Text,
    context: &Context<'_>,
    method: Method,
    reply: &Reply2<'_>,
    fields: BodyFields<'_>,
) -> Result<(), Memory>
    requires kind { option_copied fields.kind ≡ type_value method reply.now.head.headers reply.now.body }
    requires encoding { option_copied fields.encoding
        ≡ encoding_value method reply.now.head.headers reply.now.body }
    ensures { OnOk result
        (text.new
        ≡ text.old
        ++ field_lines
        (content_fields (setting_of context.now) method reply.now.head.headers reply.now.body)) }
{
    push_text(text, b"Content-Base", base(alloc, context, method, reply)?)?;
    push_lent(text, b"Content-Type", fields.kind)?;
    push_lent(text, b"Content-Encoding", fields.encoding)
}
