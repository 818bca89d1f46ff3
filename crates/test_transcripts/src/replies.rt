//! What players get of the server's replies.
ghost use Rattle.std.specs.Prelude.{◌≡◌, IfOk, None};
ghost use Rattle.translate_down.specs.Settings.{setting_of, CanBeTold};

use crate::print::tell_written;
use gate_bytes::{Memory, Text};
use head_two::Reply2;
use rtsp_head::{StartLine, read_head};
use rtsp_small::{Method, read_method};
use rtsp_transport::Pair;
use rtsp_uri::Bases;
use session_one::Asked;
use std::alloc::Global;
use std::str;
use test_text::{CaseAnswer, CaseFault, first_word, meant};
use translate_down::{Context, reply_one};

/// The player's channels.
const CHANNELS: Pair = Pair { rtp: 0, rtcp: 1 };

/// Tells what players get of the reply of a line: one with a session, and one without.
pub fn tell_reply(alloc: Global, bases: &Bases, line: &[u8], answer: &mut CaseAnswer) {
    let (method, line) = first_word(line);
    let (named, line) = first_word(line);
    let (source, line) = first_word(line);
    let (seconds, text) = first_word(line);
    let with = Context {
        bases,
        session: Some(b"abcd1234"),
        client: Some(&CHANNELS),
        ssrc: (source != b"-".as_slice()).then_some(0x0A0B_0C0D),
        timeout: (seconds != b"-".as_slice()).then_some(30),
    };
    match said(alloc, method, named == b"named".as_slice(), text) {
        Ok(said) => tell_case(alloc, &with, &said, answer),
        Err(fault) => answer.fail(fault),
    }
}

/// Tells what a player with a session gets of a reply, and one without.
fn tell_case(alloc: Global, with: &Context<'_>, said: &ReplyCase, answer: &mut CaseAnswer)
    requires { CanBeTold (setting_of with.now) }
{
    match reply_in(alloc, said) {
        Ok(reply) => {
            let without = without_session(with.bases);
            tell_written(b"", reply_one(alloc, with, &said.asked, &reply), answer);
            tell_written(b"", reply_one(alloc, &without, &said.asked, &reply), answer);
        }
        Err(fault) => answer.fail(fault),
    }
}

/// What is told to a player without a session.
fn without_session(bases: &Bases) -> Context<'_>
    ensures { CanBeTold (setting_of result) }
{
    Context {
        bases,
        session: None,
        client: None,
        ssrc: None,
        timeout: None,
    }
}

/// A player's request, and the texts of the server's reply to it.
#[derive(Drop)]
struct ReplyCase {
    asked: Asked,
    head: Text,
    body: Text,
}

/// The player's request, and the server's reply to it. All that follows its head is its body.
fn said(alloc: Global, method: &[u8], named: bool, text: &[u8]) -> Result<ReplyCase, CaseFault> {
    let Some(method) = read_method(method) else {
        return Err(CaseFault::Unreadable);
    };
    let parts = str::from_utf8(text).unwrap_or("").split_once("||");
    let (_, body) = parts.unwrap_or(("", ""));
    Ok(ReplyCase {
        asked: asked(alloc, method, named, b"rtsp://media.example/m")?,
        head: meant(alloc, text)?,
        body: meant(alloc, body.as_bytes())?,
    })
}

/// A request with the number 7.
pub fn asked(alloc: Global, method: Method, named: bool, uri: &[u8]) -> Result<Asked, Memory>
    ensures uri { IfOk result (λ asked. asked.uri ≡ uri.now) }
    ensures place { IfOk result (λ asked. asked.place ≡ None) }
{
    Ok(Asked {
        method,
        cseq: 7,
        named,
        uri: Text::copy(alloc, uri)?,
        place: None,
    })
}

/// The server's reply. A head of a request has the code 0.
fn reply_in(alloc: Global, said: &ReplyCase) -> Result<Reply2<'_>, CaseFault> {
    let Ok(head) = read_head(alloc, said.head.as_bytes()) else {
        return Err(CaseFault::Unreadable);
    };
    let code = match head.start() {
        StartLine::Status { code, .. } => code,
        StartLine::Request { .. } => 0,
    };
    Ok(Reply2 {
        code,
        cseq: 3,
        body: said.body.as_bytes(),
        head,
    })
}
