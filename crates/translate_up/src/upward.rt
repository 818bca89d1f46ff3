//! Requests as they go up.
ghost use Rattle.std.specs.Prelude.{◌≡◌, [], if◌then◌else◌, IfOk, OnOk, IfSome, IsTrue, option_map};
ghost use Rattle.std.specs.Option.{option_copied};
ghost use Rattle.rtsp_head.specs.Optional.{field_headers, then_headers, said_where};
ghost use Rattle.rtsp_range.specs.Writable.{can_be_written};
ghost use Rattle.rtsp_range.specs.RangeText.{range_text};
ghost use Rattle.translate_up.specs.Subjects.{judged_seen};
ghost use Rattle.translate_up.specs.SeenFields.{said_seen};
ghost use Rattle.rtsp_small.specs.Scales.{is_scale};
ghost use Rattle.translate_up.specs.Fields.{is_play, passing, scale_of};
ghost use Rattle.translate_up.specs.Upward.{uri_up, method_up, has_body_up, asked_fields, played_fields, body_fields, fields_up, request_up, asked_of};

use crate::field::{SaidFields, brings_body_up, is_describe, is_play, is_setup, session_said};
use crate::subject::Subject;
use gate_bytes::{Memory, Text};
use head_one::Request1;
use head_two::Request2;
use rtsp_head::{FieldValue, Headers, said_where};
use rtsp_range::{Range, write};
use rtsp_small::{Method, is_scale};
use rtsp_uri::{CutUri, UriParts, swap_in_uri};
use session_one::Asked;
use std::alloc::Global;
use std::marker::Model;

/// The formats of times that players read (RFC 7826, 18.5).
const UNITS: &[u8] = b"npt, smpte, smpte-30-drop, smpte-25, clock";

/// The URI with which a request goes up. Contracts see it.
#[derive(Drop)]
pub(crate) struct UriUp<'a> {
    /// In its parts, of which the request is written.
    pub(crate) parts: UriParts<'a>,
    /// As one text, which is kept.
    pub(crate) text: Text,
}

impl<'a> Model for UriUp<'a> {
    ghost use Rattle.std.specs.Prelude.{◌≡◌, ℕ, List};

    ghost Value = { List ℕ };

    ghost view = { λ uri. uri.text };

    ghost invariant = { λ uri. uri.parts ≡ uri.text };
}

/// The URI with the server's authority in the place of the gateway's. What is asked of the server
/// itself is asked of what the session is about, or else of what was described, where one of them is
/// known.
pub(crate) fn uri_up<'a>(
    alloc: Global,
    subject: &Subject<'_, 'a, '_>,
    uri: &CutUri<'a>,
) -> Result<UriUp<'a>, Memory>
    ensures { IfOk result (λ up. up ≡ uri_up (judged_seen subject.now) uri.now) }
{
    let parts = parts_up(subject, uri);
    let text = parts.to_text(alloc)?;
    Ok(UriUp { parts, text })
}

/// The same in its parts.
fn parts_up<'a>(subject: &Subject<'_, 'a, '_>, uri: &CutUri<'a>) -> UriParts<'a>
    ensures { result ≡ uri_up (judged_seen subject.now) uri.now }
{
    if uri.text() == b"*".as_slice() {
        UriParts::whole(subject.control.unwrap_or(b"*"))
    } else {
        let bases = subject.view.bases;
        swap_in_uri(&bases.front, &bases.up, uri)
    }
}

/// A request as it goes up with this URI and this range, without its number; a SETUP lacks its channels
/// too.
pub(crate) fn request_up<'a>(
    alloc: Global,
    subject: &Subject<'_, 'a, '_>,
    request: &Request1<'a>,
    said: &SaidFields<'_>,
    uri: UriParts<'a>,
    range: Option<Range>,
) -> Result<Request2<'a>, Memory>
    requires { IfSome range (λ one. IsTrue (can_be_written one)) }
    ensures { IfOk result (λ up.
        up ≡ request_up (judged_seen subject.now) request.now (said_seen said.now) uri.entry range) }
{
    Ok(Request2 {
        method: method_up(request.method).name(),
        uri,
        headers: headers_up(alloc, subject, request, said, range)?,
        body: body_up(request),
    })
}

/// What is kept of a request that goes up with this URI.
pub(crate) fn asked_of(
    subject: &Subject<'_, '_, '_>,
    request: &Request1<'_>,
    said: &SaidFields<'_>,
    uri: Text,
) -> Asked
    ensures { result ≡ asked_of (judged_seen subject.now) request.now (said_seen said.now) uri }
{
    Asked {
        method: request.method,
        cseq: request.cseq,
        named: said.is_named(),
        uri,
        place: subject.place,
    }
}

/// The method with which a request goes up. OPTIONS is then a SET_PARAMETER that sets nothing, which
/// keeps its session alive.
fn method_up(method: Method) -> Method
    ensures { result ≡ method_up method }
{
    match method {
        Method::Options => Method::SetParameter,
        other => other,
    }
}

/// Whether a request brings a body, and may.
fn has_body_up(request: &Request1<'_>) -> bool
    ensures { result ≡ has_body_up request.now }
{
    brings_body_up(request.method) && !request.body.is_empty()
}

/// The body that goes up.
fn body_up<'a>(request: &Request1<'a>) -> &'a [u8]
    ensures { result.now ≡ (if has_body_up request.now then request.now.body else []) }
{
    if has_body_up(request) {
        request.body
    } else {
        b""
    }
}

/// The headers that go up, in their order, each where it is said.
fn headers_up<'a>(
    alloc: Global,
    subject: &Subject<'_, 'a, '_>,
    request: &Request1<'a>,
    said: &SaidFields<'_>,
    range: Option<Range>,
) -> Result<Headers<'a>, Memory>
    requires { IfSome range (λ one. IsTrue (can_be_written one)) }
    ensures { IfOk result (λ headers.
        headers ≡ field_headers (fields_up (judged_seen subject.now) request.now (said_seen said.now) range)) }
{
    let mut headers = Headers::new(alloc);
    push_asked(alloc, &mut headers, subject, request, said)?;
    push_played(alloc, &mut headers, request, range)?;
    push_content(alloc, &mut headers, request)?;
    Ok(headers)
}

/// Appends the headers of the session and of what is asked for.
fn push_asked<'a>(
    alloc: Global,
    headers: &mut Headers<'a>,
    subject: &Subject<'_, 'a, '_>,
    request: &Request1<'a>,
    said: &SaidFields<'_>,
) -> Result<(), Memory>
    ensures { OnOk result
        (headers.new
        ≡ then_headers headers.old (asked_fields (judged_seen subject.now) request.now (said_seen said.now))) }
{
    let method = request.method;
    let accept = request
        .head
        .value_where(alloc, is_describe(method), b"Accept")?;
    let units = said_where(is_setup(method), Some(UNITS));
    headers.push_lent(b"Session", session_said(subject, said))?;
    headers.push_value(b"Accept", accept)?;
    headers.push_lent(b"Accept-Ranges", units)
}

/// Appends the headers of what is to be played.
fn push_played<'a>(
    alloc: Global,
    headers: &mut Headers<'a>,
    request: &Request1<'a>,
    range: Option<Range>,
) -> Result<(), Memory>
    requires { IfSome range (λ one. IsTrue (can_be_written one)) }
    ensures { OnOk result (headers.new ≡ then_headers headers.old (played_fields request.now range)) }
{
    headers.push_text(b"Range", range_up(alloc, range)?)?;
    headers.push_value(b"Scale", scale_up(alloc, request)?)
}

/// Appends the headers of the body.
fn push_content<'a>(
    alloc: Global,
    headers: &mut Headers<'a>,
    request: &Request1<'a>,
) -> Result<(), Memory>
    ensures { OnOk result (headers.new ≡ then_headers headers.old (body_fields request.now)) }
{
    let has_body = has_body_up(request);
    let head = &request.head;
    let kind = head.value_where(alloc, has_body, b"Content-Type")?;
    let encoding = head.value_where(alloc, has_body, b"Content-Encoding")?;
    headers.push_value(b"Content-Type", kind)?;
    headers.push_value(b"Content-Encoding", encoding)
}

/// The scale that goes up, with PLAY.
fn scale_up<'a>(alloc: Global, request: &Request1<'a>) -> Result<Option<FieldValue<'a>>, Memory>
    ensures { IfOk result (λ scale.
        scale ≡ said_where (is_play request.now.method) (scale_of request.now)) }
{
    let value = request
        .head
        .value_where(alloc, is_play(request.method), b"Scale")?;
    Ok(in_grammar(value))
}

/// A value, where it is a scale in the grammar (RFC 2326, 12.34).
fn in_grammar(value: Option<FieldValue<'_>>) -> Option<FieldValue<'_>>
    ensures { result ≡ passing is_scale value.entry }
{
    let value = value?;
    if is_scale(value.as_bytes()) {
        Some(value)
    } else {
        None
    }
}

/// A range in the one form that both versions read.
fn range_up(alloc: Global, range: Option<Range>) -> Result<Option<Text>, Memory>
    requires { IfSome range (λ one. IsTrue (can_be_written one)) }
    ensures { IfOk result (λ text. text ≡ option_map range_text range) }
{
    match range {
        Some(range) => Ok(Some(write(alloc, &range)?)),
        None => Ok(None),
    }
}
