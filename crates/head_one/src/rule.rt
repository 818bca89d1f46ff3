//! The rules by which a request is refused, and what they look at.
ghost use Rattle.std.specs.Prelude.{◌≡◌, option_map};
ghost use Rattle.head_one.specs.Refusals.{request_parts, parts_checked, client_cseq, said, required, may_ask_server, names_resource};
ghost use Rattle.head_one.specs.Views.{parts_seen};

use gate_bytes::is_token;
use rtsp_head::Head;
use rtsp_small::{Method, read_cseq_one, read_method};
use rtsp_uri::CutUri;

/// The version that players speak.
const VERSION: &[u8] = b"RTSP/1.0";

/// What the rules look at. Each part is read once.
#[derive(Clone, Copy)]
pub(crate) struct RequestParts<'a> {
    /// The method, as it was written.
    pub(crate) method: &'a [u8],
    /// The method, where it is a known one.
    pub(crate) known: Option<Method>,
    /// The URI, as it was written.
    pub(crate) uri: &'a CutUri<'a>,
    /// The version.
    pub(crate) version: &'a [u8],
    /// The number, where it could be read.
    pub(crate) cseq: Option<u64>,
    /// What is required of the server or a proxy.
    pub(crate) required: Option<&'a [u8]>,
}

impl<'a> RequestParts<'a> {
    /// The parts of a request line and the headers below it.
    pub(crate) fn read(
        method: &'a [u8],
        uri: &'a CutUri<'a>,
        version: &'a [u8],
        head: &'a Head<'_>,
    ) -> RequestParts<'a>
        ensures { parts_seen result ≡ request_parts method.now uri.now version.now head.now.headers }
    {
        RequestParts {
            method,
            known: read_method(method),
            uri,
            version,
            cseq: client_cseq(head),
            required: required(head),
        }
    }
}

/// The method and the number of a request, or the code of the first rule that applies.
pub(crate) fn check_parts(parts: &RequestParts<'_>) -> Result<(Method, u64), u16>
    ensures { result ≡ parts_checked (parts_seen parts.now) }
{
    if !is_token(parts.method) {
        return Err(400);
    }
    if parts.version != VERSION {
        return Err(505);
    }
    let Some(cseq) = parts.cseq else {
        return Err(400);
    };
    let Some(method) = parts.known else {
        return Err(501);
    };
    if parts.required.is_some() {
        return Err(551);
    }
    if !names_resource(parts.uri, method) {
        return Err(400);
    }
    Ok((method, cseq))
}

/// The number of a request: its CSeq (RFC 2326, 12.17).
fn client_cseq(head: &Head<'_>) -> Option<u64>
    ensures { result ≡ client_cseq head.now.headers }
{
    read_cseq_one(head.field(b"CSeq")?)
}

/// What a request requires of the server, or else of a proxy (RFC 2326, 12.32 and 12.27).
fn required<'a>(head: &'a Head<'_>) -> Option<&'a [u8]>
    ensures { option_map (λ value. value.now) result ≡ required head.now.headers }
{
    match said(head.field(b"Require")) {
        Some(value) => Some(value),
        None => said(head.field(b"Proxy-Require")),
    }
}

/// A value with a byte.
fn said(value: Option<&[u8]>) -> Option<&[u8]>
    ensures { option_map (λ value. value.now) result ≡ said (option_map (λ value. value.now) value.entry) }
{
    let value = value?;
    if value.is_empty() { None } else { Some(value) }
}

/// Whether a request names a URI, or `*` for the server itself.
fn names_resource(uri: &CutUri<'_>, method: Method) -> bool
    ensures { result ≡ names_resource uri.now (Some method) }
{
    uri.is_uri() || (uri.text() == b"*".as_slice() && may_ask_server(method))
}

/// Whether a method may be asked of the server itself (RFC 2326, 10.1, 10.8 and 10.9).
fn may_ask_server(method: Method) -> bool
    ensures { result ≡ may_ask_server (Some method) }
{
    matches!(
        method,
        Method::Options | Method::GetParameter | Method::SetParameter
    )
}
