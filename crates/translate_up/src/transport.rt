//! The channels of a SETUP on its way up.
ghost use Rattle.std.specs.Prelude.{◌≡◌, ◌≢◌, codes, IfOk};
ghost use Rattle.std.specs.Str.{bytes_eq};
ghost use Rattle.translate_up.specs.Upward.{transport_place, headers_with_transport, with_transport};

use gate_bytes::Memory;
use head_two::Request2;
use rtsp_head::{FieldValue, Header, Headers};
use rtsp_transport::{Pair, write_two};
use std::alloc::Global;

/// A SETUP with these channels to the server, which differ. Their header stands before the formats
/// of times, and all else stays as it is (RFC 7826, 18.54).
pub fn with_transport<'a>(
    alloc: Global,
    request: Request2<'a>,
    pair: &Pair,
) -> Result<Request2<'a>, Memory>
    requires { pair.now.rtp ≢ pair.now.rtcp }
    ensures { IfOk result (λ up. up ≡ with_transport pair.now request.entry) }
{
    let Request2 {
        method,
        uri,
        headers,
        body,
    } = request;
    let headers = headers_with_transport(alloc, headers, pair)?;
    Ok(Request2 {
        method,
        uri,
        headers,
        body,
    })
}

/// The headers with these channels before the formats of times.
fn headers_with_transport<'a>(
    alloc: Global,
    headers: Headers<'a>,
    pair: &Pair,
) -> Result<Headers<'a>, Memory>
    requires { pair.now.rtp ≢ pair.now.rtcp }
    ensures { IfOk result (λ all. all ≡ headers_with_transport pair.now headers.entry) }
{
    let value = FieldValue::owned(write_two(alloc, pair)?);
    let place = transport_place(headers.as_slice());
    let mut all = headers;
    all.insert(
        place,
        Header {
            name: b"Transport",
            value,
        },
    )?;
    Ok(all)
}

/// The place of the formats of times, or else the end.
fn transport_place(headers: &[Header<'_>]) -> usize
    ensures { result ≡ transport_place headers.now }
{
    for place in 0..headers.len() {
        if has_units(&headers[place]) {
            return place;
        }
    }
    headers.len()
}

/// Whether a header has formats of times.
fn has_units(header: &Header<'_>) -> bool
    ensures { result ≡ bytes_eq header.now.name (codes "Accept-Ranges") }
{
    header.name == b"Accept-Ranges".as_slice()
}
