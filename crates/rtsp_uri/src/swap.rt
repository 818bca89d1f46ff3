//! Changing the authority of a URI.
ghost use Rattle.std.specs.Prelude.{◌≡◌, ◌++◌, Some, IfOk};
ghost use Rattle.std.specs.Option.{option_copied};
ghost use Rattle.rtsp_uri.specs.Swaps.{rest_behind, swapped, port_named, are_one, authority_of};
ghost use Rattle.rtsp_uri.specs.Uris.{scheme};

use crate::base::Base;
use crate::cut_uri::CutUri;
use crate::grammar::{SCHEME, SCHEME_BYTES};
use crate::parts::UriParts;
use gate_bytes::{Memory, Text, after, before, eq_fold};
use std::alloc::Global;

/// The port of an address that names none (RFC 2326, 3.2; RFC 7826, 20.2).
pub const DEFAULT_PORT: u16 = 554;

/// The text with the authority of `to` in the place of that of `from`, where it is a URI that has
/// it; else the text as it is.
///
/// Hosts are compared without case, and a URI or base without a port has the [`DEFAULT_PORT`]. The scheme
/// is then written `rtsp://`, and what follows the authority stays as it is.
pub fn swap_authority(alloc: Global, from: &Base, to: &Base, uri: &[u8]) -> Result<Text, Memory>
    ensures { IfOk result (λ text. text ≡ swapped from.now.text to.now.text uri.now) }
{
    swap_in_uri(from, to, &CutUri::new(uri)).to_text(alloc)
}

/// The same of a text that was cut before, in its parts.
pub fn swap_in_uri<'a>(from: &Base, to: &'a Base, uri: &CutUri<'a>) -> UriParts<'a>
    ensures { result ≡ swapped from.now.text to.entry.now.text uri.entry.now }
{
    match rest_behind(from, uri) {
        Some(rest) => UriParts {
            scheme: SCHEME,
            authority: to.text.as_bytes(),
            rest,
        },
        None => UriParts::whole(uri.text()),
    }
}

/// What follows the authority of a URI, where that is the authority of the base.
fn rest_behind<'a>(base: &Base, uri: &CutUri<'a>) -> Option<&'a [u8]>
    ensures { option_copied result ≡ rest_behind base.now.text uri.now }
{
    let places = uri.places()?;
    let text = uri.text();
    let host = after(before(text, places.host_end), SCHEME_BYTES);
    if is_authority(base, host, places.port) {
        Some(after(text, places.rest))
    } else {
        None
    }
}

/// Whether the authority with this host and port is the base's.
fn is_authority(base: &Base, host: &[u8], port: Option<u16>) -> bool
    ensures { result ≡ are_one (authority_of (scheme ++ base.now.text)) (Some (host.now, port_named port)) }
{
    eq_fold(base.host.as_bytes(), host) && port_named(base.port) == port_named(port)
}

/// The port that an address means: the one that it names, or [`DEFAULT_PORT`].
fn port_named(port: Option<u16>) -> u16
    ensures { result ≡ port_named port }
{
    port.unwrap_or(DEFAULT_PORT)
}
