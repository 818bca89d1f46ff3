//! The alternative that a server grants.
ghost use Rattle.std.specs.Prelude.{◌≡◌, IfOk};
ghost use Rattle.gate_bytes.specs.Ascii.{comma};
ghost use Rattle.rtsp_transport.specs.Channels.{AreApart};
ghost use Rattle.rtsp_transport.specs.Parameters.{parameters_of};
ghost use Rattle.rtsp_transport.specs.Splits.{unquoted_parts};
ghost use Rattle.rtsp_transport.specs.Grants.{grant_in, grant_among, grant_of};

use crate::alternative::is_tcp;
use crate::channels::{Pair, read_pair};
use crate::fault::TransportFault;
use crate::parameters::Parameters;
use crate::split::{first_part, is_readable};
use gate_bytes::trim;

/// What a server grants.
#[derive(Clone, Copy, Debug, PartialEq, Eq)]
pub struct Grant {
    /// The channels of the track.
    pub pair: Pair,
    /// The source of the RTP packets, where the server names it.
    pub ssrc: Option<u32>,
}

/// What a Transport field of one alternative grants: RTP over the connection itself, on two
/// different channels (RFC 7826, 18.54).
pub fn read_grant(value: &[u8]) -> Result<Grant, TransportFault>
    ensures grant { result ≡ grant_of value.now }
    ensures apart { IfOk result (λ grant. AreApart grant.pair) }
{
    if !is_readable(value) {
        return Err(TransportFault::Grammar);
    }
    sole_grant(value).ok_or(TransportFault::NoneFits)
}

/// The grant of a value that has one alternative.
fn sole_grant(value: &[u8]) -> Option<Grant>
    ensures { result ≡ grant_among (unquoted_parts comma value.now) }
{
    let (alternative, more) = first_part(b',', value);
    match more {
        Some(_) => None,
        None => grant_in(alternative),
    }
}

/// What an alternative grants.
fn grant_in(alternative: &[u8]) -> Option<Grant>
    ensures { result ≡ grant_in (parameters_of alternative.now) }
{
    let (protocol, more) = first_part(b';', alternative);
    if !is_tcp(trim(protocol)) {
        return None;
    }
    let parameters = Parameters::read(more);
    let pair = read_pair(parameters.interleaved??)?;
    Some(Grant {
        pair,
        ssrc: parameters.ssrc,
    })
}
