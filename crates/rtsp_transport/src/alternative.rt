//! Alternatives that a player offers, and the first that fits.
ghost use Rattle.std.specs.Prelude.{◌≡◌, IfOk, option_map};
ghost use Rattle.std.specs.Option.{option_copied};
ghost use Rattle.gate_bytes.specs.Ascii.{comma};
ghost use Rattle.rtsp_transport.specs.Splits.{unquoted_parts};
ghost use Rattle.rtsp_transport.specs.Parameters.{parameters_of};
ghost use Rattle.rtsp_transport.specs.Wants.{NamesApart, is_tcp, mode_fits, wanted_channels, wanted_in, first_fit, wanted_of};

use crate::channels::{Pair, read_asked};
use crate::fault::TransportFault;
use crate::parameters::Parameters;
use crate::split::{first_part, is_readable};
use gate_bytes::{eq_fold, trim};

/// The channels that a player wants.
#[derive(Clone, Copy, Debug, PartialEq, Eq)]
pub enum Wanted {
    /// Any two channels: the player named none.
    Any,
    /// These two.
    Exact(Pair),
}

/// What the first alternative of a Transport field wants that fits: RTP over the connection itself,
/// to one player, for playing, with two different channels or with none named (RFC 2326, 12.39).
pub fn pick(value: &[u8]) -> Result<Wanted, TransportFault>
    ensures wanted { result ≡ wanted_of value.now }
    ensures apart { IfOk result NamesApart }
{
    if !is_readable(value) {
        return Err(TransportFault::Grammar);
    }
    first_fit(value).ok_or(TransportFault::NoneFits)
}

/// What the first alternative wants that fits.
fn first_fit(value: &[u8]) -> Option<Wanted>
    ensures { result ≡ first_fit (unquoted_parts comma value.now) }
{
    let mut left = Some(value);
    while let Some(text) = left {
        let (alternative, more) = first_part(b',', text);
        let wanted = wanted_in(alternative);
        if wanted.is_some() {
            return wanted;
        }
        left = more;
    }
    None
}

/// What an alternative wants, where it fits.
fn wanted_in(alternative: &[u8]) -> Option<Wanted>
    ensures { result ≡ wanted_in (parameters_of alternative.now) }
{
    let (protocol, more) = first_part(b';', alternative);
    let parameters = Parameters::read(more);
    if !is_tcp(trim(protocol)) || parameters.multicast || !mode_fits(parameters.mode) {
        return None;
    }
    wanted_channels(parameters.interleaved)
}

/// Whether a text names RTP over the connection itself.
pub(crate) fn is_tcp(protocol: &[u8]) -> bool
    ensures { result ≡ is_tcp protocol.now }
{
    eq_fold(protocol, b"RTP/AVP/TCP")
}

/// Whether a mode is missing, or is `PLAY`, in double quotes or not. One without a value doesn't fit.
fn mode_fits(mode: Option<Option<&[u8]>>) -> bool
    ensures { result ≡ mode_fits (option_map option_copied mode.entry) }
{
    match mode {
        Some(Some(mode)) => eq_fold(mode, b"PLAY") || eq_fold(mode, b"\"PLAY\""),
        Some(None) => false,
        None => true,
    }
}

/// The channels that are wanted: any, where `interleaved` is missing. Without a value it doesn't fit.
fn wanted_channels(interleaved: Option<Option<&[u8]>>) -> Option<Wanted>
    ensures { result ≡ wanted_channels (option_map option_copied interleaved.entry) }
{
    match interleaved {
        Some(channels) => Some(Wanted::Exact(read_asked(channels?)?)),
        None => Some(Wanted::Any),
    }
}
