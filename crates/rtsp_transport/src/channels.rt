//! Pairs of channels, for RTP and RTCP on the RTSP connection itself.
ghost use Rattle.std.specs.Prelude.{◌≡◌};
ghost use Rattle.rtsp_transport.specs.Channels.{channel_of, two_channels, pair_of, first_channel, pair_or_first};

use gate_bytes::{read_decimal, split_once};

/// The greatest channel: one byte of a frame holds it (RFC 2326, 10.12; RFC 7826, 14).
pub const LAST_CHANNEL: u8 = 255;

/// The most digits of a channel (RFC 7826, 20.2).
pub const CHANNEL_DIGITS: u32 = 3;

/// Two channels of one track (RFC 2326, 10.12; RFC 7826, 14).
#[derive(Clone, Copy, Debug, PartialEq, Eq)]
pub struct Pair {
    /// The channel of RTP frames.
    pub rtp: u8,
    /// The channel of RTCP frames.
    pub rtcp: u8,
}

/// The channels that a player asks for: `a-b`, or `a` alone with `a` below [`LAST_CHANNEL`], which
/// means `a` and the next channel.
pub(crate) fn read_asked(value: &[u8]) -> Option<Pair>
    ensures { result ≡ pair_or_first value.now }
{
    match split_once(b'-', value) {
        Some((rtp, rtcp)) => two_channels(rtp, rtcp),
        None => first_channel(value),
    }
}

/// The channels of `a-b`.
pub(crate) fn read_pair(value: &[u8]) -> Option<Pair>
    ensures { result ≡ pair_of value.now }
{
    let (rtp, rtcp) = split_once(b'-', value)?;
    two_channels(rtp, rtcp)
}

/// Two different channels.
fn two_channels(rtp: &[u8], rtcp: &[u8]) -> Option<Pair>
    ensures { result ≡ two_channels rtp.now rtcp.now }
{
    let rtp = read_channel(rtp)?;
    let rtcp = read_channel(rtcp)?;
    if rtp == rtcp {
        return None;
    }
    Some(Pair { rtp, rtcp })
}

/// A channel and the next one.
fn first_channel(text: &[u8]) -> Option<Pair>
    ensures { result ≡ first_channel text.now }
{
    let rtp = read_channel(text)?;
    if rtp == LAST_CHANNEL {
        return None;
    }
    Some(Pair { rtp, rtcp: rtp + 1 })
}

/// A channel: 1 to [`CHANNEL_DIGITS`] digits, up to [`LAST_CHANNEL`].
fn read_channel(text: &[u8]) -> Option<u8>
    ensures { result ≡ channel_of text.now }
{
    let channel = read_decimal(text, CHANNEL_DIGITS)?;
    if channel > u64::from(LAST_CHANNEL) {
        return None;
    }
    Some(channel as u8)
}
