//! One entry of an RTP-Info field.

use std::marker::Model;

/// What an RTP-Info field says of one stream (RFC 2326, 12.33; RFC 7826, 18.45). The field that was read lends its URI, and so
/// does what an entry is made of that is written. Contracts see what it says.
#[derive(Drop)]
pub struct InfoEntry<'a> {
    /// The URI of the stream, as it was written.
    pub url: &'a [u8],
    /// The sequence number of the first packet.
    pub seq: Option<u16>,
    /// The RTP time of the first packet.
    pub rtptime: Option<u32>,
}

impl<'a> Model for InfoEntry<'a> {
    ghost use Rattle.rtp_info.specs.Streams.{StreamInfo};

    ghost Value = { StreamInfo };

    ghost view = { λ entry. record { url = entry.url.now; seq = entry.seq; rtptime = entry.rtptime } };
}
