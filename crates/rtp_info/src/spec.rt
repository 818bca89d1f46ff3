//! A spec: how an RTP-Info field of RTSP 2.0 spells one entry.
ghost use Rattle.std.specs.Prelude.{◌≡◌};
ghost use Rattle.std.specs.List.{list_all};
ghost use Rattle.rtp_info.specs.Specs.{is_url_byte, is_url, spec_of};

use crate::InfoEntry;
use crate::group::read_groups;
use gate_bytes::split_once;

/// What a spec says: `url=`, a URI in double quotes, and groups.
pub(crate) fn read_spec(text: &[u8]) -> Option<InfoEntry<'_>>
    ensures { result ≡ spec_of text.now }
{
    let (name, quoted) = split_once(b'"', text)?;
    if name != b"url=".as_slice() {
        return None;
    }
    let (url, groups) = split_once(b'"', quoted)?;
    if !is_url(url) {
        return None;
    }
    let noted = read_groups(groups)?;
    Some(InfoEntry {
        url,
        seq: noted.seq,
        rtptime: noted.rtptime,
    })
}

/// Whether a text can be a URI between the quotes.
fn is_url(text: &[u8]) -> bool
    ensures { result ≡ is_url text.now }
{
    !text.is_empty() && has_url_bytes_alone(text)
}

/// Whether each byte of a text may stand in a URI. It looks at all of them and stops at none, so that many are looked at at
/// once.
fn has_url_bytes_alone(text: &[u8]) -> bool
    ensures { result ≡ list_all is_url_byte text.now }
{
    let mut alone = true;
    for byte in text {
        alone &= is_url_byte(*byte);
    }
    alone
}

/// Whether a byte may stand in a URI: it is printed, and is no double quote, comma or semicolon.
fn is_url_byte(byte: u8) -> bool
    ensures { result ≡ is_url_byte byte }
{
    byte.is_ascii_graphic() && byte != b'"' && byte != b',' && byte != b';'
}
