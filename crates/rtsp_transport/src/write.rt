//! Writing Transport fields.
ghost use Rattle.std.specs.Prelude.{◌≡◌, ◌≢◌, ◌++◌, None, Ok, IfOk, OnOk};
ghost use Rattle.rtsp_transport.specs.Grants.{grant_of};
ghost use Rattle.rtsp_transport.specs.GrantText.{pair_text, source_text, grant_text};

use crate::channels::Pair;
use crate::ssrc::push_source;
use gate_bytes::{Memory, Text, push_decimal};
use std::alloc::Global;

/// Room for a field with a source: 53 bytes at most.
const USUAL_TRANSPORT: usize = 56;

/// What the gateway asks of the server: RTP over the connection, on these two channels.
/// [`crate::read_grant`] gives the same pair back.
pub fn write_two(alloc: Global, pair: &Pair) -> Result<Text, Memory>
    requires { pair.now.rtp ≢ pair.now.rtcp }
    ensures text { IfOk result (λ text. text ≡ grant_text (record { pair = pair.now; ssrc = None })) }
    ensures read { IfOk result (λ text. grant_of text ≡ Ok (record { pair = pair.now; ssrc = None })) }
{
    write_one(alloc, pair, None)
}

/// What the gateway grants a player: RTP over the connection, on these two channels, and the source
/// of its packets where it is known. [`crate::read_grant`] gives both back.
pub fn write_one(alloc: Global, pair: &Pair, ssrc: Option<u32>) -> Result<Text, Memory>
    requires { pair.now.rtp ≢ pair.now.rtcp }
    ensures text { IfOk result (λ text. text ≡ grant_text (record { pair = pair.now; ssrc = ssrc })) }
    ensures read { IfOk result (λ text. grant_of text ≡ Ok (record { pair = pair.now; ssrc = ssrc })) }
{
    let Pair { rtp, rtcp } = *pair;
    let mut text = Text::with_room(alloc, USUAL_TRANSPORT)?;
    text.push_slice(b"RTP/AVP/TCP;unicast;interleaved=")?;
    push_channels(&mut text, rtp, rtcp)?;
    push_ssrc(&mut text, ssrc)?;
    Ok(text)
}

/// Appends two channels with a `-` between them.
fn push_channels(text: &mut Text, rtp: u8, rtcp: u8) -> Result<(), Memory>
    ensures { OnOk result (text.new ≡ text.old ++ pair_text (record { rtp = rtp; rtcp = rtcp })) }
{
    push_decimal(text, u64::from(rtp))?;
    text.push_slice(b"-")?;
    push_decimal(text, u64::from(rtcp))
}

/// Appends the parameter with a source, where there is one.
fn push_ssrc(text: &mut Text, ssrc: Option<u32>) -> Result<(), Memory>
    ensures { OnOk result (text.new ≡ text.old ++ source_text ssrc) }
{
    match ssrc {
        Some(source) => {
            text.push_slice(b";ssrc=")?;
            push_source(text, source)
        }
        None => Ok(()),
    }
}
