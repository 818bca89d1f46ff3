//! Writing an RTP-Info field of RTSP 1.0.
ghost use Rattle.std.specs.Prelude.{◌≡◌, ◌++◌, IfOk, OnOk};
ghost use Rattle.std.specs.List.{flat_map};
ghost use Rattle.rtp_info.specs.InfoText.{seq_text, time_text, entry_text, further_text, info_text};

use crate::{Info, InfoEntry};
use gate_bytes::{Memory, Text, push_decimal};
use std::alloc::Global;

/// For how many bytes the text of a field has room at once (this project's own): more than one stream mostly takes.
pub const USUAL_FIELD: usize = 96;

/// The text of an RTP-Info field (RFC 2326, 12.33): for each stream `url=`, and then `;seq=` and
/// `;rtptime=` where they are known; a comma between two streams.
pub fn write_one(alloc: Global, info: &Info<'_>) -> Result<Text, Memory>
    ensures { IfOk result (λ text. text ≡ info_text info.now) }
{
    let entries = info.as_slice();
    let mut text = Text::with_room(alloc, USUAL_FIELD)?;
    push_entry(&mut text, &entries[0])?;
    push_further(&mut text, &entries[1..])?;
    Ok(text)
}

/// Appends further entries, each behind a comma.
fn push_further(text: &mut Text, entries: &[InfoEntry<'_>]) -> Result<(), Memory>
    ensures { OnOk result (text.new ≡ text.old ++ flat_map further_text entries.now) }
{
    for entry in entries {
        text.push_slice(b",")?;
        push_entry(text, entry)?;
    }
    Ok(())
}

/// Appends an entry (RFC 2326, 12.33). A comma stands between two, which is not written here.
pub fn push_entry(text: &mut Text, entry: &InfoEntry<'_>) -> Result<(), Memory>
    ensures { OnOk result (text.new ≡ text.old ++ entry_text entry.now) }
{
    text.push_slice(b"url=")?;
    text.push_slice(entry.url)?;
    push_seq(text, entry.seq)?;
    push_time(text, entry.rtptime)
}

/// Appends a sequence number, where it is known.
fn push_seq(text: &mut Text, seq: Option<u16>) -> Result<(), Memory>
    ensures { OnOk result (text.new ≡ text.old ++ seq_text seq) }
{
    match seq {
        Some(seq) => {
            text.push_slice(b";seq=")?;
            push_decimal(text, u64::from(seq))
        }
        None => Ok(()),
    }
}

/// Appends an RTP time, where it is known.
fn push_time(text: &mut Text, rtptime: Option<u32>) -> Result<(), Memory>
    ensures { OnOk result (text.new ≡ text.old ++ time_text rtptime) }
{
    match rtptime {
        Some(rtptime) => {
            text.push_slice(b";rtptime=")?;
            push_decimal(text, u64::from(rtptime))
        }
        None => Ok(()),
    }
}
