//! The field RTP-Info for a player.
ghost use Rattle.std.specs.Prelude.{◌≡◌, ◌++◌, IfOk, OnOk};
ghost use Rattle.rtp_info.specs.InfoText.{entry_text, info_text};
ghost use Rattle.translate_down.specs.Infos.{swapped_entry, swapped_entries, info_told};

use gate_bytes::{Memory, Text};
use rtp_info::{Info, InfoEntry, InfoFault, USUAL_FIELD, push_entry, read_two};
use rtsp_uri::{Bases, swap_authority};
use std::alloc::Global;

/// A value of RTP-Info as the server wrote it, in the words of RTSP 1.0 and under the player's
/// address; none where it can't be read.
pub(crate) fn info_told(alloc: Global, bases: &Bases, value: &[u8]) -> Result<Option<Text>, Memory>
    ensures { IfOk result (λ told. told ≡ info_told bases.now.up.text bases.now.front.text value.now) }
{
    match read_two(alloc, value) {
        Ok(info) => Ok(Some(swapped(alloc, bases, &info)?)),
        Err(InfoFault::Grammar) => Ok(None),
        Err(InfoFault::Memory) => Err(Memory),
    }
}

/// The text of what is said of each stream, under the player's address.
fn swapped(alloc: Global, bases: &Bases, info: &Info<'_>) -> Result<Text, Memory>
    ensures { IfOk result (λ text.
        text ≡ info_text (swapped_entries bases.now.up.text bases.now.front.text info.now)) }
{
    let count = info.len();
    let mut text = Text::with_room(alloc, USUAL_FIELD)?;
    push_swapped(alloc, &mut text, bases, info.at(0))?;
    for place in 1..count {
        text.push_slice(b",")?;
        push_swapped(alloc, &mut text, bases, info.at(place))?;
    }
    Ok(text)
}

/// Appends what is said of a stream, under the player's address.
fn push_swapped(
    alloc: Global,
    text: &mut Text,
    bases: &Bases,
    entry: &InfoEntry<'_>,
) -> Result<(), Memory>
    ensures { OnOk result
        (text.new
        ≡ text.old ++ entry_text (swapped_entry bases.now.up.text bases.now.front.text entry.now)) }
{
    let url = swap_authority(alloc, &bases.up, &bases.front, entry.url)?;
    let told = InfoEntry {
        url: url.as_bytes(),
        seq: entry.seq,
        rtptime: entry.rtptime,
    };
    push_entry(text, &told)
}
