//! The units `smpte`: SMPTE relative timestamps.
ghost use Rattle.std.specs.Prelude.{◌≡◌};
ghost use Rattle.rtsp_range.specs.Smpte.{marked_number, smpte_time, smpte_end, smpte_range};

use crate::Range;
use crate::part::{LAST_MINUTE, LAST_SECOND, part, short_number};
use gate_bytes::split_once;

/// The greatest hour, frame and hundredth of a frame: whatever two digits write.
pub const LAST_SHORT: u8 = 99;

/// How many frames a second has (RFC 2326, 3.5; RFC 7826, 4.4.1).
#[derive(Clone, Copy, Debug, PartialEq, Eq)]
pub enum Rate {
    /// `smpte`: 30 frames.
    Thirty,
    /// `smpte-30-drop`: 30 frames, of which some numbers are left out.
    ThirtyDrop,
    /// `smpte-25`: 25 frames.
    TwentyFive,
}

/// A SMPTE relative timestamp (RFC 2326, 3.5; RFC 7826, 4.4.1).
#[derive(Clone, Copy, Debug, PartialEq, Eq)]
pub struct Smpte {
    /// 0 to [`LAST_SHORT`].
    pub hours: u8,
    /// 0 to 59.
    pub minutes: u8,
    /// 0 to 59.
    pub seconds: u8,
    /// 0 to [`LAST_SHORT`].
    pub frames: u8,
    /// Hundredths of a frame, 0 to [`LAST_SHORT`].
    pub parts: u8,
}

/// The range that the text behind the unit means.
#[tactic(auto, unfolding(crate::specs::Smpte::smpte_range))]
pub(crate) fn smpte_range(rate: Rate, text: &[u8]) -> Option<Range>
    ensures { result ≡ smpte_range rate text.now }
{
    let (from, to) = split_once(b'-', text)?;
    let from = smpte_time(from)?;
    let to = smpte_end(to)?;
    Some(Range::Smpte { rate, from, to })
}

/// An end: nothing, or a time.
fn smpte_end(text: &[u8]) -> Option<Option<Smpte>>
    ensures { result ≡ smpte_end text.now }
{
    if text.is_empty() {
        return Some(None);
    }
    let time = smpte_time(text)?;
    Some(Some(time))
}

/// `hh:mm:ss`, then `:ff` and then `.pp`, each of the two optional by itself.
#[tactic(auto, unfolding(crate::specs::Smpte::smpte_time))]
fn smpte_time(text: &[u8]) -> Option<Smpte>
    ensures { result ≡ smpte_time text.now }
{
    let (main, parts) = part(b'.', text);
    let parts = marked_number(b'.', parts)?;
    let (hours, rest) = split_once(b':', main)?;
    let (minutes, rest) = split_once(b':', rest)?;
    let (seconds, frames) = part(b':', rest);
    let hours = short_number(hours, LAST_SHORT)?;
    let minutes = short_number(minutes, LAST_MINUTE)?;
    let seconds = short_number(seconds, LAST_SECOND)?;
    let frames = marked_number(b':', frames)?;
    Some(Smpte {
        hours,
        minutes,
        seconds,
        frames,
        parts,
    })
}

/// An optional number of one or two digits behind its mark, 0 where there is none.
fn marked_number(mark: u8, text: &[u8]) -> Option<u8>
    ensures { result ≡ marked_number mark text.now }
{
    match text {
        [] => Some(0),
        [first, digits @ ..] => {
            if *first == mark {
                short_number(digits, LAST_SHORT)
            } else {
                None
            }
        }
    }
}
