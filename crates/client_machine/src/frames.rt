//! Where frames of media go.
ghost use Rattle.client_slot.specs.Places.{tracks_of};
ghost use Rattle.std.specs.Prelude.{◌≡◌, option_map};
ghost use Rattle.client_machine.specs.Frames.{half_for, channel_for, half_of};

use client_slot::Slot;
use session_one::{MOST_SESSIONS, Track};

/// Half of a pair of channels to the server.
#[derive(Clone, Copy, Debug, PartialEq, Eq)]
pub struct StreamHalf {
    /// The number of the pair.
    pub pair: u8,
    /// 0 for RTP, and 1 for RTCP.
    pub half: u8,
}

/// The half of a pair that a channel of the player stands for, where it stands for one.
pub fn half_for(slot: &Slot, channel: u8) -> Option<StreamHalf>
    ensures { option_map half_of result ≡ half_for channel (tracks_of slot.now.sessions) }
{
    slot.keeps();
    for place in 0..MOST_SESSIONS {
        let half = half_in(slot.tracks(place as u8), channel);
        if half.is_some() {
            return half;
        }
    }
    None
}

/// The half that a channel stands for, by the first stream that has it.
fn half_in(tracks: &[Track], channel: u8) -> Option<StreamHalf>
    ensures { option_map half_of result ≡ half_for channel tracks.now }
{
    for track in tracks {
        if track.client.rtp == channel {
            return Some(StreamHalf {
                pair: track.pair,
                half: 0,
            });
        }
        if track.client.rtcp == channel {
            return Some(StreamHalf {
                pair: track.pair,
                half: 1,
            });
        }
    }
    None
}

/// The player's channel for a half of a pair, where one of its streams has the pair.
pub fn channel_for(slot: &Slot, pair: u8, half: u8) -> Option<u8>
    ensures { result ≡ channel_for pair half (tracks_of slot.now.sessions) }
{
    slot.keeps();
    for place in 0..MOST_SESSIONS {
        let channel = channel_in(slot.tracks(place as u8), pair, half);
        if channel.is_some() {
            return channel;
        }
    }
    None
}

/// The player's channel for a half of a pair, by the first stream that has the pair.
fn channel_in(tracks: &[Track], pair: u8, half: u8) -> Option<u8>
    ensures { result ≡ channel_for pair half tracks.now }
{
    let track = tracks.iter().find(|track| track.pair == pair)?;
    if half == 0 {
        Some(track.client.rtp)
    } else {
        Some(track.client.rtcp)
    }
}
