//! What becomes of a player's request.

use crate::items::item_in;
use crate::print::{tell, tell_written};
use gate_bytes::{Memory, Text, split_once};
use head_two::{Request2, write_request};
use rtsp_frame::Item;
use rtsp_transport::Pair;
use rtsp_uri::Bases;
use session_one::{MOST_SESSIONS, MOST_TRACKS, State, Track};
use std::alloc::Global;
use std::str;
use test_text::{CaseAnswer, CaseFault, first_number, first_word};
use translate_up::{Decision, SessionView, View, decide, with_transport};

/// The number of what goes up.
const NUMBER: u32 = 9;

/// As many streams as a session may have.
pub fn tracks(alloc: Global) -> Result<Vec<Track>, Memory> {
    let mut tracks = Vec::new(alloc);
    for pair in 0..MOST_TRACKS as u8 {
        let mut uri = *b"rtsp://media.example/m/1";
        uri[23] = b'1'.wrapping_add(pair);
        let rtp = pair.wrapping_mul(2);
        tracks.push(Track {
            uri: Text::copy(alloc, &uri)?,
            client: Pair { rtp, rtcp: rtp ^ 1 },
            pair,
        })?;
    }
    Ok(tracks)
}

/// A request, and the connection that it is judged by.
#[derive(Drop)]
struct Asking<'a> {
    sessions: [Option<SessionView<'a, 'a>>; MOST_SESSIONS],
    described: Option<&'a [u8]>,
    full: bool,
    item: Item,
}

impl<'a> Asking<'a> {
    /// The request of a line, and the connection that its first words are, with some of these streams.
    fn read(alloc: Global, tracks: &'a [Track], line: &[u8]) -> Result<Asking<'a>, CaseFault> {
        let (word, line) = first_word(line);
        let (streams, line) = first_number(line).ok_or(CaseFault::Unreadable)?;
        let (plays, line) = first_number(line).ok_or(CaseFault::Unreadable)?;
        let (channels, request) = first_word(line);
        let (state, others) = split_once(b'+', word).unwrap_or((word, b"0"));
        let state = state_in(state).ok_or(CaseFault::Unreadable)?;
        let (others, _) = first_number(others).ok_or(CaseFault::Unreadable)?;
        let own = tracks.split_at((streams as usize).min(tracks.len())).0;
        Ok(Asking {
            sessions: [
                first_session(state, own, plays as usize),
                other_session(others > 0, b"efgh5678", tracks),
                other_session(others > 1, b"ijkl9012", tracks),
                other_session(others > 2, b"mnop3456", tracks),
            ],
            described: (others > 0).then_some(b"rtsp://media.example/d".as_slice()),
            full: channels == b"held".as_slice(),
            item: item_in(alloc, request)?,
        })
    }
}

/// The state that a word is.
fn state_in(word: &[u8]) -> Option<State> {
    match str::from_utf8(word).unwrap_or("") {
        "Init" => Some(State::Init),
        "Ready" => Some(State::Ready),
        "Playing" => Some(State::Playing),
        _ => None,
    }
}

/// The session that has a state; none has Init.
fn first_session<'a>(
    state: State,
    tracks: &'a [Track],
    queued: usize,
) -> Option<SessionView<'a, 'a>> {
    if state == State::Init {
        return None;
    }
    Some(SessionView {
        id: b"abcd1234",
        state,
        tracks,
        queued,
        control: b"rtsp://media.example/m/",
    })
}

/// Another session, where it is there: it is ready, with the last of these streams.
fn other_session<'a>(
    is_there: bool,
    id: &'a [u8],
    tracks: &'a [Track],
) -> Option<SessionView<'a, 'a>> {
    if !is_there {
        return None;
    }
    Some(SessionView {
        id,
        state: State::Ready,
        tracks: tracks.split_at(tracks.len().saturating_sub(1)).1,
        queued: 0,
        control: b"rtsp://media.example/n/",
    })
}

/// Tells what becomes of the request of a line, and the text that the player is told or that goes up; or what is kept of it.
pub fn tell_decision<'a>(
    alloc: Global,
    bases: &'a Bases,
    tracks: &'a [Track],
    line: &[u8],
    is_kept: bool,
    answer: &mut CaseAnswer,
) {
    let asking = match Asking::read(alloc, tracks, line) {
        Ok(asking) => asking,
        Err(fault) => return answer.fail(fault),
    };
    let Asking {
        sessions,
        described,
        full,
        item,
    } = asking;
    let view = View {
        sessions: &sessions,
        described,
        full,
        bases,
    };
    let decided = decide(alloc, &view, &item);
    if is_kept {
        push_kept_of(decided, answer)
    } else {
        push_decided(alloc, decided, answer)
    }
}

/// Appends what becomes of a request, and the text that the player is told or that goes up.
fn push_decided(alloc: Global, decided: Result<Decision<'_>, Memory>, answer: &mut CaseAnswer) {
    match decided {
        Ok(Decision::Answer(text)) => tell(b"answer ", text.as_bytes(), answer),
        Ok(Decision::Forward(up, _asked)) => {
            tell_written(b"forward ", write_request(alloc, &up, NUMBER), answer)
        }
        Ok(Decision::Queue(_play, text)) => tell(b"queue ", text.as_bytes(), answer),
        Ok(Decision::Setup(up, _asked, _pair)) => {
            tell_written(b"setup ", written_setup(alloc, up), answer)
        }
        Err(Memory) => answer.fail(CaseFault::Memory),
    }
}

/// The text of a SETUP that goes up, on the channels 6 and 7.
fn written_setup(alloc: Global, up: Request2<'_>) -> Result<Text, Memory> {
    let up = with_transport(alloc, up, &Pair { rtp: 6, rtcp: 7 })?;
    write_request(alloc, &up, NUMBER)
}

/// Appends what is kept of a request.
fn push_kept_of(decided: Result<Decision<'_>, Memory>, answer: &mut CaseAnswer) {
    match decided {
        Ok(decision) => push_kept(&decision, answer),
        Err(Memory) => answer.fail(CaseFault::Memory),
    }
}

/// Appends what is kept of a SETUP until its reply comes: its number, whether the session was named, its URI, and the channels
/// that the player gets on its connection. Of a PLAY that waits it is the URI and the scale.
fn push_kept(decision: &Decision<'_>, answer: &mut CaseAnswer) {
    match decision {
        Decision::Setup(_, asked, pair) => {
            answer.push(b"\n= setup ");
            answer.push_number(asked.cseq);
            answer.push(if asked.named {
                b" named ".as_slice()
            } else {
                b" unnamed "
            });
            answer.push_shown(asked.uri.as_bytes());
            answer.push(b" ");
            answer.push_number(u64::from(pair.rtp));
            answer.push(b"-");
            answer.push_number(u64::from(pair.rtcp));
        }
        Decision::Queue(play, _) => {
            tell(b"queue ", play.uri.as_bytes(), answer);
            if let Some(scale) = &play.scale {
                answer.push(b" ");
                answer.push_shown(scale.as_bytes());
            }
        }
        _ => answer.unreadable(),
    }
}
