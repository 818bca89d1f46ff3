//! The steps that change a connection. One that may not be taken can't be read.
ghost use Rattle.std.specs.Prelude.{◌≡◌, ◌≢◌, ◌<◌, true, None, IfOk, IfSome, IsSome};
ghost use Rattle.client_slot.specs.Bounds.{is_filled};
ghost use Rattle.client_slot.specs.NewSessions.{described_made};
ghost use Rattle.session_one.specs.declared.parts.TheConstants.{MOST_SESSIONS};

use crate::items::item_in;
use crate::print::{push_optional, tell};
use crate::replies::asked;
use crate::trial::Trial;
use client_slot::{
    ClosingRoom, LONGEST_URI, MOST_WAITING, MadeParts, MadeSession, Pending, Slot, Waiting,
    WaitingPlay,
};
use gate_bytes::{Memory, Text};
use play_queue::MOST_PLAYS;
use rtsp_range::read_one;
use rtsp_small::{Method, read_cseq_two, read_method, read_session};
use rtsp_transport::Pair;
use session_one::{Asked, MOST_SESSIONS, MOST_TRACKS, Play, Track};
use session_two::Names;
use std::alloc::Global;
use std::str;
use test_text::{CaseAnswer, CaseFault, first_number, first_word};

impl Trial {
    /// Takes the step of a line, and tells the connection after it:
    ///
    /// - `at PLACE`: the steps from here on are for the session at this place;
    /// - `METHOD URI`: the player's request goes up, and a SETUP with the stream that it sets up. It names the session, where one
    ///   is there;
    /// - `reply NUMBER CODE ID`: the final reply to the open request comes, with the id of the session that the server made; no
    ///   id is there where it made none;
    /// - `queue URI`: a PLAY waits, in the session;
    /// - `release`: the PLAY that is due goes up;
    /// - `end NUMBER`: the end of what plays is told, and names the request with this number; without one it names none;
    /// - `wait REQUEST`: a request waits;
    /// - `next`: the oldest request that waits is treated;
    /// - `close`: the connection closes;
    /// - `closing NUMBER`: its TEARDOWN goes up with this number;
    /// - `new`: another connection enters.
    pub fn step(&mut self, alloc: Global, line: &[u8], answer: &mut CaseAnswer) {
        let (word, rest) = first_word(line);
        match str::from_utf8(word).unwrap_or("") {
            "new" => self.renew(alloc, answer),
            "at" => self.turn_to(rest, answer),
            "reply" => reply(alloc, &mut self.slot, rest, answer),
            "queue" => queue(alloc, &mut self.slot, self.place, rest, answer),
            "end" => end(&mut self.slot, self.place, rest),
            _ => advance(alloc, &mut self.slot, self.place, word, rest, answer),
        }
        push_slot(alloc, &self.slot, self.place, answer);
    }

    /// The steps from here on are for the session at a place.
    fn turn_to(&mut self, word: &[u8], answer: &mut CaseAnswer) {
        match u8::try_from(number_in(word)) {
            Ok(place) if usize::from(place) < MOST_SESSIONS => self.place = place,
            _ => answer.unreadable(),
        }
    }

    /// Tells the part of the connection that a line names:
    ///
    /// - `plays`: the URI of the session's first PLAY that waits, and of the PLAY that is due;
    /// - `requests`: the requests that wait;
    /// - `closing NUMBER`: the closing TEARDOWN, which goes up with this number.
    pub fn show(&mut self, line: &[u8], answer: &mut CaseAnswer) {
        let (word, rest) = first_word(line);
        match str::from_utf8(word).unwrap_or("") {
            "plays" => show_plays(&self.slot, self.place, answer),
            "requests" => show_requests(&self.slot, answer),
            "closing" => show_closing(self.slot.closing(number_in(rest)), answer),
            _ => answer.unreadable(),
        }
    }
}

/// The same of the other steps. Any word that is none is a method.
fn advance(
    alloc: Global,
    slot: &mut Slot,
    place: u8,
    word: &[u8],
    rest: &[u8],
    answer: &mut CaseAnswer,
)
    requires { place < MOST_SESSIONS }
{
    match str::from_utf8(word).unwrap_or("") {
        "release" => slot.release(),
        "wait" => wait(alloc, slot, rest, answer),
        "next" => drop(slot.next_waiting()),
        "close" => slot.close(),
        "closing" => drop(slot.closing(number_in(rest))),
        _ => ask(alloc, slot, place, word, rest, answer),
    }
}

/// The number that a word is, or 0.
fn number_in(word: &[u8]) -> u32 {
    read_cseq_two(word).unwrap_or(0)
}

/// The end of what plays in the session at a place is told.
fn end(slot: &mut Slot, place: u8, word: &[u8])
    requires { place < MOST_SESSIONS }
{
    let names = match read_cseq_two(word) {
        Some(number) => Names::This(number),
        None => Names::Unsaid,
    };
    let _ = slot.noted(place, names);
}

/// The player's request with this method goes up, and a SETUP with the stream that it sets up. It names the session at a place,
/// where one is there.
fn ask(
    alloc: Global,
    slot: &mut Slot,
    place: u8,
    method: &[u8],
    uri: &[u8],
    answer: &mut CaseAnswer,
)
    requires { place < MOST_SESSIONS }
{
    let Some(method) = read_method(method) else {
        return answer.unreadable();
    };
    let Ok(track) = track(alloc, method, uri) else {
        return answer.fail(CaseFault::Memory);
    };
    let Ok(asked) = asked(alloc, method, false, uri) else {
        return answer.fail(CaseFault::Memory);
    };
    let has_room = track.is_none() || slot.tracks(place).len() < MOST_TRACKS;
    if slot.alive() && !slot.busy() && asked.uri.len() <= LONGEST_URI && has_room {
        let place = place_filled(slot, place);
        slot.asked(Asked { place, ..asked }, track);
    } else {
        answer.unreadable();
    }
}

/// The place, where a session is there.
fn place_filled(slot: &Slot, place: u8) -> Option<u8>
    requires { place < MOST_SESSIONS }
    ensures filled { is_filled result slot.now.sessions ≡ true }
    ensures within { IfSome result (λ one. one ≡ place) }
{
    match slot.session(place) {
        Some(_) => Some(place),
        None => None,
    }
}

/// The stream that a SETUP brings.
fn track(alloc: Global, method: Method, uri: &[u8]) -> Result<Option<Track>, Memory>
    ensures { IfOk result (λ track. IfSome track (λ one. one.client.rtp ≢ one.client.rtcp)) }
{
    if method != Method::Setup {
        return Ok(None);
    }
    Ok(Some(Track {
        uri: Text::copy(alloc, uri)?,
        client: Pair { rtp: 0, rtcp: 1 },
        pair: 5,
    }))
}

/// A final reply comes.
fn reply(alloc: Global, slot: &mut Slot, line: &[u8], answer: &mut CaseAnswer) {
    let (number, line) = first_word(line);
    let (code, id) = first_number(line).unwrap_or((0, b""));
    let Ok(made) = made(alloc, slot, id) else {
        return answer.fail(CaseFault::Memory);
    };
    let code = u16::try_from(code).unwrap_or(0);
    if slot.busy() && code >= 200 {
        let _ = slot.settle(number_in(number), code, made);
    } else {
        answer.unreadable();
    }
}

/// The session that the server made, where a word is its id.
fn made(alloc: Global, slot: &Slot, word: &[u8]) -> Result<Option<MadeSession>, Memory>
    ensures { IfOk result (λ made. IsSome made → described_made made ≡ slot.now.described) }
{
    let Some(session) = read_session(word) else {
        return Ok(None);
    };
    Ok(Some(MadeSession {
        parts: MadeParts {
            id: Text::copy(alloc, session.id)?,
            described: Text::copied(alloc, slot.described())?,
        },
        room: ClosingRoom::new(alloc)?,
    }))
}

/// A PLAY of this URI waits, in the session at a place.
fn queue(alloc: Global, slot: &mut Slot, place: u8, uri: &[u8], answer: &mut CaseAnswer)
    requires { place < MOST_SESSIONS }
{
    let Ok(range) = read_one(b"npt=20-30") else {
        return answer.unreadable();
    };
    let Ok(uri) = Text::copy(alloc, uri) else {
        return answer.fail(CaseFault::Memory);
    };
    let has_room = slot.session(place).is_some() && slot.queued(place) < MOST_PLAYS;
    if uri.len() > LONGEST_URI || !has_room {
        return answer.unreadable();
    }
    let play = Play {
        uri,
        range,
        scale: None,
        place: Some(place),
    };
    match WaitingPlay::new(alloc, play) {
        Ok(waiting) => slot.queue(waiting),
        Err(_) => answer.fail(CaseFault::Memory),
    }
}

/// The request that a text means waits.
fn wait(alloc: Global, slot: &mut Slot, text: &[u8], answer: &mut CaseAnswer) {
    match waiting_in(alloc, text) {
        Ok(waiting) if slot.waiting() < MOST_WAITING => slot.wait(waiting),
        Ok(_waiting) => answer.unreadable(),
        Err(fault) => answer.fail(fault),
    }
}

/// The request that a text means, as one that waits.
fn waiting_in(alloc: Global, text: &[u8]) -> Result<Waiting, CaseFault> {
    match Waiting::new(alloc, item_in(alloc, text)?) {
        Ok(waiting) => Ok(waiting),
        Err(_fault) => Err(CaseFault::Memory),
    }
}

/// Appends a connection, and the session at a place:
///
/// 1. the state of the session;
/// 2. the session's id;
/// 3. the URI that stands for what it is about, or else the one that was described;
/// 4. how many streams are set up;
/// 5. the number of the PLAY that runs;
/// 6. how many PLAYs wait;
/// 7. how many requests wait;
/// 8. what the open request is for: its method, released or closing;
/// 9. whether it is alive or closed.
fn push_slot(alloc: Global, slot: &Slot, place: u8, answer: &mut CaseAnswer)
    requires { place < MOST_SESSIONS }
{
    answer.push_debug(alloc, &slot.state(place));
    answer.push(b" ");
    push_optional(slot.session(place), answer);
    push_optional(slot.control(place).or(slot.described()), answer);
    answer.push_number(slot.tracks(place).len() as u64);
    answer.push(b" ");
    push_running(slot.running(place), answer);
    answer.push(b" ");
    answer.push_number(slot.queued(place) as u64);
    answer.push(b" ");
    answer.push_number(slot.waiting() as u64);
    answer.push(b" ");
    answer.push(purpose(slot));
    answer.push(if slot.alive() {
        b" alive".as_slice()
    } else {
        b" closed"
    });
}

/// Appends the number of the PLAY that runs, or a dash.
fn push_running(number: Option<u32>, answer: &mut CaseAnswer) {
    match number {
        Some(number) => answer.push_number(u64::from(number)),
        None => answer.push(b"-"),
    }
}

/// What the open request is for.
fn purpose(slot: &Slot) -> &'static [u8] {
    match slot.pending() {
        Some(Pending::Client(asked, _)) => asked.method.name(),
        Some(Pending::Released(_)) => b"released",
        Some(Pending::Closing(_)) => b"closing",
        None => b"-",
    }
}

/// Appends the closing TEARDOWN, or a dash.
fn show_closing(closing: Option<Text>, answer: &mut CaseAnswer) {
    match closing {
        Some(text) => tell(b"", text.as_bytes(), answer),
        None => answer.push(b"\n= -"),
    }
}

/// Appends the URI of the first PLAY that waits in the session at a place, and of the PLAY that is due.
fn show_plays(slot: &Slot, place: u8, answer: &mut CaseAnswer)
    requires { place < MOST_SESSIONS }
{
    answer.push(b"\n=");
    for play in [slot.first_queued(place), slot.due()] {
        answer.push(b" ");
        match play {
            Some(play) => answer.push_shown(play.uri.as_bytes()),
            None => answer.push(b"-"),
        }
    }
}

/// Appends the requests that wait.
fn show_requests(slot: &Slot, answer: &mut CaseAnswer) {
    for at in 0..slot.waiting() {
        if let Some(item) = slot.waiting_at(at) {
            tell(b"", item.bytes.as_bytes(), answer);
        }
    }
}
