//! What changes a connection.
ghost use Rattle.std.specs.Prelude.{◌≡◌, ◌≤◌, ◌<◌, true, None, length, false, is_some, slice_get, slice_set, slice_index_or, option_map, IsSome, IfSome};
ghost use Rattle.client_slot.specs.Bounds.{rooms_left, rooms_with};
ghost use Rattle.rtsp_head.specs.Shapes.{shape_of};
ghost use Rattle.session_two.specs.Ends.{end_counts};
ghost use Rattle.play_queue.specs.declared.queue.TheConstants.{MOST_PLAYS};
ghost use Rattle.client_slot.specs.declared.limits.TheConstants.{LONGEST_URI, CLOSING_ROOM, MOST_WAITING};
ghost use Rattle.session_one.specs.declared.parts.TheConstants.{MOST_TRACKS, MOST_SESSIONS};
ghost use Rattle.client_slot.specs.NewSessions.{parts_made};
ghost use Rattle.client_slot.specs.Purposes.{settled_as};

use super::Slot;
use crate::at_place::{end_at, next_at, queue_at, unqueue_all};
use crate::closing_room::ClosingRoom;
use crate::final_reply::{FinalReply, settle_sessions};
use crate::new_session::{MadeParts, MadeSession};
use crate::purpose::{Purpose, Settled};
use crate::waiting_play::WaitingPlay;
use crate::waiting_request::Waiting;
use gate_bytes::Text;
use rtsp_head::Item;
use session_one::{Asked, Play, Track};
use session_two::Names;

impl Slot {
    ghost use Rattle.std.specs.Prelude.{Some};
    ghost use Rattle.client_slot.specs.Places.{session_at};
    ghost use Rattle.client_slot.specs.Changes.{after_waiting, after_next, after_asking, after_queueing, after_release, after_reply, after_note, after_close, after_closing};
    ghost use Rattle.client_slot.specs.Bounds.{IsAskable, is_filled};
    ghost use Rattle.client_slot.specs.NewSessions.{id_made, described_made};
    ghost use Rattle.client_slot.specs.ClosingRequest.{closing_text};

    /// A request waits.
    pub fn wait(&mut self, waiting: Waiting)
        requires { length self.old.waiting < MOST_WAITING }
        ensures { self.new ≡ after_waiting waiting self.old }
    {
        let Waiting { mut node } = waiting;
        let _ = self.waiting.append(&mut node);
    }

    /// The oldest request that waits is taken out, to be treated.
    pub fn next_waiting(&mut self) -> Option<Item>
        ensures first { option_map shape_of result ≡ slice_get self.old.waiting 0 }
        ensures rest { self.new ≡ after_next self.old }
    {
        self.waiting.pop_front()
    }

    /// A request of the player went up. A SETUP comes with the stream that it sets up, for which the
    /// session that the request is for has a place.
    pub fn asked(&mut self, asked: Asked, track: Option<Track>)
        requires alive { self.old.alive ≡ true }
        requires idle { self.old.pending ≡ None }
        requires placed { IsAskable self.old.sessions asked track }
        ensures { self.new ≡ after_asking asked track self.old }
    {
        self.pending = Some(Purpose::Client(asked, track));
    }

    /// A PLAY of the player waits, for its session.
    pub fn queue(&mut self, play: WaitingPlay)
        requires uri { length play.uri ≤ LONGEST_URI }
        requires session { is_filled play.place self.old.sessions ≡ true }
        requires room { IfSome play.place (λ place.
            (place < MOST_SESSIONS) × (length (session_at place self.old.sessions).queue < MOST_PLAYS)) }
        ensures { self.new ≡ after_queueing play self.old }
    {
        queue_at(&mut self.sessions, play);
    }

    /// The PLAY that is due went up, where one is due.
    pub fn release(&mut self)
        ensures { self.new ≡ after_release self.old }
    {
        let Some(place) = self.due_place() else {
            return;
        };
        let Some(play) = next_at(&mut self.sessions, place) else {
            unreachable!()
        };
        self.pending = Some(Purpose::Released(Play {
            place: Some(place),
            ..play
        }));
    }

    /// The open request, which went up with a number, has its final reply, and the server made this
    /// session for it, where it made one.
    pub fn settle(&mut self, number: u32, code: u16, made: Option<MadeSession>) -> Settled
        requires busy { IsSome self.old.pending }
        requires last { 200 ≤ code }
        requires made { IsSome made → described_made made ≡ self.old.described }
        ensures settled { IfSome self.old.pending (λ purpose. result ≡ settled_as purpose) }
        ensures reply { self.new ≡ after_reply number code (id_made made) self.old }
    {
        let Some(purpose) = self.pending.take() else {
            unreachable!()
        };
        let settled = purpose.settled();
        let (made, room) = apart(made);
        put_room(
            &mut self.rooms,
            purpose.settled_place(&self.sessions, made.is_some()),
            room,
        );
        let reply = FinalReply { number, code, made };
        settle_sessions(&mut self.sessions, &mut self.described, purpose, reply);
        settled
    }

    /// The end of what plays was told of the session at a place: whether it counts.
    pub fn noted(&mut self, place: u8, names: Names) -> bool
        requires { place < MOST_SESSIONS }
        ensures counts { result ≡ end_counts (session_at place self.old.sessions).running names }
        ensures noted { self.new ≡ after_note (Some place) names self.old }
    {
        end_at(&mut self.sessions, place, names)
    }

    /// The connection closes.
    pub fn close(&mut self)
        ensures { self.new ≡ after_close self.old }
    {
        self.alive = false;
        unqueue_all(&mut self.sessions);
        self.waiting.clear();
    }

    /// The text of the closing TEARDOWN with this number, which went up, where one is to.
    pub fn closing(&mut self, number: u32) -> Option<Text>
        ensures text { result ≡ closing_text number self.old }
        ensures short { IfSome result (λ text. length text ≤ CLOSING_ROOM) }
        ensures closing { self.new ≡ after_closing self.old }
    {
        let place = self.closing_place()?;
        let Some(room) = take_room(&mut self.rooms, place) else {
            unreachable!()
        };
        let Some(text) = self.sessions[usize::from(place)].teardown_text(room, number) else {
            unreachable!()
        };
        self.pending = Some(Purpose::Closing(place));
        Some(text)
    }
}

/// The parts of a session that was made, and its room.
fn apart(made: Option<MadeSession>) -> (Option<MadeParts>, Option<ClosingRoom>)
    ensures parts { result.0 ≡ parts_made made }
    ensures room { is_some result.1 ≡ is_some made }
{
    match made {
        Some(MadeSession { parts, room }) => (Some(parts), Some(room)),
        None => (None, None),
    }
}

/// The room for the closing TEARDOWN of a session that was made is put in its place.
fn put_room(rooms: &mut Vec<Option<ClosingRoom>>, place: Option<u8>, room: Option<ClosingRoom>)
    requires { IfSome place (λ place. place < length rooms.old.items) }
    ensures { rooms_left rooms.new.items
        ≡ rooms_with place (is_some room) (rooms_left rooms.old.items) }
{
    if let Some(place) = place
        && room.is_some()
    {
        rooms[usize::from(place)] = room;
    }
}

/// The room of a place is taken, where it is there.
fn take_room(rooms: &mut Vec<Option<ClosingRoom>>, place: u8) -> Option<ClosingRoom>
    requires { place < length rooms.old.items }
    ensures room { is_some result ≡ slice_index_or (rooms_left rooms.old.items) place false }
    ensures left { rooms_left rooms.new.items ≡ slice_set (rooms_left rooms.old.items) place false }
{
    rooms[usize::from(place)].take()
}
