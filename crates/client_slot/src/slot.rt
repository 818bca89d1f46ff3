//! One connection: what is kept of it, and what can be asked about that.
ghost use Rattle.std.specs.Prelude.{◌≡◌, ◌<◌, ◌≤◌, true, length, slice_get, option_map, is_some, IfOk, IsSome, IfSome};
ghost use Rattle.rtsp_head.specs.Shapes.{shape_of};
ghost use Rattle.rtsp_small.specs.Sessions.{is_session_id};
ghost use Rattle.client_slot.specs.declared.limits.TheConstants.{LONGEST_URI};
ghost use Rattle.session_one.specs.declared.parts.TheConstants.{MOST_SESSIONS};
ghost use Rattle.client_slot.specs.Purposes.{purpose_seen};

mod changes;
pub(crate) mod places;

use crate::closing_room::ClosingRoom;
use crate::purpose::{Pending, Purpose};
use crate::session::Session;
use gate_bytes::{Memory, Text};
use rtsp_head::Item;
use session_one::{MOST_SESSIONS, Play, State, Track};
use std::alloc::Global;
use std::collections::LinkedList;
use std::marker::Model;

/// What is kept of one player's connection. Contracts see it as the definitions do.
#[derive(Drop)]
pub struct Slot {
    alive: bool,
    sessions: Vec<Session>,
    described: Option<Text>,
    pending: Option<Purpose>,
    waiting: LinkedList<Item>,
    rooms: Vec<Option<ClosingRoom>>,
}

impl Model for Slot {
    ghost use Rattle.client_slot.specs.Client.{Client};

    ghost Value = { Client };

    ghost use Rattle.rtsp_head.specs.Shapes.{shapes};
    ghost use Rattle.client_slot.specs.Bounds.{IsSlot, rooms_left};

    ghost view = { λ s. record { alive = s.alive; sessions = s.sessions.items; described = s.described; pending = s.pending; waiting = shapes s.waiting } };

    ghost invariant = { λ s. IsSlot (record { alive = s.alive; sessions = s.sessions.items; described = s.described; pending = s.pending; waiting = shapes s.waiting }) (rooms_left s.rooms.items) };
}

impl Slot {
    ghost use Rattle.client_slot.specs.Client.{new_client};
    ghost use Rattle.client_slot.specs.Places.{session_at, queued_at, place_with};
    ghost use Rattle.client_slot.specs.Changes.{due_place};
    ghost use Rattle.client_slot.specs.Bounds.{AreTidy, AreControlsShort, IsPlacedIn};

    /// A connection that entered, with room for four sessions, each with eight streams and pointers to eight PLAYs. The room
    /// for a session's closing TEARDOWN comes with the session. Where memory is wanting, the answer is [`Memory`].
    pub fn new(alloc: Global) -> Result<Slot, Memory>
        ensures { IfOk result (λ slot. slot ≡ new_client) }
    {
        let mut sessions = Vec::with_capacity(alloc, MOST_SESSIONS)?;
        let mut rooms = Vec::with_capacity(alloc, MOST_SESSIONS)?;
        for _place in 0..MOST_SESSIONS {
            sessions.push(Session::new(alloc)?)?;
            rooms.push(None)?;
        }
        Ok(Slot {
            alive: true,
            sessions,
            described: None,
            pending: None,
            waiting: LinkedList::new(alloc),
            rooms,
        })
    }

    /// The state of the session at a place; Init, where the place is empty.
    pub fn state(&self, place: u8) -> State
        requires { place < MOST_SESSIONS }
        ensures { result ≡ (session_at place self.now.sessions).state }
    {
        self.at(place).state()
    }

    /// The id of the session at a place.
    pub fn session(&self, place: u8) -> Option<&[u8]>
        requires { place < MOST_SESSIONS }
        ensures id { option_map (λ id. id.now) result ≡ (session_at place self.now.sessions).id }
        ensures valid { IfSome result (λ id. is_session_id id.now ≡ true) }
    {
        self.at(place).id()
    }

    /// The streams of the session at a place.
    pub fn tracks(&self, place: u8) -> &[Track]
        requires { place < MOST_SESSIONS }
        ensures { result.now ≡ (session_at place self.now.sessions).tracks }
    {
        self.at(place).tracks()
    }

    /// How many PLAYs of the session at a place wait.
    pub fn queued(&self, place: u8) -> usize
        requires { place < MOST_SESSIONS }
        ensures { result ≡ length (session_at place self.now.sessions).queue }
    {
        self.at(place).queued()
    }

    /// The first PLAY of the session at a place that waits.
    pub fn first_queued(&self, place: u8) -> Option<&Play>
        requires { place < MOST_SESSIONS }
        ensures { option_map (λ play. play.now) result ≡ queued_at place self.now.sessions }
    {
        self.at(place).first_queued()
    }

    /// The number of the PLAY that runs in the session at a place.
    pub fn running(&self, place: u8) -> Option<u32>
        requires { place < MOST_SESSIONS }
        ensures { result ≡ (session_at place self.now.sessions).running }
    {
        self.at(place).running()
    }

    /// The URI that stands for what the session at a place is about, as it was sent up.
    pub fn control(&self, place: u8) -> Option<&[u8]>
        requires { place < MOST_SESSIONS }
        ensures uri { option_map (λ uri. uri.now) result ≡ (session_at place self.now.sessions).control }
        ensures there { is_some (session_at place self.now.sessions).id ≡ true → IsSome result }
    {
        self.sessions[usize::from(place)].control()
    }

    /// The URI that was described last, as it was sent up.
    pub fn described(&self) -> Option<&[u8]>
        ensures uri { option_map (λ uri. uri.now) result ≡ self.now.described }
        ensures short { IfSome result (λ uri. length uri.now ≤ LONGEST_URI) }
    {
        match &self.described {
            Some(uri) => Some(uri.as_bytes()),
            None => None,
        }
    }

    /// Whether a request of it is open at the server.
    pub fn busy(&self) -> bool
        ensures { result ≡ is_some self.now.pending }
    {
        self.pending.is_some()
    }

    /// What holds of every connection: it has four places, a place without a session is an empty one, the URIs
    /// that sessions are about are short enough, and the open request has its place. The call does nothing.
    pub fn keeps(&self)
        ensures places { length self.now.sessions ≡ MOST_SESSIONS }
        ensures tidy { AreTidy self.now.sessions }
        ensures controls { AreControlsShort self.now.sessions }
        ensures placed { IfSome self.now.pending (IsPlacedIn self.now.sessions) }
    {
        let _ = &self.sessions;
    }

    /// Whether it was not closed.
    pub fn alive(&self) -> bool
        ensures { result ≡ self.now.alive }
    {
        self.alive
    }

    /// How many requests wait. A hub leaves none here: it takes none while one is open.
    pub fn waiting(&self) -> usize
        ensures { result ≡ length self.now.waiting }
    {
        self.waiting.len()
    }

    /// The request that waits at a place in their row, the oldest at 0.
    pub fn waiting_at(&self, at: usize) -> Option<&Item>
        ensures { option_map (λ item. shape_of item.now) result ≡ slice_get self.now.waiting at }
    {
        self.waiting.iter().nth(at)
    }

    /// What the open request is for.
    pub fn pending(&self) -> Option<Pending<'_>>
        ensures { option_map purpose_seen result ≡ self.now.pending }
    {
        match &self.pending {
            Some(purpose) => Some(purpose.seen()),
            None => None,
        }
    }

    /// The session at a place.
    fn at(&self, place: u8) -> &Session
        requires { place < MOST_SESSIONS }
        ensures { result.now ≡ session_at place self.now.sessions }
    {
        &self.sessions[usize::from(place)]
    }
}
