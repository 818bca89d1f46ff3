//! The session of one connection.
ghost use Rattle.rtsp_small.specs.declared.session.TheConstants.{LONGEST_SESSION_ID};
ghost use Rattle.std.specs.Prelude.{◌≡◌, ◌≤◌, true, length, codes, slice_get, option_map, unwrap_or, is_some, IfOk, IfSome};
ghost use Rattle.rtsp_small.specs.Sessions.{is_session_id};
ghost use Rattle.head_two.specs.Requests.{request_text};
ghost use Rattle.client_slot.specs.declared.limits.TheConstants.{LONGEST_URI, CLOSING_ROOM};

mod changes;

use crate::closing_room::ClosingRoom;
use crate::waiting_play::WaitingPlay;
use gate_bytes::{Memory, Text};
use play_queue::PlayQueue;
use session_one::{MOST_TRACKS, Play, State, Track};
use session_two::Running;
use std::alloc::Global;
use std::marker::Model;

/// A session, with room for its streams and for pointers to its PLAYs that wait. Contracts see it as the definitions do.
#[derive(Drop)]
pub(crate) struct Session {
    state: State,
    id: Option<Text>,
    control: Option<Text>,
    tracks: Vec<Track>,
    running: Running,
    queue: PlayQueue<WaitingPlay>,
}

impl Model for Session {
    ghost use Rattle.client_slot.specs.Session.{PlayerSession};

    ghost Value = { PlayerSession };

    ghost use Rattle.client_slot.specs.Bounds.{IsBounded};
    ghost use Rattle.std.specs.Prelude.{◌≤◌, vec_capacity};
    ghost use Rattle.session_one.specs.declared.parts.TheConstants.{MOST_TRACKS};

    ghost view = { λ s. record { state = s.state; id = s.id; control = s.control; tracks = s.tracks.items; running = s.running; queue = s.queue } };

    ghost invariant = { λ s. IsBounded (record { state = s.state; id = s.id; control = s.control; tracks = s.tracks.items; running = s.running; queue = s.queue }) × (MOST_TRACKS ≤ vec_capacity s.tracks) };
}

impl Session {
    ghost use Rattle.client_slot.specs.Session.{new_session};
    ghost use Rattle.client_slot.specs.ClosingRequest.{session_closing};
    ghost use Rattle.client_slot.specs.Places.{is_session, has_due};

    /// Nothing is set up, and room is made for all streams and for pointers to all PLAYs that may wait.
    pub fn new(alloc: Global) -> Result<Session, Memory>
        ensures { IfOk result (λ session. session ≡ new_session) }
    {
        Ok(Session {
            state: State::Init,
            id: None,
            control: None,
            tracks: Vec::with_capacity(alloc, MOST_TRACKS)?,
            running: Running::new(),
            queue: PlayQueue::new(alloc)?,
        })
    }

    /// Its state.
    pub fn state(&self) -> State
        ensures { result ≡ self.now.state }
    {
        self.state
    }

    /// Its id, where the server made it.
    pub fn id(&self) -> Option<&[u8]>
        ensures id { option_map (λ id. id.now) result ≡ self.now.id }
        ensures valid { IfSome result (λ id. is_session_id id.now ≡ true) }
        ensures short { IfSome result (λ id. length id.now ≤ LONGEST_SESSION_ID) }
    {
        match &self.id {
            Some(id) => Some(id.as_bytes()),
            None => None,
        }
    }

    /// Whether the server made it.
    pub fn is_set_up(&self) -> bool
        ensures { result ≡ is_some self.now.id }
    {
        self.id.is_some()
    }

    /// Whether it has this id.
    pub fn has_id(&self, id: &[u8]) -> bool
        ensures { result ≡ is_session id.now self.now.id }
    {
        match &self.id {
            Some(own) => own.as_bytes() == id,
            None => false,
        }
    }

    /// Whether a PLAY waits, and none runs.
    pub fn has_due(&self) -> bool
        ensures { result ≡ has_due self.now }
    {
        self.running.current().is_none() && !self.queue.is_empty()
    }

    /// The URI that stands for what it is about.
    pub fn control(&self) -> Option<&[u8]>
        ensures { option_map (λ uri. uri.now) result ≡ self.now.control }
    {
        match &self.control {
            Some(uri) => Some(uri.as_bytes()),
            None => None,
        }
    }

    /// The streams that are set up.
    pub fn tracks(&self) -> &[Track]
        ensures { result.now ≡ self.now.tracks }
    {
        self.tracks.as_slice()
    }

    /// The number of the PLAY that runs.
    pub fn running(&self) -> Option<u32>
        ensures { result ≡ self.now.running }
    {
        self.running.current()
    }

    /// How many PLAYs wait.
    pub fn queued(&self) -> usize
        ensures { result ≡ length self.now.queue }
    {
        self.queue.len()
    }

    /// What it is about: `*` where nothing stands for that.
    fn subject(&self) -> &[u8]
        ensures uri { result.now ≡ unwrap_or self.now.control (codes "*") }
        ensures short { length result.now ≤ LONGEST_URI }
    {
        match &self.control {
            Some(uri) => uri.as_bytes(),
            None => b"*",
        }
    }

    /// The text of the TEARDOWN with this number, where it has an id.
    pub fn teardown_text(&self, room: ClosingRoom, number: u32) -> Option<Text>
        ensures text { result ≡ session_closing number self.now }
        ensures short { IfSome result (λ text. length text ≤ CLOSING_ROOM) }
    {
        let id = self.id()?;
        Some(room.write(self.subject(), number, id))
    }

    /// The first PLAY that waits.
    pub fn first_queued(&self) -> Option<&Play>
        ensures { option_map (λ play. play.now) result ≡ slice_get self.now.queue 0 }
    {
        match self.queue.first() {
            Some(waiting) => Some(waiting.play()),
            None => None,
        }
    }
}
