//! What changes a session.
ghost use Rattle.std.specs.Prelude.{◌≡◌, ◌≤◌, ◌<◌, length, slice_get, true, Some, IfSome, IsSome};
ghost use Rattle.client_slot.specs.declared.limits.TheConstants.{LONGEST_URI};
ghost use Rattle.session_one.specs.declared.parts.TheConstants.{MOST_TRACKS};
ghost use Rattle.play_queue.specs.declared.queue.TheConstants.{MOST_PLAYS};
ghost use Rattle.rtsp_small.specs.Sessions.{is_session_id};
ghost use Rattle.session_two.specs.Ends.{end_counts};
ghost use Rattle.client_slot.specs.SessionTurns.{part_then};

use super::Session;
use crate::gain::BroughtParts;
use crate::session_turn::{PartTurn, SessionTurn};
use crate::waiting_play::WaitingPlay;
use gate_bytes::Text;
use session_one::{Play, State, Track};
use session_two::Names;

impl Session {
    ghost use Rattle.client_slot.specs.Gains.{brought_seen};
    ghost use Rattle.client_slot.specs.SessionTurns.{tracks_then, turned};
    ghost use Rattle.client_slot.specs.SessionChanges.{when_ended, when_next, when_queued, when_unqueued};

    /// A request for it has its final reply.
    pub fn turn(&mut self, turn: SessionTurn, brought: BroughtParts)
        requires uri { IfSome brought.control (λ uri. length uri ≤ LONGEST_URI) }
        requires id { IfSome brought.id (λ id. is_session_id id ≡ true) }
        requires room { IsSome brought.track → length self.old.tracks < MOST_TRACKS }
        ensures { self.new ≡ turned turn (brought_seen brought) self.old }
    {
        let BroughtParts {
            number,
            control,
            id,
            track,
        } = brought;
        self.state = turn.state;
        turn_part(&mut self.id, turn.id, id);
        turn_part(&mut self.control, turn.control, control);
        self.turn_tracks(turn.tracks, track);
        self.turn_running(turn.running, number);
        if turn.queue == PartTurn::Loses {
            self.queue.clear();
        }
    }

    /// What becomes of its streams.
    fn turn_tracks(&mut self, part: PartTurn, track: Option<Track>)
        requires { IsSome track → length self.old.tracks < MOST_TRACKS }
        ensures { self.new ≡ record self.old { tracks = tracks_then part self.old.tracks track } }
    {
        match part {
            PartTurn::Keeps => {}
            PartTurn::Takes => {
                if let Some(track) = track {
                    self.tracks.push_reserved(track);
                }
            }
            PartTurn::Loses => self.tracks.clear(),
        }
    }

    /// What becomes of the PLAY that runs.
    fn turn_running(&mut self, part: PartTurn, number: u32)
        ensures { self.new ≡ record self.old { running = part_then part self.old.running (Some number) } }
    {
        match part {
            PartTurn::Keeps => {}
            PartTurn::Takes => self.running.started(number),
            PartTurn::Loses => self.running.stop(),
        }
    }

    /// The end of what plays was told: whether it counts.
    pub fn end(&mut self, names: Names) -> bool
        ensures counts { result ≡ end_counts self.old.running names }
        ensures ended { self.new ≡ when_ended names self.old }
    {
        let counts = self.running.ended(names);
        if counts && self.queue.is_empty() {
            self.state = State::Ready;
        }
        counts
    }

    /// A PLAY waits.
    pub fn queue(&mut self, play: WaitingPlay)
        requires uri { length play.uri ≤ LONGEST_URI }
        requires room { length self.old.queue < MOST_PLAYS }
        ensures { self.new ≡ when_queued play self.old }
    {
        let _ = self.queue.put(play);
    }

    /// The first PLAY that waits is taken out.
    pub fn next(&mut self) -> Option<Play>
        ensures first { result ≡ slice_get self.old.queue 0 }
        ensures uri { IfSome result (λ play. length play.uri ≤ LONGEST_URI) }
        ensures rest { self.new ≡ when_next self.old }
    {
        match self.queue.next() {
            Some(waiting) => Some(waiting.into_play()),
            None => None,
        }
    }

    /// No PLAY waits any longer.
    pub fn unqueue(&mut self)
        ensures { self.new ≡ when_unqueued self.old }
    {
        self.queue.clear();
    }
}

/// What becomes of a text.
fn turn_part(text: &mut Option<Text>, part: PartTurn, new: Option<Text>)
    ensures { text.new ≡ part_then part text.old new }
{
    match part {
        PartTurn::Keeps => {}
        PartTurn::Takes => *text = new,
        PartTurn::Loses => *text = None,
    }
}
