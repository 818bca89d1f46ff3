//! What cases of one connection are played at.
ghost use Rattle.std.specs.Prelude.{◌<◌};
ghost use Rattle.session_one.specs.declared.parts.TheConstants.{MOST_SESSIONS};

use crate::decisions::{tell_decision, tracks};
use crate::gateway::bases;
use crate::replies::tell_reply;
use crate::states::{tell_after, tell_allowed};
use client_slot::Slot;
use connection_table::ConnectionTable;
use gate_bytes::Memory;
use rtsp_uri::Bases;
use session_one::Track;
use std::alloc::Global;
use test_text::{CaseAnswer, CaseFault};

/// What cases of one connection are played at: this connection, the place of the session that its steps are for, and the number
/// of the last request that went up from it; streams that other connections have set up; and the connections that a gateway keeps.
#[derive(Drop)]
pub struct Trial {
    pub(crate) bases: Bases,
    pub(crate) slot: Slot,
    pub(crate) place: u8,
    pub(crate) number: u32,
    pub(crate) seats: ConnectionTable,
    tracks: Vec<Track>,
    ghost within: { place < MOST_SESSIONS },
}

impl Trial {
    /// A connection to which nothing has happened.
    pub fn new(alloc: Global) -> Result<Box<Trial>, Memory> {
        let trial = Trial {
            bases: bases(alloc)?,
            tracks: tracks(alloc)?,
            slot: Slot::new(alloc)?,
            place: 0,
            number: 0,
            seats: ConnectionTable::new(alloc),
        };
        Ok(Box::new(alloc, trial)?)
    }

    /// Does what a word and the rest of its line say, and tells what came.
    pub fn tell(&mut self, alloc: Global, word: &str, rest: &[u8], answer: &mut CaseAnswer) {
        match word {
            "decide" => tell_decision(alloc, &self.bases, &self.tracks, rest, false, answer),
            "keep" => tell_decision(alloc, &self.bases, &self.tracks, rest, true, answer),
            "reply" => tell_reply(alloc, &self.bases, rest, answer),
            "allowed" => tell_allowed(rest, answer),
            "after" => tell_after(alloc, rest, answer),
            _ => self.change(alloc, word, rest, answer),
        }
    }

    /// The same of a word that changes the connection, or tells it.
    fn change(&mut self, alloc: Global, word: &str, rest: &[u8], answer: &mut CaseAnswer) {
        match word {
            "step" => self.step(alloc, rest, answer),
            "show" => self.show(rest, answer),
            "event" => self.event(alloc, rest, answer),
            "seat" => self.tell_seat(alloc, rest, answer),
            _ => answer.unreadable(),
        }
    }

    /// Another connection enters.
    pub(crate) fn renew(&mut self, alloc: Global, answer: &mut CaseAnswer) {
        match Slot::new(alloc) {
            Ok(slot) => {
                self.slot = slot;
                self.place = 0;
            }
            Err(_memory) => answer.fail(CaseFault::Memory),
        }
    }
}
