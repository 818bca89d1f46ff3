//! The queue.
ghost use Rattle.std.specs.Prelude.{◌≡◌, ◌≤◌, ◌↔◌, [], ◌∷◌, ◌++◌, length, drop, slice_get, option_map, IsTrue, IsErr, IfOk, IfErr, OnOk, OnErr};
ghost use Rattle.play_queue.specs.declared.queue.TheConstants.{MOST_PLAYS};

use gate_bytes::Memory;
use std::alloc::Global;
use std::collections::VecDeque;
use std::marker::Model;

/// The most PLAYs that wait (this project's own limit).
pub const MOST_PLAYS: usize = 8;

/// PLAYs that wait, the oldest first. Contracts see the list of them.
#[derive(Drop)]
pub struct PlayQueue<P> {
    plays: VecDeque<P>,
}

impl<P> Model for PlayQueue<P> {
    ghost use Rattle.std.specs.Prelude.{◌≤◌, List};
    ghost use Rattle.std.specs.VecDeque.{deque_len, deque_capacity};
    ghost use Rattle.play_queue.specs.declared.queue.TheConstants.{MOST_PLAYS};

    ghost Value = { List P };

    ghost view = { λ queue. queue.plays.items };

    ghost invariant = { λ queue. (deque_len queue.plays ≤ MOST_PLAYS) × (MOST_PLAYS ≤ deque_capacity queue.plays) };
}

impl<P: Drop> PlayQueue<P> {
    /// The empty queue, with room for all PLAYs that may wait.
    pub fn new(alloc: Global) -> Result<PlayQueue<P>, Memory>
        ensures { IfOk result (λ queue. queue ≡ []) }
    {
        Ok(PlayQueue {
            plays: VecDeque::with_capacity(alloc, MOST_PLAYS)?,
        })
    }

    /// Puts a PLAY at the end. Where eight stand it is given back.
    pub fn put(&mut self, play: P) -> Result<(), P>
        ensures full { IsErr result ↔ (length self.old ≡ MOST_PLAYS) }
        ensures ok { OnOk result (self.new ≡ self.old ++ play ∷ []) }
        ensures given_back { IfErr result (λ refused. refused ≡ play) }
        ensures err { OnErr result (self.new ≡ self.old) }
    {
        if self.plays.len() == MOST_PLAYS {
            return Err(play);
        }
        self.plays.push_back_reserved(play);
        Ok(())
    }

    /// Takes the first PLAY out.
    pub fn next(&mut self) -> Option<P>
        ensures first { result ≡ slice_get self.old 0 }
        ensures rest { self.new ≡ drop 1 self.old }
    {
        self.plays.pop_front()
    }

    /// The first PLAY.
    pub fn first(&self) -> Option<&P>
        ensures { option_map (λ play. play.now) result ≡ slice_get self.now 0 }
    {
        self.plays.front()
    }

    /// Drops all PLAYs.
    pub fn clear(&mut self)
        ensures { self.new ≡ [] }
    {
        self.plays.clear();
    }

    /// How many PLAYs wait.
    pub fn len(&self) -> usize
        ensures length { result ≡ length self.now }
        ensures within { result ≤ MOST_PLAYS }
    {
        self.plays.len()
    }

    /// Whether no PLAY waits.
    pub fn is_empty(&self) -> bool
        ensures { IsTrue result ↔ (self.now ≡ []) }
    {
        self.plays.is_empty()
    }
}
