//! For whom something was put that is not yet written.
ghost use Rattle.std.specs.Prelude.{◌≡◌, ◌%◌, ℕ, None, Some, slice_set};
ghost use Rattle.worker_signals.specs.DuePlayers.{due_player_at, due_beside, pushed_out, taken_if, left_after};

use crate::flow::PLACES;
use crate::signals::Ring;

/// A player for whom something was put that is not yet written.
#[derive(Clone, Copy, Debug, PartialEq, Eq)]
pub struct DuePlayer {
    /// The number of its connection.
    pub conn: u32,
    /// How its writer is to be woken.
    pub ring: Ring,
    /// Whether so much waits that it is written at once.
    pub is_ripe: bool,
}

/// The players for whom something was put that is not yet written: one for each place, at which another may be.
#[derive(Clone, Copy)]
pub struct Due {
    players: [Option<DuePlayer>; PLACES],
}

impl Due {
    /// None of them.
    pub fn new() -> Due
        ensures { (place : ℕ) → due_player_at place result.players ≡ None }
    {
        Due {
            players: [None; PLACES],
        }
    }

    /// This player too. Where another one is due at its place, that one is answered, and is due no longer.
    pub fn add(&mut self, player: DuePlayer) -> Option<DuePlayer>
        ensures out { result ≡ pushed_out player (due_player_at (player.conn % PLACES) self.old.players) }
        ensures due { self.new.players
            ≡ slice_set self.old.players (player.conn % PLACES)
            (Some (due_beside player (due_player_at (player.conn % PLACES) self.old.players))) }
    {
        let place = &mut self.players[player.conn as usize % PLACES];
        let Some(before) = *place else {
            *place = Some(player);
            return None;
        };
        if before.conn != player.conn {
            *place = Some(player);
            return Some(before);
        }
        *place = Some(DuePlayer {
            conn: player.conn,
            ring: before.ring.or(player.ring),
            is_ripe: before.is_ripe || player.is_ripe,
        });
        None
    }

    /// The player that is due at this place, who is due no longer; where only ripe ones are asked for, only if it is ripe.
    pub fn take(&mut self, place: usize, only_ripe: bool) -> Option<DuePlayer>
        ensures taken { result ≡ taken_if only_ripe (due_player_at place self.old.players) }
        ensures left { self.new.players ≡ left_after result place self.old.players }
    {
        if place >= PLACES {
            return None;
        }
        let player = self.players[place]?;
        if only_ripe && !player.is_ripe {
            return None;
        }
        self.players[place] = None;
        Some(player)
    }
}
