//! What can be told of the connections.
ghost use Rattle.std.specs.Prelude.{◌≡◌, List};
ghost use Rattle.gateway_claim.specs.Happenings.{HistoryEntry, is_alive};
ghost use Rattle.gateway_claim.specs.Cores.{TellsStanding, GivesKey};
ghost use Rattle.gateway_claim.specs.Tells.{IsFirstAlive, is_busy, requests_waiting};

use crate::connections::Connections;
use gateway_claim::{ConnectionKey, Standing};

impl Connections {
    ghost use Rattle.gateway_mux.specs.Pictures.{picture, IsPictureOf};
    ghost use Rattle.connection_table.specs.Tables.{IsKeyOf};

    /// Where a connection stands: closed, busy, or ready under its key.
    pub fn standing(&self, conn: u32) -> Standing
        ensures tells { (T : List HistoryEntry)
            → IsPictureOf self.now.bases (picture self.now.seats self.now.upstream) T
            → TellsStanding (is_alive conn T) (is_busy self.now.bases conn T) result }
        ensures key { GivesKey (λ key. IsKeyOf self.now.seats conn key.place) result }
    {
        let Some(seat) = self.seats.seat(conn) else {
            return Standing::Closed;
        };
        if !seat.slot.alive() {
            return Standing::Closed;
        }
        if seat.slot.busy() {
            return Standing::Busy;
        }
        Standing::Ready(ConnectionKey { place: seat.key })
    }

    /// Whether a connection entered, and was not closed.
    pub fn alive(&self, conn: u32) -> bool
        ensures { (T : List HistoryEntry)
            → IsPictureOf self.now.bases (picture self.now.seats self.now.upstream) T
            → result ≡ is_alive conn T }
    {
        match self.seats.slot(conn) {
            Some(slot) => slot.alive(),
            None => false,
        }
    }

    /// Whether a connection is alive and has a request open.
    pub fn busy(&self, conn: u32) -> bool
        ensures { (T : List HistoryEntry)
            → IsPictureOf self.now.bases (picture self.now.seats self.now.upstream) T
            → result ≡ is_busy self.now.bases conn T }
    {
        match self.seats.slot(conn) {
            Some(slot) => slot.alive() && slot.busy(),
            None => false,
        }
    }

    /// How many requests of a connection wait.
    pub fn waiting(&self, conn: u32) -> usize
        ensures { (T : List HistoryEntry)
            → IsPictureOf self.now.bases (picture self.now.seats self.now.upstream) T
            → result ≡ requests_waiting self.now.bases conn T }
    {
        match self.seats.slot(conn) {
            Some(slot) => slot.waiting(),
            None => 0,
        }
    }

    /// The first connection from this number on that is alive.
    pub fn next_alive(&self, from: u32) -> Option<u32>
        ensures { (T : List HistoryEntry)
            → IsPictureOf self.now.bases (picture self.now.seats self.now.upstream) T
            → IsFirstAlive from T result }
    {
        let mut from = from;
        while let Some(conn) = self.seats.next(from) {
            if self.alive(conn) {
                return Some(conn);
            }
            from = conn.checked_add(1)?;
        }
        None
    }
}
