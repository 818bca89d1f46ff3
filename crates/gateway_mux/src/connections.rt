//! The connections of a gateway: those of its players, and the one to the server.
ghost use Rattle.std.specs.Prelude.{◌≡◌, ◌<◌, ◌≤◌, [], true, false, IsOk, OnOk};
ghost use Rattle.gateway_mux.specs.Pictures.{picture, IsKept, IsPictureOf};
ghost use Rattle.connection_table.specs.Tables.{is_ready};
ghost use Rattle.gateway_mux.specs.Spare.{left};
ghost use Rattle.session_one.specs.declared.parts.TheConstants.{MOST_SESSIONS};

use crate::upstream::UpstreamBooks;
use connection_table::ConnectionTable;
use gate_bytes::Memory;
use gateway_claim::Bases;
use session_one::MOST_SESSIONS;
use std::alloc::Global;

/// The connections of a gateway while its connection to the server stands: they are what some history has, and
/// there is room for all that they can still ask for.
#[derive(Drop)]
pub(crate) struct Connections {
    pub bases: Bases,
    pub seats: ConnectionTable,
    pub upstream: UpstreamBooks,
    ghost kept: { ∥ IsKept bases (picture seats upstream) (left 1 upstream.requests.spare seats)
        (left MOST_SESSIONS upstream.sessions.spare seats) ∥₁ },
    ghost spare: { is_ready seats ≡ true → 0 < upstream.requests.spare },
    ghost spare_session: { is_ready seats ≡ true → MOST_SESSIONS ≤ upstream.sessions.spare },
}

impl Connections {
    ghost use Rattle.gateway_mux.specs.Enter.{IsNewIn, IsEntered, IsAsBefore};

    /// No player, for a gateway with these addresses. It takes no memory.
    pub fn new(alloc: Global, bases: Bases) -> Connections
        ensures bases { result.bases ≡ bases }
        ensures none { IsPictureOf bases (picture result.seats result.upstream) [] }
        ensures ready { is_ready result.seats ≡ false }
    {
        Connections {
            bases,
            seats: ConnectionTable::new(alloc),
            upstream: UpstreamBooks::starting(alloc, 1),
        }
    }

    /// Takes the memory for one connection more, and for all that it can ask for. Where that was taken
    /// already, no memory is.
    pub fn prepare(&mut self, alloc: Global) -> Result<(), Memory>
        ensures same { IsAsBefore (picture self.old.seats self.old.upstream)
            (picture self.new.seats self.new.upstream) }
        ensures ready { OnOk result (is_ready self.new.seats ≡ true) }
        ensures free { is_ready self.old.seats ≡ true → IsOk result }
        ensures bases { self.new.bases ≡ self.old.bases }
    {
        if self.seats.is_ready() {
            return Ok(());
        }
        self.upstream.requests.room()?;
        for _place in 0..MOST_SESSIONS {
            self.upstream.sessions.room()?;
        }
        self.seats.prepare(alloc)
    }

    /// A player's connection enters, under a number that never entered. It takes no memory.
    pub fn enter(&mut self, conn: u32)
        requires ready { is_ready self.old.seats ≡ true }
        requires new { ∥ IsNewIn self.old.bases (picture self.old.seats self.old.upstream) conn ∥₁ }
        ensures entered { IsEntered conn (picture self.old.seats self.old.upstream)
            (picture self.new.seats self.new.upstream) }
        ensures ready { is_ready self.new.seats ≡ false }
        ensures bases { self.new.bases ≡ self.old.bases }
    {
        self.seats.enter(conn);
    }
}
