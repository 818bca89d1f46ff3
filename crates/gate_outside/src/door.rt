//! Where the links of players come from.
ghost use Rattle.std.specs.Prelude.{◌≡◌, ℕ, List, Option};
ghost use Rattle.gate_outside.specs.Causes.{HasCause, RisesWith};
ghost use Rattle.gate_outside.specs.Doors.{Admits, GivesNewLink, HadNone, HasEnded};

use crate::{Failed, Inlet, Outlet};

/// What a door answered when it was asked for a link.
#[derive(Clone, Copy, Debug, PartialEq, Eq)]
pub enum Arrived<I, O> {
    /// A link, by its two halves.
    Link(I, O),
    /// None for now. The door may be asked again.
    NotYet,
    /// No link comes any more.
    End,
}

/// Gives the links of players as they come, one after another.
pub trait Door: Send {
    /// What comes in by a link.
    type Inward: Inlet + Drop;

    /// What goes out by a link.
    type Outward: Outlet + Drop;

    /// The links that are left, where they are told.
    ghost links: { Self → Option (List (Self.Inward × Self.Outward)) };

    /// How often the door has failed.
    ghost faults: { Self → ℕ };

    /// How often it had no link for now.
    ghost waits: { Self → ℕ };

    /// How often it has told that no link comes any more.
    ghost ends: { Self → ℕ };

    /// Gives the next link, which was not used before. Every other answer takes none, and comes only where its count rose.
    fn accept(&mut self) -> Result<Arrived<Self::Inward, Self::Outward>, Failed>
        ensures links { Admits (links self.old) (links self.new) result }
        ensures cause { HasCause (faults self.old) (faults self.new) result }
        ensures waits { RisesWith (waits self.old) (waits self.new) (HadNone result) }
        ensures ends { RisesWith (ends self.old) (ends self.new) (HasEnded result) }
        ensures fresh { GivesNewLink Self.Inward.faults Self.Inward.ends Self.Outward.faults
            Self.Outward.written result };

    /// Takes a link back whose connection is over. No count changes, and the links left stay.
    fn give_back(&mut self, inward: Self::Inward, outward: Self::Outward)
        ensures links { links self.new ≡ links self.old }
        ensures faults { faults self.new ≡ faults self.old }
        ensures waits { waits self.new ≡ waits self.old }
        ensures ends { ends self.new ≡ ends self.old };
}
