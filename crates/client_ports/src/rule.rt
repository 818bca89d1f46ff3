//! The rule of a port: what was put is what was taken, followed by what the queue holds.

use crate::Parcel;
use crossbeam_queue::protocol::{Join, Lesson, Outcome, Protocol, Split};
use crossbeam_queue::{Pass, RuledArrayQueue};
use std::collections::LinkedList;

/// What the pass of one end knows. No value of it is made.
pub struct Knowledge {
    /// Whether it may put. One pass of a port may, and knows all that was put.
    pub puts: bool,
    /// Whether it may take. One pass of a port may, and knows all that was taken.
    pub takes: bool,
    /// The parcels that were put, the oldest first.
    pub put: LinkedList<Parcel>,
    /// The parcels that were taken, the oldest first.
    pub taken: LinkedList<Parcel>,
    /// The first of the parcels that were put, as far as the pass was told of them.
    pub told: LinkedList<Parcel>,
    /// The first of the parcels that were taken, as far as the pass was told of them.
    pub heard: LinkedList<Parcel>,
}

/// What was put is what was taken, followed by what the queue holds.
pub struct InLine;

impl Protocol<Parcel, Knowledge> for InLine {
    ghost use Rattle.std.specs.Prelude.{true, []};
    ghost use Rattle.client_ports.specs.Rule.{knows, StandsInLine};

    ghost holds = { StandsInLine };

    ghost first = { knows true true [] [] [] [] };
}

/// A new pass takes, and this one puts. At first neither knows of a parcel.
pub struct PassEnds;

impl Split<Knowledge> for PassEnds {
    ghost use Rattle.std.specs.Prelude.{true, false, []};
    ghost use Rattle.client_ports.specs.Rule.{knows};

    ghost left = { λ v. knows true false v.put [] [] [] };

    ghost right = { λ v. knows false true [] v.taken [] [] };
}

impl Join<Knowledge> for PassEnds {
    ghost use Rattle.std.specs.Prelude.{true, false, []};
    ghost use Rattle.client_ports.specs.Rule.{knows};

    ghost both = { λ v w. knows true true v.put w.taken [] [] };

    ghost spent = { knows false false [] [] [] [] };
}

/// A new pass knows what this one has put, and another takes that in.
pub struct PutWord;

impl Split<Knowledge> for PutWord {
    ghost use Rattle.std.specs.Prelude.{false, []};
    ghost use Rattle.client_ports.specs.Rule.{knows};

    ghost left = { λ v. v };

    ghost right = { λ v. knows false false [] [] v.put [] };
}

impl Join<Knowledge> for PutWord {
    ghost use Rattle.std.specs.Prelude.{false, []};
    ghost use Rattle.client_ports.specs.Rule.{knows};

    ghost both = { λ v w. knows v.puts v.takes v.put v.taken w.told v.heard };

    ghost spent = { knows false false [] [] [] [] };
}

/// A new pass knows what this one has taken, and another takes that in.
pub struct TakenWord;

impl Split<Knowledge> for TakenWord {
    ghost use Rattle.std.specs.Prelude.{false, []};
    ghost use Rattle.client_ports.specs.Rule.{knows};

    ghost left = { λ v. v };

    ghost right = { λ v. knows false false [] [] [] v.taken };
}

impl Join<Knowledge> for TakenWord {
    ghost use Rattle.std.specs.Prelude.{false, []};
    ghost use Rattle.client_ports.specs.Rule.{knows};

    ghost both = { λ v w. knows v.puts v.takes v.put v.taken v.told w.heard };

    ghost spent = { knows false false [] [] [] [] };
}

/// A parcel is put at the end. Where the queue is full, it holds the last parcels that were put, and none that the pass was
/// told was taken.
pub struct Puts;

impl Outcome<Parcel, Knowledge> for Puts {
    ghost use Rattle.std.specs.Prelude.{◌≡◌, [], ◌∷◌, ◌++◌};
    ghost use Rattle.client_ports.specs.Rule.{knows};

    ghost then = { λ v parcel w. w ≡ knows v.puts v.takes (v.put ++ parcel ∷ []) v.taken v.told v.heard };
}

impl Lesson<Parcel, Knowledge> for Puts {
    ghost use Rattle.client_ports.specs.Rule.{EndsPast};

    ghost fact = { λ v items. EndsPast v.heard v.put items };
}

/// The first parcel is taken. Where the queue is empty, none that the pass was told of is left in it.
pub struct Takes;

impl Outcome<Parcel, Knowledge> for Takes {
    ghost use Rattle.std.specs.Prelude.{◌≡◌, [], ◌∷◌, ◌++◌};
    ghost use Rattle.client_ports.specs.Rule.{knows};

    ghost then = { λ v parcel w. w ≡ knows v.puts v.takes v.put (v.taken ++ parcel ∷ []) v.told v.heard };
}

impl Lesson<Parcel, Knowledge> for Takes {
    ghost use Rattle.std.specs.Prelude.{◌++◌};
    ghost use Rattle.client_ports.specs.Rule.{BeginsIn};

    ghost fact = { λ v items. BeginsIn v.told (v.taken ++ items) };
}

/// What is known where one pass puts and takes.
pub struct Whole;

impl Lesson<Parcel, Knowledge> for Whole {
    ghost use Rattle.std.specs.Prelude.{◌≡◌, ◌++◌};

    ghost fact = { λ v items. v.put ≡ v.taken ++ items };
}

/// A queue of parcels under the rule.
pub type ParcelQueue = RuledArrayQueue<Parcel, Knowledge, InLine>;

/// The pass of one end.
pub type EndPass = Pass<Parcel, Knowledge>;
