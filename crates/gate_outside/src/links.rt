//! The two halves of a link: what comes in by it, and what goes out.
ghost use Rattle.std.specs.Prelude.{◌≡◌, ℕ, ◌<◌, List, Option, Ok, length, IfOk};
ghost use Rattle.gate_outside.specs.declared.links.Got.TheVariants.{End, NotYet};
ghost use Rattle.gate_outside.specs.Causes.{HasCause, RisesWith};
ghost use Rattle.gate_outside.specs.Contents.{Offers};
ghost use Rattle.gate_outside.specs.Links.{Gets, FitsIn, NoneComes};

use crate::{Failed, Sink};

/// What a read of an inlet gave.
#[derive(Clone, Copy, Debug, PartialEq, Eq)]
pub enum Got {
    /// So many bytes, at least one.
    Bytes(usize),
    /// The end of what comes in.
    End,
    /// Nothing for now. The inlet may be read again.
    NotYet,
}

/// Gives the bytes that come in by a link, in pieces.
pub trait Inlet: Send {
    /// The bytes that are left, where they are told.
    ghost rest: { Self → Option (List ℕ) };

    /// How often the inlet has failed.
    ghost faults: { Self → ℕ };

    /// How often it had nothing for now.
    ghost waits: { Self → ℕ };

    /// How often it has told its end.
    ghost ends: { Self → ℕ };

    /// Puts the next bytes in front of `into`, and answers how many they are. Every other answer takes nothing, and comes
    /// only where its count rose; the end comes only where no bytes are left, where they are told.
    fn read(&mut self, into: &mut [u8]) -> Result<Got, Failed>
        requires { 0 < length into.old }
        ensures bound { IfOk result (λ got. FitsIn got (length into.new)) }
        ensures bytes { Gets (rest self.old) (rest self.new) result into.new }
        ensures cause { HasCause (faults self.old) (faults self.new) result }
        ensures waits { RisesWith (waits self.old) (waits self.new) (result ≡ Ok NotYet) }
        ensures ends { RisesWith (ends self.old) (ends self.new) (result ≡ Ok End) }
        ensures given { result ≡ Ok End → NoneComes (rest self.old) };

    /// Ends the link both ways, so that whoever waits for it in the other half is let go. It changes nothing that is told,
    /// and nothing else is promised.
    fn shut(&mut self)
        ensures rest { rest self.new ≡ rest self.old }
        ensures faults { faults self.new ≡ faults self.old }
        ensures waits { waits self.new ≡ waits self.old }
        ensures ends { ends self.new ≡ ends self.old };
}

/// Takes the bytes that go out by a link, in pieces.
pub trait Outlet: Sink + Send {
    /// Writes the first bytes of the piece, as many as the link takes without a long wait, and answers how many they are: 0
    /// where it takes none for now. Fails only where the count of faults rose, and then nothing was written.
    fn offer(&mut self, piece: &[u8]) -> Result<usize, Failed>
        requires { 0 < length piece.now }
        ensures bytes { Offers (Self.written self.old) (Self.written self.new) piece.now result }
        ensures cause { HasCause (Self.faults self.old) (Self.faults self.new) result };

    /// Tells the other side that no more comes. What was written stays so, and it is no fault; nothing else is promised.
    fn shut(&mut self)
        ensures written { Self.written self.new ≡ Self.written self.old }
        ensures faults { Self.faults self.new ≡ Self.faults self.old };
}
