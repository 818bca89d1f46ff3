//! Sources and sinks, and the one fault that they have.
ghost use Rattle.std.specs.Prelude.{ℕ, ◌<◌, ◌≤◌, List, Option, length, IfOk};
ghost use Rattle.gate_outside.specs.Causes.{HasCause};
ghost use Rattle.gate_outside.specs.Contents.{Reads, Writes, WritesAll};

use gate_bytes::after;

/// The one fault of a source or a sink: the outside failed.
#[derive(Clone, Copy, Debug, PartialEq, Eq)]
pub struct Failed;

/// Gives bytes in pieces, until it ends.
pub trait Source {
    /// The bytes that are left, where they are told.
    ghost rest: { Self → Option (List ℕ) };

    /// How often the source has failed.
    ghost faults: { Self → ℕ };

    /// Puts the next bytes in front of `into`, and answers how many they are: 0 at the end of the input alone.
    /// Fails only where the count of faults rose, and then nothing was taken.
    fn read(&mut self, into: &mut [u8]) -> Result<usize, Failed>
        requires { 0 < length into.old }
        ensures bound { IfOk result (λ n. n ≤ length into.new) }
        ensures bytes { Reads (rest self.old) (rest self.new) result into.new }
        ensures cause { HasCause (faults self.old) (faults self.new) result };
}

/// Takes bytes in pieces.
pub trait Sink {
    /// The bytes that were written, where they are told.
    ghost written: { Self → Option (List ℕ) };

    /// How often the sink has failed.
    ghost faults: { Self → ℕ };

    /// Writes the first bytes of the piece, at least one, and answers how many they are.
    /// Fails only where the count of faults rose, and then nothing was written.
    fn write(&mut self, piece: &[u8]) -> Result<usize, Failed>
        requires { 0 < length piece.now }
        ensures bound { IfOk result (λ n. (0 < n) × (n ≤ length piece.now)) }
        ensures bytes { Writes (written self.old) (written self.new) piece.now result }
        ensures cause { HasCause (faults self.old) (faults self.new) result };
}

/// Writes all the bytes, in as many calls as the sink needs. No bytes need no call.
/// Fails only where the count of faults rose; a front of the bytes was written then.
pub fn write_all<K: Sink>(sink: &mut K, bytes: &[u8]) -> Result<(), Failed>
    ensures bytes { WritesAll (K.written sink.old) (K.written sink.new) bytes.now result }
    ensures cause { HasCause (K.faults sink.old) (K.faults sink.new) result }
{
    let mut rest = bytes;
    while !rest.is_empty() {
        let taken = sink.write(rest)?;
        rest = after(rest, taken);
    }
    Ok(())
}
