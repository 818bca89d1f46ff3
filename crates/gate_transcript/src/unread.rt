//! Bytes that wait to be read.
ghost use Rattle.std.specs.Prelude.{◌≡◌, ◌<◌, ◌≤◌, [], ◌++◌, length, take, drop, IfOk, OnOk, OnErr};
ghost use Rattle.gate_outside.specs.Causes.{HasCause};
ghost use Rattle.gate_transcript.specs.Unread.{ReadsOnto, RoseAtSource};

use crate::fault::ReadFault;
use bytes::BytesMut;
use gate_bytes::Memory;
use gate_outside::Source;
use std::alloc::Global;
use std::marker::Model;

/// The most bytes that one read asks for.
pub const READ_SIZE: usize = 65_536;

/// The bytes that were fed and not yet taken.
#[derive(Drop)]
pub struct UnreadBytes {
    bytes: BytesMut,
}

impl Model for UnreadBytes {
    ghost use Rattle.std.specs.Prelude.{ℕ, List};

    ghost Value = { List ℕ };

    ghost view = { λ unread. unread.bytes.items };
}

impl UnreadBytes {
    /// No bytes. It takes no memory.
    pub fn new(alloc: Global) -> UnreadBytes
        ensures { result ≡ [] }
    {
        UnreadBytes {
            bytes: BytesMut::new(alloc),
        }
    }

    /// The bytes.
    pub fn as_bytes(&self) -> &[u8]
        ensures { result.now ≡ self.now }
    {
        self.bytes.as_slice()
    }

    /// Takes so many bytes off the front.
    pub fn skip(&mut self, bytes: usize)
        requires { bytes ≤ length self.old }
        ensures { self.new ≡ drop bytes self.old }
    {
        self.bytes.advance(bytes);
    }

    /// Appends the piece.
    pub fn push(&mut self, piece: &[u8]) -> Result<(), Memory>
        ensures ok { OnOk result (self.new ≡ self.old ++ piece.now) }
        ensures err { OnErr result (self.new ≡ self.old) }
    {
        self.bytes.extend_from_slice(piece)?;
        Ok(())
    }

    /// Appends the next bytes of a source, which puts them into their place: so many at most, and [`READ_SIZE`] at most.
    /// Where memory is wanting the source was not read.
    pub fn read<S: Source>(&mut self, source: &mut S, most: usize) -> Result<usize, ReadFault>
        requires { 0 < most }
        ensures bytes { ReadsOnto (S.rest source.old) (S.rest source.new) self.old self.new result }
        ensures within { IfOk result (λ count. count ≤ most) }
        ensures cause { RoseAtSource (S.faults source.old) (S.faults source.new) result }
    {
        let most = most.min(READ_SIZE);
        self.bytes.reserve(most)?;
        let held = self.bytes.len();
        self.bytes.advance_mut(most);
        match source.read(&mut self.bytes.as_mut_slice()[held..]) {
            Ok(count) => {
                self.bytes.truncate(held + count);
                Ok(count)
            }
            Err(_) => {
                self.bytes.truncate(held);
                Err(ReadFault::Source)
            }
        }
    }
}
