//! A link is read once.
ghost use Rattle.std.specs.Prelude.{◌≡◌, ℕ, ◌<◌, ◌≤◌, List, Option, Some, None, length};
ghost use Rattle.gate_outside.specs.Causes.{Rose};
ghost use Rattle.gateway_links.specs.ReadItems.{ReadsItems, ReadsFront, PutAll};
ghost use Rattle.gateway_links.specs.declared.link_read.ReadEnd.TheVariants as ends;

use crate::{Read, Reader, WriterDesk};
use gate_outside::{Inlet, Outlet};
use std::alloc::Global;
use std::sync::Wait;
use std::thread;

/// Why a link is read no more.
#[derive(Clone, Copy, PartialEq, Eq)]
pub enum ReadEnd {
    /// It told its end.
    Ended,
    /// It failed.
    Failed,
    /// The connection is over: it was closed, or no more events are taken, or what is written to it failed.
    Over,
    /// Memory was wanting.
    Memory,
}

/// Reads once, where nothing that came is left. None where the link is to be read on.
pub fn read_once<I: Inlet + Drop, O: Outlet + Drop, W: Wait>(
    rt: &W,
    alloc: Global,
    desk: &WriterDesk<O>,
    reader: &mut Reader<I>,
    buffer: &mut [u8],
) -> Option<ReadEnd>
    requires { 0 < length buffer.old }
    ensures faults { I.faults reader.old.inlet ≤ I.faults reader.new.inlet }
    ensures ends { I.ends reader.old.inlet ≤ I.ends reader.new.inlet }
    ensures front { (first : Option (List ℕ)) → ReadsFront I.rest first reader.old
        → ReadsFront I.rest first reader.new }
    ensures on { result ≡ None
        → (first : Option (List ℕ))
        → ReadsItems I.rest first reader.old
        → ReadsItems I.rest first reader.new }
    ensures end { result ≡ Some ends.Ended → Rose (I.ends reader.old.inlet) (I.ends reader.new.inlet) }
    ensures all { result ≡ Some ends.Ended
        → (first : Option (List ℕ))
        → PutAll I.rest first reader.old
        → PutAll I.rest first reader.new }
    ensures failed { result ≡ Some ends.Failed
        → Rose (I.faults reader.old.inlet) (I.faults reader.new.inlet) }
{
    match reader.read(alloc, buffer) {
        Read::Came => None,
        Read::End => Some(ReadEnd::Ended),
        Read::Failed => Some(ReadEnd::Failed),
        Read::Memory => Some(ReadEnd::Memory),
        Read::NotYet if desk.is_back(rt) => Some(ReadEnd::Over),
        Read::NotYet => {
            thread::yield_now();
            None
        }
    }
}
