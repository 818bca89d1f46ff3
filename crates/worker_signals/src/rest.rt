//! A state that no correct run reaches.

use client_ports::Bell;
use std::sync::Wait;

/// Waits for ever, in a state that no correct run reaches and where every answer would be false.
pub fn rest_for_ever<W: Wait, T>(rt: &W) -> T
    ensures { ⊥ }
{
    let bell = Bell::new();
    for _ in rt.forever() {
        bell.pause(rt, 0);
    }
    unreachable!()
}
