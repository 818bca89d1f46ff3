//! Where the parts of an inlet in memory begin, and what each waits for.
ghost use Rattle.std.specs.Prelude.{◌≡◌, ◌<◌, IfOk, IfSome};
ghost use Rattle.gate_outside.specs.Links.{parts_joined};

use crate::Part;
use gate_bytes::{Memory, Text};
use std::alloc::Global;
use std::sync::Arc;
use std::sync::atomic::{AtomicU64, Ordering};

/// A part begins at this place of the bytes, and is given once its outlet has taken enough.
#[derive(Drop)]
pub struct Mark {
    start: usize,
    outlet: u32,
    after: u64,
}

impl Mark {
    /// Whether the outlet has taken enough. One that is not tied has taken nothing.
    fn is_due(&self, ties: &[Tie]) -> bool {
        for tie in ties {
            if tie.number == self.outlet && self.after <= tie.taken.load(Ordering::SeqCst) {
                return true;
            }
        }
        self.after == 0
    }
}

/// The outlet that has this number, by the count of what it has taken.
#[derive(Drop)]
pub struct Tie {
    /// The number.
    pub number: u32,
    /// How many bytes it has taken.
    pub taken: Arc<AtomicU64>,
}

impl Tie {
    /// The same tie once more. Both tell what the outlet takes from now on.
    pub fn try_clone(&self) -> Result<Tie, Memory> {
        Ok(Tie {
            number: self.number,
            taken: Arc::try_clone(&self.taken)?,
        })
    }
}

/// The bytes of the parts, one after another, and where each part begins.
pub fn laid_out(alloc: Global, parts: &[Part]) -> Result<(Text, Vec<Mark>), Memory>
    ensures { IfOk result (λ out. out.0 ≡ parts_joined parts.now) }
{
    let mut bytes = Text::new(alloc);
    let mut marks = Vec::new(alloc);
    for part in parts {
        marks.push(Mark {
            start: bytes.len(),
            outlet: part.outlet,
            after: part.after,
        })?;
        bytes.push_slice(part.bytes.as_bytes())?;
    }
    Ok((bytes, marks))
}

/// How many bytes may be given from this place on, at least one, before the next part begins. None where a part that
/// begins there still waits.
pub fn room_at(marks: &[Mark], ties: &[Tie], at: usize) -> Option<usize>
    ensures { IfSome result (λ most. 0 < most) }
{
    for mark in marks {
        if mark.start > at {
            return Some(mark.start - at);
        }
        if !mark.is_due(ties) {
            return None;
        }
    }
    Some(usize::MAX)
}
