//! The eight lines that a drill prints.
ghost use Rattle.std.specs.Prelude.{◌≡◌, ◌++◌, IfOk, OnOk};
ghost use Rattle.drill_run.specs.Reports.{named_number, drill_lines};

use crate::counts::Counts;
use gate_bytes::{Memory, Text, push_decimal};
use std::alloc::Global;

/// Appends a name, a space, and a number.
fn push_number(text: &mut Text, name: &[u8], number: u64) -> Result<(), Memory>
    ensures { OnOk result (text.new ≡ text.old ++ named_number name.now number) }
{
    text.push_slice(name)?;
    text.push_slice(b" ")?;
    push_decimal(text, number)?;
    Ok(())
}

/// The lines of a drill with so many players, these counts, and so many turns.
pub fn drill_lines(alloc: Global, players: u32, counts: &Counts, turns: u64) -> Result<Text, Memory>
    ensures { IfOk result (λ text. text ≡ drill_lines players counts.now turns) }
{
    let mut text = Text::with_room(alloc, 256)?;
    push_number(&mut text, b"clients", u64::from(players))?;
    push_number(&mut text, b"\nrequests", counts.requests)?;
    push_number(&mut text, b"\nreplies", counts.replies)?;
    push_number(&mut text, b"\nframes", counts.frames_down)?;
    push_number(&mut text, b"", counts.frames_up)?;
    push_number(&mut text, b"\nnotifies", counts.notifies)?;
    push_number(&mut text, b"\nupstream", counts.upstream)?;
    push_number(&mut text, b"\nturns", turns)?;
    push_number(&mut text, b"\nbytes", counts.bytes)?;
    text.push_slice(b"\n")?;
    Ok(text)
}
