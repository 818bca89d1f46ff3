//! Where the first item of a stream stands.
ghost use Rattle.std.specs.Prelude.{◌≡◌, ◌≤◌, ◌<◌, ◌+◌, ◌-◌, ◌*◌, false, length, take, min, slice_index, IfOk};
ghost use Rattle.gate_bytes.specs.Ascii.{dollar};
ghost use Rattle.rtsp_head.specs.Items.{blank_lines, begins_blank};
ghost use Rattle.rtsp_frame.specs.Fronts.{IsKnownFront, head_held};
ghost use Rattle.rtsp_frame.specs.StreamFronts.{IsSpanFound, IsStreamFront, IsMarkedFront, span_cost, owed, when_come};
ghost use Rattle.rtsp_head.specs.MarkedHeads.{IsMarkedHead};

use crate::item_front::{ItemFront, StreamFront};
use crate::message::message_span;
use gate_bytes::{Steps, after, look};
use rtsp_head::{Extent, HeadMarks, ItemKind, Span};
use std::sync::ledger::Ledger;

/// What stands first in a stream, in eight steps a byte. Where the first line and the headers of a whole item stand is marked.
pub fn stream_front<L: Ledger>(
    stream: &[u8],
    steps: &mut Steps<L>,
    marks: &mut HeadMarks,
) -> StreamFront
    ensures front { IsStreamFront stream.now result }
    ensures marks { IsMarkedFront stream.now result marks.new }
    ensures steps { steps.new + owed result (length stream.now) ≤ steps.old + 8 * length stream.now }
{
    let skipped = blank_lines(stream, steps);
    match first_span(after(stream, skipped), steps, marks) {
        Ok(span) => StreamFront::Whole(Extent { skipped, span }),
        Err(front) => StreamFront::Begun { skipped, front },
    }
}

/// What stands first in a stream where something is known of so many bytes, to which the others were added. The four
/// steps a byte of an unfinished head pay for the look at all of it, once it is whole.
#[inline(always)]
pub fn front_with<L: Ledger>(
    bytes: &[u8],
    front: ItemFront,
    held: usize,
    steps: &mut Steps<L>,
    marks: &mut HeadMarks,
) -> StreamFront
    requires within { held ≤ length bytes.now }
    requires known { IsKnownFront (take held bytes.now) front }
    ensures front { IsStreamFront bytes.now result }
    ensures marks { IsMarkedFront bytes.now result marks.new }
    ensures steps { steps.new + owed result (length bytes.now)
        ≤ steps.old + 4 * head_held front held + 8 * (length bytes.now - held) + 4 }
{
    match front {
        ItemFront::Nothing => stream_front(bytes, steps, marks),
        ItemFront::Frame => {
            marks.forget();
            StreamFront::at_once(frame_span(bytes, steps))
        }
        ItemFront::Line(line) => StreamFront::at_once(message_span(
            bytes, line, held, steps, marks,
        )),
        ItemFront::End(span) => {
            marks.forget();
            StreamFront::at_once(when_come(bytes.len(), span))
        }
    }
}

/// The bytes of the empty lines at the front, and a look at what stands behind them.
pub fn blank_lines<L: Ledger>(stream: &[u8], steps: &mut Steps<L>) -> usize
    ensures count { result ≡ blank_lines stream.now }
    ensures steps { steps.new ≤ steps.old + 2 * min (length stream.now) (result + 1) }
{
    let mut count = 0;
    let mut left = stream;
    while begins_blank(left, steps) {
        count += 1;
        left = after(left, 1);
    }
    count
}

/// Whether the first byte belongs to an empty line: an LF, or a CR before an LF.
fn begins_blank<L: Ledger>(bytes: &[u8], steps: &mut Steps<L>) -> bool
    ensures blank { result ≡ begins_blank bytes.now }
    ensures steps { steps.new ≤ steps.old + 2 * min (length bytes.now) 1 }
{
    if bytes.is_empty() {
        return false;
    }
    match look(bytes, 0, steps) {
        b'\n' => true,
        b'\r' => bytes.len() > 1 && look(bytes, 1, steps) == b'\n',
        _ => false,
    }
}

/// The item that begins with the first byte, which no empty line does. That byte was looked at already.
#[inline(always)]
fn first_span<L: Ledger>(
    bytes: &[u8],
    steps: &mut Steps<L>,
    marks: &mut HeadMarks,
) -> Result<Span, ItemFront>
    requires { begins_blank bytes.now ≡ false }
    ensures found { IsSpanFound bytes.now result }
    ensures marks { IfOk result (λ span. IsMarkedHead (take span.head bytes.now) marks.new) }
    ensures steps { steps.new ≤ steps.old + span_cost (length bytes.now) result }
{
    let Some(first) = bytes.first() else {
        return Err(ItemFront::Nothing);
    };
    if *first == b'$' {
        marks.forget();
        frame_span(bytes, steps)
    } else if *first == b'\r' && bytes.len() == 1 {
        Err(ItemFront::Nothing)
    } else {
        message_span(bytes, 0, 0, steps, marks)
    }
}

/// The frame at the front (RFC 2326, 10.12; RFC 7826, 14).
fn frame_span<L: Ledger>(bytes: &[u8], steps: &mut Steps<L>) -> Result<Span, ItemFront>
    requires some { 0 < length bytes.now }
    requires begins { slice_index bytes.now 0 ≡ dollar }
    ensures found { IsSpanFound bytes.now result }
    ensures steps { steps.new ≤ steps.old + 2 }
    ensures told { IfOk result (λ span. 4 ≤ span.len) }
{
    if bytes.len() < 4 {
        return Err(ItemFront::Frame);
    }
    let load = 256 * usize::from(look(bytes, 2, steps)) + usize::from(look(bytes, 3, steps));
    let span = Span {
        kind: ItemKind::Frame,
        len: 4 + load,
        head: 0,
    };
    when_come(bytes.len(), span)
}

/// The span, where so many bytes have come that it is whole.
#[inline(always)]
pub fn when_come(come: usize, span: Span) -> Result<Span, ItemFront>
    ensures { result ≡ when_come come span }
{
    if come < span.len {
        Err(ItemFront::End(span))
    } else {
        Ok(span)
    }
}
