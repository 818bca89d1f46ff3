//! The entry that an event is noted by.
ghost use Rattle.std.specs.Prelude.{◌≡◌};
ghost use Rattle.gateway_claim.specs.Happenings.{happening_of};
ghost use Rattle.hub_queues.specs.Closes.{is_heard};
ghost use Rattle.gateway_hub.specs.Notes.{noting, note_of, asker_noted};
ghost use Rattle.gate_transcript.specs.Notes.{NotesSo, HasNoteCause};

use crate::{NoteFault, Recorder};
use gate_transcript::EntryKind;
use gateway_claim::Event;
use rtsp_head::Item;

/// Notes an item as one entry, which has room for it.
fn note_item<R: Recorder>(
    recorder: &mut R,
    kind: EntryKind,
    conn: u32,
    item: &Item,
) -> Result<(), NoteFault>
    ensures entries { NotesSo (R.entries recorder.old) (R.entries recorder.new)
        (noting kind conn item.now.bytes) result }
    ensures cause { HasNoteCause (R.faults recorder.old) (R.faults recorder.new) result }
{
    let bytes = item.bytes.as_bytes();
    recorder.note(kind, conn, bytes)
}

/// The connection whose client an item is of, where the event is one.
pub fn asker_of(event: &Event) -> Option<u32>
    ensures { result ≡ asker_noted (happening_of event.now) }
{
    match event {
        Event::Client(conn, _) => Some(*conn),
        Event::Up(_) | Event::End(_) | Event::Slow(_) | Event::UpEnd(_) => None,
    }
}

/// Whether an event is an item of the server.
pub fn is_heard(event: &Event) -> bool
    ensures { result ≡ is_heard (happening_of event.now) }
{
    match event {
        Event::Up(_) => true,
        Event::Client(_, _) | Event::End(_) | Event::Slow(_) | Event::UpEnd(_) => false,
    }
}

/// Notes an event: an item is one entry with its exact bytes.
pub fn note<R: Recorder>(recorder: &mut R, event: &Event) -> Result<(), NoteFault>
    ensures entries { NotesSo (R.entries recorder.old) (R.entries recorder.new)
        (note_of (happening_of event.now)) result }
    ensures cause { HasNoteCause (R.faults recorder.old) (R.faults recorder.new) result }
{
    match event {
        Event::Client(conn, item) => note_item(recorder, EntryKind::Client, *conn, item),
        Event::Up(item) => note_item(recorder, EntryKind::Upstream, 0, item),
        Event::End(conn) => recorder.note(EntryKind::End, *conn, &[]),
        Event::Slow(conn) => recorder.note(EntryKind::Slow, *conn, &[]),
        Event::UpEnd(why) => recorder.note(EntryKind::UpEnd, 0, &[why.byte()]),
    }
}
