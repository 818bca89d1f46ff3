//! A run: the entries of a transcript, one after another, as the events that they tell.
ghost use Rattle.std.specs.Prelude.{◌≡◌, []};
ghost use Rattle.rtsp_head.specs.Shapes.{shape_of};
ghost use Rattle.gateway_claim.specs.Cores.{IsCoreHistory};
ghost use Rattle.gateway_claim.specs.Happenings.{happening_of};
ghost use Rattle.gateway_replay.specs.Events.{said_by};
ghost use Rattle.gateway_replay.specs.Runs.{TakesPiece, SinkCause};
ghost use Rattle.gateway_replay.specs.CoreRecords.{Watches};

use crate::core_records::{ProcessFault, Watched};
use crate::streams::{Speaker, Streams};
use gate_bytes::Text;
use gate_outside::Sink;
use gate_transcript::{Entry, EntryKind, end_reason_in};
use gateway_claim::{Core, Event};
use rtsp_frame::{Framer, Item};
use std::alloc::Global;

/// The event that an item of this speaker is.
fn said_by(speaker: Speaker, item: Item) -> Event
    ensures { happening_of result ≡ said_by speaker (shape_of item) }
{
    match speaker {
        Speaker::Client(conn) => Event::Client(conn, item),
        Speaker::Server => Event::Up(item),
    }
}

/// Takes a piece of a speaker's bytes, whose framer is given, and all items that are whole then. A text that is done with
/// is left in its place.
#[inline(always)]
fn take_piece<M: Core, K: Sink>(
    alloc: Global,
    framer: &mut Framer,
    watched: &mut Watched<M>,
    sink: &mut K,
    speaker: Speaker,
    piece: &mut Text,
) -> Result<(), ProcessFault>
    ensures takes { TakesPiece framer.old framer.new (IsCoreHistory M.follows)
        (Watches M.stands M.bases watched.old.core watched.old.living)
        (Watches M.stands M.bases watched.new.core watched.new.living) speaker piece.old (K.written sink.old)
        (K.written sink.new) result }
    ensures cause { SinkCause (K.faults sink.old) (K.faults sink.new) result }
{
    if framer.hold(piece.as_bytes())? {
        return Ok(());
    }
    take_items(alloc, framer, watched, sink, speaker, piece)
}

/// The same for any piece. It is not inlined, so that a piece in which no line ends costs nothing of it.
#[inline(never)]
fn take_items<M: Core, K: Sink>(
    alloc: Global,
    framer: &mut Framer,
    watched: &mut Watched<M>,
    sink: &mut K,
    speaker: Speaker,
    piece: &mut Text,
) -> Result<(), ProcessFault>
    ensures takes { TakesPiece framer.old framer.new (IsCoreHistory M.follows)
        (Watches M.stands M.bases watched.old.core watched.old.living)
        (Watches M.stands M.bases watched.new.core watched.new.living) speaker piece.old (K.written sink.old)
        (K.written sink.new) result }
    ensures cause { SinkCause (K.faults sink.old) (K.faults sink.new) result }
{
    let mut next = framer.take(alloc, piece)?;
    while let Some(item) = next {
        watched.take(alloc, sink, said_by(speaker, item), piece)?;
        next = framer.next();
    }
    Ok(())
}

/// The connections of a replay: their streams, the core, and a text that is done with, in whose memory the body of the next
/// entry is made.
#[derive(Drop)]
pub struct Run<M: Core> {
    pub streams: Streams,
    pub watched: Watched<M>,
    pub spare: Text,
}

impl<M: Core> Run<M> {
    ghost use Rattle.gateway_replay.specs.declared.streams.Speaker.{Speaker};
    ghost use Rattle.gateway_replay.specs.declared.streams.Speaker.TheVariants.{Client};
    ghost use Rattle.gateway_replay.specs.Framers.{FramerFed};
    ghost use Rattle.gateway_replay.specs.Streams.{framer_at};
    ghost use Rattle.gateway_replay.specs.Runs.{TakesEntry, TakesUpEnd, TakesBytes};
    ghost use Rattle.gateway_replay.specs.CoreRecords.{StandsForSome, with_new};
    ghost use Rattle.gate_transcript.specs.Bodies.{end_reason_in};

    /// The state before the first entry.
    pub fn new(alloc: Global, core: M) -> Run<M>
        ensures core { M.stands core []
            → Watches M.stands M.bases result.watched.core result.watched.living (M.bases core) [] }
        ensures streams { (who : Speaker) → FramerFed (framer_at result.streams who) [] [] }
    {
        Run {
            streams: Streams::new(alloc),
            watched: Watched::new(alloc, core),
            spare: Text::new(alloc),
        }
    }

    /// Processes one entry: a connection enters, bytes of its client or of the server come, it ends or lags, or the
    /// connection to the server ends.
    pub fn take<K: Sink>(
        &mut self,
        alloc: Global,
        sink: &mut K,
        entry: Entry,
    ) -> Result<(), ProcessFault>
        requires { StandsForSome
            (with_new entry.kind entry.conn
            (Watches M.stands M.bases self.old.watched.core self.old.watched.living)) }
        ensures takes { TakesEntry self.old.streams self.new.streams (IsCoreHistory M.follows)
            (with_new entry.kind entry.conn
            (Watches M.stands M.bases self.old.watched.core self.old.watched.living))
            (Watches M.stands M.bases self.new.watched.core self.new.watched.living) entry
            (K.written sink.old) (K.written sink.new) result }
        ensures cause { SinkCause (K.faults sink.old) (K.faults sink.new) result }
    {
        let Entry { kind, conn, body } = entry;
        match kind {
            EntryKind::Enter => {
                self.watched.enter(alloc, conn)?;
                Ok(())
            }
            EntryKind::Client => self.take_bytes(alloc, sink, Speaker::Client(conn), body),
            EntryKind::Upstream => self.take_bytes(alloc, sink, Speaker::Server, body),
            EntryKind::End => self
                .watched
                .take(alloc, sink, Event::End(conn), &mut self.spare),
            EntryKind::Slow => self
                .watched
                .take(alloc, sink, Event::Slow(conn), &mut self.spare),
            EntryKind::UpEnd => self.end_up(alloc, sink, body.as_bytes()),
        }
    }

    /// The connection to the server ends, for the reason that these bytes tell.
    fn end_up<K: Sink>(
        &mut self,
        alloc: Global,
        sink: &mut K,
        bytes: &[u8],
    ) -> Result<(), ProcessFault>
        ensures takes { TakesUpEnd (IsCoreHistory M.follows)
            (Watches M.stands M.bases self.old.watched.core self.old.watched.living)
            (Watches M.stands M.bases self.new.watched.core self.new.watched.living) (end_reason_in bytes.now)
            (K.written sink.old) (K.written sink.new) result }
        ensures streams { self.new.streams ≡ self.old.streams }
        ensures cause { SinkCause (K.faults sink.old) (K.faults sink.new) result }
    {
        match end_reason_in(bytes) {
            Some(reason) => self
                .watched
                .take(alloc, sink, Event::UpEnd(reason), &mut self.spare),
            None => Ok(()),
        }
    }

    /// Takes bytes of a speaker, and all items that are whole then.
    #[inline(always)]
    fn take_bytes<K: Sink>(
        &mut self,
        alloc: Global,
        sink: &mut K,
        speaker: Speaker,
        bytes: Text,
    ) -> Result<(), ProcessFault>
        ensures takes { TakesBytes self.old.streams self.new.streams (IsCoreHistory M.follows)
            (Watches M.stands M.bases self.old.watched.core self.old.watched.living)
            (Watches M.stands M.bases self.new.watched.core self.new.watched.living) speaker bytes
            (K.written sink.old) (K.written sink.new) result }
        ensures cause { SinkCause (K.faults sink.old) (K.faults sink.new) result }
    {
        self.spare = bytes;
        match speaker {
            Speaker::Client(conn) => self.take_client(alloc, sink, conn),
            Speaker::Server => {
                let framer = &mut self.streams.server;
                let piece = &mut self.spare;
                take_piece(alloc, framer, &mut self.watched, sink, speaker, piece)
            }
        }
    }

    /// Takes the bytes that the spare text has as those of a client, whose framer is made where there is none.
    #[inline(always)]
    fn take_client<K: Sink>(
        &mut self,
        alloc: Global,
        sink: &mut K,
        conn: u32,
    ) -> Result<(), ProcessFault>
        ensures takes { TakesBytes self.old.streams self.new.streams (IsCoreHistory M.follows)
            (Watches M.stands M.bases self.old.watched.core self.old.watched.living)
            (Watches M.stands M.bases self.new.watched.core self.new.watched.living) (Client conn) self.old.spare
            (K.written sink.old) (K.written sink.new) result }
        ensures cause { SinkCause (K.faults sink.old) (K.faults sink.new) result }
    {
        let speaker = Speaker::Client(conn);
        let piece = &mut self.spare;
        match self.streams.clients.get_mut(&conn) {
            Some(framer) => take_piece(alloc, framer, &mut self.watched, sink, speaker, piece),
            None => {
                let mut framer = Framer::new(alloc);
                take_piece(alloc, &mut framer, &mut self.watched, sink, speaker, piece)?;
                match self.streams.clients.insert(conn, framer) {
                    Ok(_) => Ok(()),
                    Err(_) => Err(ProcessFault::Memory),
                }
            }
        }
    }
}
