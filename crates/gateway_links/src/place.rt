//! Where a writer stands between its reader and the thread that runs it.
ghost use Rattle.std.specs.Prelude.{◌≡◌, true, false};

use std::mem;

/// Where a writer stands.
#[derive(Drop)]
pub enum WriterPlace<W> {
    /// There is none.
    Free,
    /// It waits for the thread, which has not had it yet, or left it since it has nothing to write.
    Waiting(W),
    /// The thread has it.
    Working,
    /// It waits for its reader.
    Done(W),
}

/// What a look for a writer gives.
#[derive(Drop)]
pub enum Found<W> {
    /// A writer.
    Writer(W),
    /// None for now.
    NotYet,
    /// None, and none will come.
    Closed,
}

/// The place of a writer, and whether no more are taken.
#[derive(Drop)]
pub struct WriterSlot<W> {
    pub place: WriterPlace<W>,
    pub closed: bool,
}

impl<W: Drop> WriterSlot<W> {
    ghost use Rattle.gateway_links.specs.Slots.{Leaves, Finds, Returns, is_done};
    ghost use Rattle.gateway_links.specs.declared.place.WriterPlace.TheVariants.{Free, Waiting, Done};

    /// A free place.
    pub fn new() -> WriterSlot<W>
        ensures place { result.place ≡ Free }
        ensures closed { result.closed ≡ false }
    {
        WriterSlot {
            place: WriterPlace::Free,
            closed: false,
        }
    }

    /// Leaves a writer for the thread, where the place is free and not closed.
    pub fn hand(&mut self, writer: W) -> Result<(), W>
        ensures { Leaves self.old self.new writer result }
    {
        if self.closed {
            return Err(writer);
        }
        match self.place {
            WriterPlace::Free => {
                self.place = WriterPlace::Waiting(writer);
                Ok(())
            }
            _ => Err(writer),
        }
    }

    /// Takes the writer that waits for the thread.
    pub fn take(&mut self) -> Found<W>
        ensures { Finds self.old self.new result }
    {
        match mem::replace(&mut self.place, WriterPlace::Working) {
            WriterPlace::Waiting(writer) => Found::Writer(writer),
            other => {
                self.place = other;
                if self.closed {
                    Found::Closed
                } else {
                    Found::NotYet
                }
            }
        }
    }

    /// Leaves a writer for its reader.
    pub fn give_back(&mut self, writer: W)
        ensures place { self.new.place ≡ Done writer }
        ensures closed { self.new.closed ≡ self.old.closed }
    {
        self.place = WriterPlace::Done(writer);
    }

    /// Leaves a writer that has nothing to write, so that its thread finds it again.
    pub fn rest(&mut self, writer: W)
        ensures place { self.new.place ≡ Waiting writer }
        ensures closed { self.new.closed ≡ self.old.closed }
    {
        self.place = WriterPlace::Waiting(writer);
    }

    /// Whether a writer waits for its reader.
    pub fn is_back(&self) -> bool
        ensures { result ≡ is_done self.now.place }
    {
        matches!(self.place, WriterPlace::Done(_))
    }

    /// Takes the writer that waits for its reader, which frees the place.
    pub fn collect(&mut self) -> Option<W>
        ensures { Returns self.old self.new result }
    {
        match mem::replace(&mut self.place, WriterPlace::Free) {
            WriterPlace::Done(writer) => Some(writer),
            other => {
                self.place = other;
                None
            }
        }
    }

    /// Takes no more writers. One that is there stays.
    pub fn close(&mut self)
        ensures place { self.new.place ≡ self.old.place }
        ensures closed { self.new.closed ≡ true }
    {
        self.closed = true;
    }
}
