//! The framer of a stream.
ghost use Rattle.std.specs.Prelude.{◌≡◌, ◌≤◌, ℕ, ◌+◌, ◌*◌, List, [], ◌∷◌, ◌++◌, length, take, IfSome, IfNone, IfOk, OnOk, OnErr};
ghost use Rattle.rtsp_head.specs.Items.{Shape, items_of};
ghost use Rattle.rtsp_head.specs.Shapes.{shape_of};
ghost use Rattle.rtsp_head.specs.MarkedHeads.{IsMarkedHead};
ghost use Rattle.rtsp_frame.specs.FramerState.{Framed, IsAlone, GivesNext, HoldsPiece};
ghost use Rattle.rtsp_frame.specs.Fronts.{unfinished_of};

use crate::cut_items::Queue;
use crate::item_front::ItemFront;
use crate::rest::Rest;
use crate::{cut_items, held_head};
use gate_bytes::{Memory, Steps, Text};
use rtsp_head::{HeadMarks, Item, Span};
use std::alloc::Global;
use std::collections::VecDeque;
use std::marker::{Brand, Model};
use std::mem;
use std::sync::ledger::{Blank, Ledger};
use text_pool::TextPool;

/// Takes a stream piece by piece, and gives its items in order.
///
/// Contracts see what it holds: the items that wait, and what has come of the next one. `Framed`
/// says what that is for a stream that was fed and for the items that were given.
#[derive(Drop)]
pub struct Framer {
    queue: Queue,
    rest: Option<Rest>,
}

impl Model for Framer {
    ghost use Rattle.std.specs.Option.{option_map};
    ghost use Rattle.rtsp_head.specs.Shapes.{shapes};
    ghost use Rattle.rtsp_frame.specs.FramerState.{HeldBytes};

    ghost Value = { HeldBytes };

    ghost view = { λ f. record {
      waiting = shapes f.queue.waiting.items;
      rest = option_map (λ rest. rest.bytes.items) f.rest;
    } };
}

impl Framer {
    /// A framer of a stream of which nothing has come. It takes no memory.
    pub fn new(alloc: Global) -> Framer
        ensures { Framed result [] [] }
    {
        Framer {
            queue: Queue {
                waiting: VecDeque::new(alloc),
                pool: TextPool::new(alloc),
            },
            rest: Some(Rest {
                bytes: Vec::new(alloc),
                front: ItemFront::Nothing,
            }),
        }
    }

    /// Takes texts that are done with, in whose memory those of the next items are made. What is given is the same.
    pub fn refill(&mut self, pool: &mut TextPool)
        ensures { self.new ≡ self.old }
    {
        self.queue.pool.refill(pool);
    }

    /// Takes the next piece of the stream. Where memory is wanting it was not taken, and nothing
    /// changes.
    #[inline(always)]
    pub fn feed(&mut self, alloc: Global, piece: &[u8]) -> Result<(), Memory>
        ensures ok { OnOk result ((stream : List ℕ) (given : List Shape) →
            Framed self.old stream given → Framed self.new (stream ++ piece.now) given) }
        ensures err { OnErr result (self.new ≡ self.old) }
    {
        self.feed_with::<Brand>(alloc, piece, Blank::new(1))
    }

    /// The same, with steps of a ledger of their own.
    fn feed_with<L: Ledger>(
        &mut self,
        alloc: Global,
        piece: &[u8],
        blank: Blank,
    ) -> Result<(), Memory>
        requires name { blank.name ≡ L.name }
        requires parts { blank.parts ≡ L.parts }
        requires share { blank.parts ≡ 1 }
        ensures ok { OnOk result ((stream : List ℕ) (given : List Shape) →
            Framed self.old stream given → Framed self.new (stream ++ piece.now) given) }
        ensures err { OnErr result (self.new ≡ self.old) }
    {
        self.feed_counted(alloc, piece, &mut Steps::<L>::new(blank))
    }

    /// What [`Framer::feed`] does, with a bound on the steps: eight a byte of the piece, and four. Of these, four a byte of
    /// an unfinished head are left for the look at all of it, once its end has come.
    pub fn feed_counted<L: Ledger>(
        &mut self,
        alloc: Global,
        piece: &[u8],
        steps: &mut Steps<L>,
    ) -> Result<(), Memory>
        ensures ok { OnOk result ((stream : List ℕ) (given : List Shape) →
            Framed self.old stream given → Framed self.new (stream ++ piece.now) given) }
        ensures err { OnErr result (self.new ≡ self.old) }
        ensures steps { OnOk result (steps.new + 4 * unfinished_of self.new.rest
            ≤ steps.old + 4 * unfinished_of self.old.rest + 8 * length piece.now + 4) }
    {
        let Some(rest) = &mut self.rest else {
            return Ok(());
        };
        let goes_on = cut_items::feed(
            alloc,
            &mut self.queue,
            &mut rest.bytes,
            &mut rest.front,
            piece,
            steps,
        )?;
        if !goes_on {
            self.rest = None;
        }
        Ok(())
    }

    /// How many bytes are held of a head whose empty line has not come: 0 in a body, in a frame and between items. A CR
    /// counts of which is not known yet whether it ends an empty line.
    pub fn unfinished(&self) -> usize
        ensures { result ≡ unfinished_of self.now.rest }
    {
        match &self.rest {
            Some(rest) => rest.unfinished(),
            None => 0,
        }
    }

    /// Takes the next piece of the stream, and gives the next whole item; none where all that came were given. A piece
    /// that is one whole item is moved and not copied: an empty text is left in its place. Where memory is wanting the piece
    /// was not taken, and nothing changes.
    pub fn take(&mut self, alloc: Global, piece: &mut Text) -> Result<Option<Item>, Memory>
        ensures ok { IfOk result (λ taken. (stream : List ℕ) (given : List Shape) →
            Framed self.old stream given → GivesNext self.new (stream ++ piece.old) given taken) }
        ensures err { OnErr result (self.new ≡ self.old) }
    {
        let mut marks = HeadMarks::unknown();
        let Some(span) = self.whole(piece.as_bytes(), &mut marks) else {
            self.feed(alloc, piece.as_bytes())?;
            return Ok(self.next());
        };
        if span.kind.is_bad() {
            self.rest = None;
        }
        Ok(Some(Item {
            kind: span.kind,
            bytes: mem::replace(piece, Text::new(alloc)),
            head: span.head,
            marks,
        }))
    }

    /// Takes the next piece of the stream where it only goes on with a head that is held: no line ends in it, and no item
    /// waits. Whether it was taken; else, and where memory is wanting, nothing changes.
    #[inline(always)]
    pub fn hold(&mut self, piece: &[u8]) -> Result<bool, Memory>
        ensures ok { IfOk result (HoldsPiece self.old self.new piece.now) }
        ensures err { OnErr result (self.new ≡ self.old) }
    {
        if !self.queue.waiting.is_empty() {
            return Ok(false);
        }
        let Some(rest) = &mut self.rest else {
            return Ok(false);
        };
        held_head::hold(&mut rest.bytes, rest.front, piece)
    }

    /// The item that a piece is, where it is one whole item, nothing of the stream is held before it,
    /// and no item waits.
    fn whole(&self, piece: &[u8], marks: &mut HeadMarks) -> Option<Span>
        ensures alone { IfSome result (IsAlone self.now piece.now) }
        ensures marks { IfSome result (λ span. IsMarkedHead (take span.head piece.now) marks.new) }
    {
        match &self.rest {
            Some(rest) if rest.bytes.is_empty() && self.queue.waiting.is_empty() =>
                cut_items::whole(piece, marks),
            _ => None,
        }
    }

    /// The next whole item; none where all that came were given. Behind a bad item there is none.
    /// It takes no memory.
    pub fn next(&mut self) -> Option<Item>
        ensures first { IfSome result (λ item. self.old.waiting ≡ shape_of item ∷ self.new.waiting) }
        ensures some { IfSome result (λ item. (stream : List ℕ) (given : List Shape) →
            Framed self.old stream given → Framed self.new stream (given ++ shape_of item ∷ [])) }
        ensures none { IfNone result ((stream : List ℕ) (given : List Shape) →
            Framed self.old stream given → Framed self.new stream given × (given ≡ items_of stream)) }
    {
        self.queue.waiting.pop_front()
    }
}
