//! Items: what stands on a stream, one after another.
ghost use Rattle.std.specs.Prelude.{◌≡◌, length, take, drop, Some, IfOk};
ghost use Rattle.gate_bytes.specs.Outcomes.{UnlessMemory};
ghost use Rattle.rtsp_head.specs.Lines.{head_refusal};
ghost use Rattle.rtsp_head.specs.Marks.{marks_known};
ghost use Rattle.rtsp_head.specs.MarkedHeads.{IsMarkedHead, known_prop};
ghost use Rattle.std.proofs.Props.{props};
ghost use Rattle.rtsp_head.specs.Heads.{head_of};
ghost use Rattle.rtsp_head.specs.HeadText.{CanBeWritten};
ghost use Rattle.rtsp_head.specs.Items.{first_extent, is_bad};

use crate::head::{marked_head, read_head, sound_head};
use crate::marks::HeadMarks;
use crate::{Head, HeadFault};
use gate_bytes::{Memory, Text, after, before};
use std::alloc::Global;

/// The bytes of the longest head that is read, its empty line among them (this project's own).
pub const MOST_HEAD: usize = 8_192;

/// The bytes of the longest body that is read (this project's own).
pub const MOST_BODY: u64 = 65_536;

/// Why an item is bad.
#[derive(Clone, Copy, Debug, PartialEq, Eq)]
pub enum BadKind {
    /// [`MOST_HEAD`] bytes of a head hold no empty line.
    Head,
    /// A line of the head holds a byte 0, or a CR that does not belong to its end.
    Control,
    /// The first line is neither a request line nor a status line.
    Start,
    /// A further line has no colon, or continues a header that is not there.
    Colon,
    /// What stands before a line's colon is not a token.
    Name,
    /// The head has more than [`MOST_HEADERS`](crate::MOST_HEADERS) headers.
    Many,
    /// Its Content-Length is not 1 to [`LENGTH_DIGITS`](crate::LENGTH_DIGITS) digits.
    Length,
    /// Its Content-Length is above [`MOST_BODY`].
    Body,
}

/// What an item is.
#[derive(Clone, Copy, Debug, PartialEq, Eq)]
pub enum ItemKind {
    /// A request: a head, then its body.
    Request,
    /// A response: a head that begins with a version, then its body.
    Response,
    /// An interleaved frame (RFC 2326, 10.12; RFC 7826, 14): `$`, the channel, two bytes of
    /// length, the load.
    Frame,
    /// A head that is not sound, or a body that is not taken. Nothing is read after it.
    Bad(BadKind),
}

impl ItemKind {
    /// Whether it is bad, so that nothing is read after it.
    pub fn is_bad(self) -> bool
        ensures { result ≡ is_bad self }
    {
        matches!(self, ItemKind::Bad(_))
    }
}

/// What stands at the front of some bytes, where it is a whole item.
#[derive(Clone, Copy, Debug, PartialEq, Eq)]
pub struct Span {
    /// What it is.
    pub kind: ItemKind,
    /// Its bytes.
    pub len: usize,
    /// The bytes of its head: 0 for a frame, all of them for a bad item.
    pub head: usize,
}

/// Where the first item of a stream stands.
#[derive(Clone, Copy, Debug, PartialEq, Eq)]
pub struct Extent {
    /// The bytes of the empty lines before it.
    pub skipped: usize,
    /// What stands behind them.
    pub span: Span,
}

/// One whole item of a stream.
#[derive(Drop)]
pub struct Item {
    /// What it is.
    pub kind: ItemKind,
    /// Where the first line and the headers of its head stand: beside the kind, so that an item keeps its 64 bytes.
    pub marks: HeadMarks,
    /// Its bytes, without the empty lines before it.
    pub bytes: Text,
    /// The bytes of its head: 0 for a frame, all of them for a bad item.
    pub head: usize,
    /// The first line and the headers stand where the marks say.
    pub ghost marked: { IsMarkedHead (take head bytes) marks } by { known_prop (take head bytes) marks.start (marks_known marks)
        (Prim.hlevel props) (λ known. Prim.hlevel props) },
    /// The bytes are those of one item of this kind, and the head has this length.
    pub ghost whole: { first_extent bytes ≡ Some (record { skipped = 0; span = record { kind = kind; len = length bytes; head = head } }) },
}

impl Item {
    ghost use Rattle.rtsp_head.specs.Shapes.{shape_of};

    /// Another item of the same bytes.
    pub fn try_clone(&self, alloc: Global) -> Result<Item, Memory>
        ensures { IfOk result (λ copy. shape_of copy ≡ shape_of self.now) }
    {
        let bytes = Text::copy(alloc, self.bytes.as_bytes())?;
        Ok(Item {
            kind: self.kind,
            bytes,
            head: self.head,
            marks: self.marks,
        })
    }

    /// Its head, or the first fault of that. The head of a message was looked over when the item was found: no fault is
    /// looked for again.
    pub fn head(&self, alloc: Global) -> Result<Head<'_>, HeadFault>
        ensures head { UnlessMemory head_refusal result (head_of (take self.now.head self.now.bytes)) }
        ensures writable { IfOk result (λ head. CanBeWritten head.start head.headers) }
    {
        match self.kind {
            ItemKind::Request | ItemKind::Response => match self.marks.known() {
                Some(marks) => Ok(marked_head(self.head_bytes(), self.marks.start, marks)),
                None => Ok(sound_head(alloc, self.head_bytes())?),
            },
            ItemKind::Frame | ItemKind::Bad(_) => read_head(alloc, self.head_bytes()),
        }
    }

    /// The bytes of its head.
    pub fn head_bytes(&self) -> &[u8]
        ensures { result.now ≡ take self.now.head self.now.bytes }
    {
        before(self.bytes.as_bytes(), self.head)
    }

    /// The bytes behind its head: the body of a message.
    pub fn body_bytes(&self) -> &[u8]
        ensures { result.now ≡ drop self.now.head self.now.bytes }
    {
        after(self.bytes.as_bytes(), self.head)
    }
}
