//! The length of a body by the headers, line by line, without memory.
ghost use Rattle.std.specs.Prelude.{◌≡◌, None, Some, Ok, Err, IfOk, IfSome, codes};
ghost use Rattle.std.specs.Option.{option_or};
ghost use Rattle.gate_bytes.specs.Tokens.{equal_fold, trimmed};
ghost use Rattle.rtsp_head.specs.Marks.{marks_known};
ghost use Rattle.rtsp_head.specs.MarkedHeads.{IsLineMarked};
ghost use Rattle.rtsp_head.specs.Tallies.{empty_tally, part_of, joined, last_part, last_of, tally_more, tally_header, tally_line, tally_length};

use crate::further::{FurtherLine, further_line};
use crate::headers::MOST_HEADERS;
use crate::line::Line;
use crate::marks::HeadMarks;
use crate::{HeadFault, LENGTH_DIGITS, Length};
use gate_bytes::{eq_fold, read_decimal, trim};

/// What a text says, where it may be a part of a length's text.
#[derive(Clone, Copy)]
pub(crate) enum LengthPart {
    /// Nothing.
    Blank,
    /// A number of 1 to [`LENGTH_DIGITS`] digits.
    Number(u64),
    /// Anything else.
    Other,
}

/// The last header so far.
#[derive(Clone, Copy)]
pub(crate) enum Last {
    /// There is no header yet.
    Missing,
    /// It is no Content-Length.
    Other,
    /// It is one, whose value says this so far.
    Length(LengthPart),
}

/// What is kept of the headers so far: their number, the first Content-Length above the last header,
/// and the last header.
#[derive(Clone, Copy)]
pub(crate) struct Tally {
    pub(crate) count: usize,
    pub(crate) found: Option<LengthPart>,
    pub(crate) last: Last,
}

/// The name of the header with a body's length (RFC 2326, 12.14).
const LENGTH_NAME: &[u8] = b"Content-Length";

/// Whether a name is that of the header with a body's length.
#[inline(always)]
fn names_length(name: &[u8]) -> bool
    ensures { result ≡ equal_fold name.now (codes "Content-Length") }
{
    name.len() == LENGTH_NAME.len() && is_length_name(name)
}

/// The same of a name that is as long. It is not inlined, so that other headers cost nothing of it.
#[inline(never)]
fn is_length_name(name: &[u8]) -> bool
    ensures { result ≡ equal_fold name.now (codes "Content-Length") }
{
    eq_fold(name, LENGTH_NAME)
}

/// What two headers of this name say: the first of them counts. It is not inlined, since few heads have it.
#[inline(never)]
fn first_part(found: Option<LengthPart>, part: LengthPart) -> Option<LengthPart>
    ensures { result ≡ option_or found (Some part) }
{
    found.or(Some(part))
}

impl LengthPart {
    /// What a text says.
    fn of(text: &[u8]) -> LengthPart
        ensures { result ≡ part_of text.now }
    {
        if text.is_empty() {
            return LengthPart::Blank;
        }
        match read_decimal(text, LENGTH_DIGITS) {
            Some(number) => LengthPart::Number(number),
            None => LengthPart::Other,
        }
    }

    /// What two texts say that are joined by a space.
    fn joined(self, more: LengthPart) -> LengthPart
        ensures { result ≡ joined self more }
    {
        match (self, more) {
            (part, LengthPart::Blank) => part,
            (LengthPart::Blank, part) => part,
            _ => LengthPart::Other,
        }
    }
}

impl Last {
    /// A header as the last one. Its value may have blanks round it, which are looked at where it counts alone.
    fn of(name: &[u8], value: &[u8]) -> Last
        ensures { result ≡ last_of name.now (trimmed value.now) }
    {
        if names_length(name) {
            Last::Length(LengthPart::of(trim(value)))
        } else {
            Last::Other
        }
    }

    /// What its value says, where it is a Content-Length.
    fn part(self) -> Option<LengthPart>
        ensures { result ≡ last_part self }
    {
        match self {
            Last::Length(part) => Some(part),
            Last::Missing | Last::Other => None,
        }
    }
}

impl Tally {
    /// No header yet.
    pub(crate) fn new() -> Tally
        ensures { result ≡ empty_tally }
    {
        Tally {
            count: 0,
            found: None,
            last: Last::Missing,
        }
    }

    /// The same with one more line, which takes so many bytes with its end. Where a header stands is marked.
    #[inline(always)]
    pub(crate) fn with_line(
        self,
        line: Line<'_>,
        taken: usize,
        marks: &mut HeadMarks,
    ) -> Result<Tally, HeadFault>
        ensures tally { result ≡ tally_line self line.entry }
        ensures marks { IfOk result (λ tally.
            IfSome (marks_known marks.new) (λ now. IsLineMarked (marks_known marks.old) now line.entry taken)) }
        ensures start { IfOk result (λ tally.
            IfSome (marks_known marks.new) (λ now. marks.new.start ≡ marks.old.start)) }
    {
        let len = line.len();
        match further_line(line)? {
            FurtherLine::More(text) => {
                marks.forget();
                self.with_more(LengthPart::of(trim(text)))
            }
            FurtherLine::Begins { name, value } => {
                marks.push(len, taken, name.len());
                self.with_header(name, value)
            }
        }
    }

    /// The same with more text of the last header.
    fn with_more(self, more: LengthPart) -> Result<Tally, HeadFault>
        ensures { result ≡ tally_more self self.last more }
    {
        match self.last {
            Last::Missing => Err(HeadFault::Colon),
            Last::Other => Ok(self),
            Last::Length(part) => Ok(Tally {
                last: Last::Length(part.joined(more)),
                ..self
            }),
        }
    }

    /// The same with one more header, whose value may have blanks round it.
    fn with_header(self, name: &[u8], value: &[u8]) -> Result<Tally, HeadFault>
        ensures { result ≡ tally_header self (record { name = name.now; value = trimmed value.now }) }
    {
        if self.count >= MOST_HEADERS {
            return Err(HeadFault::Many);
        }
        Ok(Tally {
            count: self.count + 1,
            found: self.found_above(),
            last: Last::of(name, value),
        })
    }

    /// What the first Content-Length says, with the last header.
    #[inline(always)]
    fn found_above(self) -> Option<LengthPart>
        ensures { result ≡ option_or self.found (last_part self.last) }
    {
        match self.last {
            Last::Length(part) => first_part(self.found, part),
            Last::Missing | Last::Other => self.found,
        }
    }

    /// The length that the headers give.
    pub(crate) fn length(self) -> Length
        ensures { result ≡ tally_length self }
    {
        match self.found_above() {
            None => Length::Absent,
            Some(LengthPart::Number(number)) => Length::Bytes(number),
            Some(LengthPart::Blank | LengthPart::Other) => Length::Bad,
        }
    }
}
