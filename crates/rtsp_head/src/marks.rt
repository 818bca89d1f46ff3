//! Where the first line and the headers of a head stand.
ghost use Rattle.std.specs.Prelude.{◌≡◌, ◌<◌, ◌≤◌, ◌+◌, true, length, None, Some, [], IfSome, option_map};
ghost use Rattle.rtsp_head.specs.Marks.{marks_known, IsMarkPut, has_ends, mark_of, start_marked, IsStartPut};
ghost use Rattle.rtsp_head.specs.Views.{start_seen};

use crate::StartLine;
use gate_bytes::{after, before};

/// How many headers have marks. Most heads have no more.
const MOST_MARKS: usize = 8;

/// The longest line that has a mark. Most lines are shorter.
const LONGEST_MARKED: usize = 255;

/// The count of marks that are not known.
const UNKNOWN: u8 = MOST_MARKS as u8 + 1;

/// A header that stands on one line, with CRLF at its end.
#[derive(Clone, Copy)]
pub struct HeaderMark {
    /// The bytes of its line, without the end.
    pub(crate) line: u8,
    /// The bytes of its name, with which the line begins. A colon follows them.
    pub(crate) name: u8,
}

/// Where the parts of a first line stand, which has CRLF at its end.
#[derive(Clone, Copy)]
pub struct StartMark {
    /// The bytes of the line, without the end.
    pub(crate) line: u8,
    /// The bytes of its first part. A space follows them.
    pub(crate) first: u8,
    /// Where its last part begins: behind a space, or where the line ends.
    pub(crate) last: u8,
    /// The code of a status line, which need not be read again.
    pub(crate) code: Option<u16>,
}

impl StartMark {
    /// What the line says whose mark it is: nothing is searched for.
    #[inline(always)]
    pub(crate) fn start(self, line: &[u8]) -> StartLine<'_>
        requires apart { self.first + 1 < self.last }
        requires within { self.last ≤ length line.now }
        ensures { start_seen result ≡ start_marked line.now self }
    {
        let (first, last) = (usize::from(self.first), usize::from(self.last));
        match self.code {
            None => StartLine::Request {
                method: before(line, first),
                uri: after(before(line, last - 1), first + 1),
                version: after(line, last),
            },
            Some(code) => StartLine::Status {
                version: before(line, first),
                code,
                reason: after(line, last),
            },
        }
    }
}

/// Where the first line and the headers of a head stand. It is not known of a head with more than eight headers, and of one
/// with a long line, a value that goes on over several lines, or a line that ends with an LF alone.
#[derive(Clone, Copy)]
pub struct HeadMarks {
    pub(crate) count: u8,
    pub(crate) marks: [HeaderMark; MOST_MARKS],
    pub(crate) start: StartMark,
}

impl HeadMarks {
    /// Nothing is known.
    pub fn unknown() -> HeadMarks
        ensures { marks_known result ≡ None }
    {
        HeadMarks {
            count: UNKNOWN,
            marks: [HeaderMark { line: 0, name: 0 }; MOST_MARKS],
            start: StartMark {
                line: 0,
                first: 0,
                last: 0,
                code: None,
            },
        }
    }

    /// Nothing is known any more.
    #[inline(always)]
    pub fn forget(&mut self)
        ensures { marks_known self.new ≡ None }
    {
        self.count = UNKNOWN;
    }

    /// A head begins, of which no header was seen: its first line has so many bytes, and takes so many with its end.
    #[inline(always)]
    pub(crate) fn begin(&mut self, start: StartLine<'_>, line: usize, taken: usize)
        requires { has_ends line (start_seen start) ≡ true }
        ensures { IfSome (marks_known self.new) (λ now.
            IsStartPut now self.new.start line taken (start_seen start.entry)) }
    {
        if line > LONGEST_MARKED || taken != line + 2 {
            self.count = UNKNOWN;
            return;
        }
        // Field by field: a whole mark would be packed into a word first.
        self.count = 0;
        self.start.line = line as u8;
        match start {
            StartLine::Request {
                method,
                version,
                ..
            } => {
                self.start.first = method.len() as u8;
                self.start.last = (line - version.len()) as u8;
                self.start.code = None;
            }
            StartLine::Status {
                version,
                code,
                reason,
            } => {
                self.start.first = version.len() as u8;
                self.start.last = (line - reason.len()) as u8;
                self.start.code = Some(code);
            }
        }
    }

    /// One header more, with a name of so many bytes, on a line of so many that takes so many with its end.
    #[inline(always)]
    pub(crate) fn push(&mut self, line: usize, taken: usize, name: usize)
        requires { name < line }
        ensures mark { IfSome (marks_known self.new) (λ now. IsMarkPut (marks_known self.old) now line taken name) }
        ensures start { self.new.start ≡ self.old.start }
    {
        let count = usize::from(self.count);
        if count < MOST_MARKS && line <= LONGEST_MARKED && taken == line + 2 {
            self.marks[count] = HeaderMark {
                line: line as u8,
                name: name as u8,
            };
            self.count += 1;
        } else {
            self.count = UNKNOWN;
        }
    }

    /// The marks of all headers, where they are known.
    pub(crate) fn known(&self) -> Option<&[HeaderMark]>
        ensures { option_map (λ marks. marks.now) result ≡ marks_known self.now }
    {
        let count = usize::from(self.count);
        if count <= MOST_MARKS {
            Some(&self.marks[..count])
        } else {
            None
        }
    }
}
