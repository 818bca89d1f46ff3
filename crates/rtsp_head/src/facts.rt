//! What a framer needs of a head.
ghost use Rattle.std.specs.Prelude.{◌≡◌, ◌≢◌, ◌<◌, ◌≤◌, ◌+◌, ◌*◌, true, [], length, Err, IfSome, IfNone, option_map};
ghost use Rattle.rtsp_head.specs.Lines.{result_map, head_lines, lines_with, first_line};
ghost use Rattle.rtsp_head.specs.Headers.{header_limit, headers_of};
ghost use Rattle.rtsp_head.specs.Heads.{facts_of, length_in_headers};
ghost use Rattle.rtsp_head.specs.LineWalk.{IsPassed};
ghost use Rattle.rtsp_head.specs.Marks.{marks_known, marked_len, IsBegun};
ghost use Rattle.rtsp_head.specs.MarkedHeads.{is_short_of, AreMarks, AreFrontMarks};
ghost use Rattle.rtsp_head.specs.Items.{head_len};

use crate::HeadFault;
use crate::line::{Line, next_line};
use crate::marks::HeadMarks;
use crate::start::start_line;
use crate::tally::Tally;
use gate_bytes::Steps;
use std::marker::Brand;
use std::sync::ledger::{Blank, Ledger};

/// The most digits of the length of a body (this project's own).
pub const LENGTH_DIGITS: u32 = 10;

/// What a head says of its message.
#[derive(Clone, Copy, Debug, PartialEq, Eq)]
pub struct Facts {
    /// Whether it is a request, and no response.
    pub request: bool,
    /// The length of the body.
    pub length: Length,
}

/// What a head says of the length of its body, by the first Content-Length (RFC 2326, 12.14).
#[derive(Clone, Copy, Debug, PartialEq, Eq)]
pub enum Length {
    /// There is no such header.
    Absent,
    /// A number of 1 to [`LENGTH_DIGITS`] digits, in bytes.
    Bytes(u64),
    /// There is one, and its value is no such number.
    Bad,
}

/// What a head says of its message, or its first fault, where what follows the head may stand behind it.
#[derive(Clone, Copy, Debug, PartialEq, Eq)]
pub struct CheckedFront<'a> {
    /// What it says, or its first fault.
    pub facts: Result<Facts, HeadFault>,
    /// What is left of the bytes: from the empty line on, or behind the line with the fault.
    pub rest: &'a [u8],
}

/// What a head says of its message, or its first fault, and never [`HeadFault::Memory`]. The bytes
/// are a head with its empty line.
pub fn check_head(bytes: &[u8]) -> Result<Facts, HeadFault>
    ensures facts { result ≡ facts_of bytes.now }
    ensures never { result ≢ Err HeadFault.Memory }
{
    check_with::<Brand>(bytes, Blank::new(1))
}

/// The same, with steps of a ledger of their own.
fn check_with<L: Ledger>(bytes: &[u8], blank: Blank) -> Result<Facts, HeadFault>
    requires name { blank.name ≡ L.name }
    requires parts { blank.parts ≡ L.parts }
    requires share { blank.parts ≡ 1 }
    ensures facts { result ≡ facts_of bytes.now }
    ensures never { result ≢ Err HeadFault.Memory }
{
    check_head_counted(bytes, &mut Steps::<L>::new(blank))
}

/// What [`check_head`] answers, in four steps a byte at most.
pub fn check_head_counted<L: Ledger>(bytes: &[u8], steps: &mut Steps<L>) -> Result<Facts, HeadFault>
    ensures facts { result ≡ facts_of bytes.now }
    ensures never { result ≢ Err HeadFault.Memory }
    ensures steps { steps.new ≤ steps.old + 4 * length bytes.now }
{
    check_front_counted(bytes, steps, &mut HeadMarks::unknown()).facts
}

/// What [`check_head`] answers of the bytes, and what it left of them: four steps for each byte that it walked, and a few
/// for its look at the empty line. Where the first line and the headers stand is marked.
pub fn check_front_counted<'a, L: Ledger>(
    bytes: &'a [u8],
    steps: &mut Steps<L>,
    marks: &mut HeadMarks,
) -> CheckedFront<'a>
    ensures facts { result.facts ≡ facts_of bytes.now }
    ensures never { result.facts ≢ Err HeadFault.Memory }
    ensures passed { IsPassed bytes.now result.rest.now }
    ensures marks { IfSome (marks_known marks.new) (AreFrontMarks bytes.now marks.new.start) }
    ensures steps { steps.new + 2 * length result.rest.now ≤ steps.old + 4 * length bytes.now }
    ensures few { steps.new + 4 * length result.rest.now ≤ steps.old + 4 * length bytes.now + 4 }
{
    marks.forget();
    let Some((line, rest)) = counted_line(bytes, steps) else {
        return CheckedFront {
            facts: Err(HeadFault::Start),
            rest: bytes,
        };
    };
    let (len, taken) = (line.len(), bytes.len() - rest.len());
    match start_line(line) {
        Ok(start) => {
            let request = start.is_request();
            marks.begin(start, len, taken);
            let (length, rest) = check_headers(rest, steps, marks);
            CheckedFront {
                facts: length.map(|length| Facts { request, length }),
                rest,
            }
        }
        Err(fault) => CheckedFront {
            facts: Err(fault),
            rest,
        },
    }
}

/// What the headers say of the length of the body, or their first fault; and what is left of the bytes behind the lines
/// that were walked.
fn check_headers<'a, L: Ledger>(
    bytes: &'a [u8],
    steps: &mut Steps<L>,
    marks: &mut HeadMarks,
) -> (Result<Length, HeadFault>, &'a [u8])
    requires { IfSome (marks_known marks.old) (λ known. known ≡ []) }
    ensures length { result.0 ≡ result_map length_in_headers (headers_of header_limit (head_lines bytes.now)) }
    ensures passed { IsPassed bytes.now result.1.now }
    ensures marks { IfSome (marks_known marks.new) (AreMarks bytes.now) }
    ensures begun { IsBegun (marks_known marks.old) marks.old.start (marks_known marks.new) marks.new.start }
    ensures short { IfSome (marks_known marks.new) (λ known.
        is_short_of (head_len bytes.now) (marked_len known) ≡ true) }
    ensures steps { steps.new + 2 * length result.1.now ≤ steps.old + 4 * length bytes.now }
    ensures few { steps.new + 4 * length result.1.now ≤ steps.old + 4 * length bytes.now + 4 }
{
    let mut tally = Tally::new();
    let mut rest = bytes;
    while let Some((line, after)) = counted_line(rest, steps) {
        let taken = rest.len() - after.len();
        rest = after;
        match tally.with_line(line, taken, marks) {
            Ok(more) => tally = more,
            Err(fault) => {
                marks.forget();
                return (Err(fault), rest);
            }
        }
    }
    (Ok(tally.length()), rest)
}

/// The next line of a head without its end, and what follows it. Its steps are those of what is done with the line too:
/// each byte is looked at once for the end of the line, and thrice at most for its parts (the colon or the spaces, the
/// name as a token, and which name it is or which number). The end of an empty line has two bytes at most.
#[inline(always)]
fn counted_line<'a, L: Ledger>(
    bytes: &'a [u8],
    steps: &mut Steps<L>,
) -> Option<(Line<'a>, &'a [u8])>
    ensures line { head_lines bytes.now ≡ lines_with (option_map (λ parts. (parts.0, parts.1.now)) result) }
    ensures less { IfSome result (λ parts. length parts.1.now < length bytes.now) }
    ensures passed { IfSome result (λ parts. IsPassed bytes.now parts.1.now) }
    ensures first { IfSome result (λ parts. (parts.0, parts.1.now) ≡ first_line bytes.now) }
    ensures none { IfNone result (steps.new ≤ steps.old + 2 * length bytes.now) }
    ensures few { IfNone result (steps.new ≤ steps.old + 4) }
    ensures some { IfSome result (λ parts.
        steps.new + 4 * length parts.1.now ≡ steps.old + 4 * length bytes.now) }
{
    let Some((line, rest)) = next_line(bytes) else {
        steps.add(2 * bytes.len().min(2));
        return None;
    };
    let taken = bytes.len() - rest.len();
    steps.add(taken);
    steps.add(taken);
    steps.add(taken);
    steps.add(taken);
    Some((line, rest))
}
