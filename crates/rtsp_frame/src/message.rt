//! A message at the front of a stream: a head, then its body.
ghost use Rattle.std.specs.Prelude.{◌≡◌, ◌≤◌, ◌<◌, ◌+◌, ◌*◌, true, false, length, take, Some, is_some, IfOk, IfErr, OnErr};
ghost use Rattle.rtsp_head.specs.Lines.{is_empty_line};
ghost use Rattle.rtsp_frame.specs.Lines.{ends_empty};
ghost use Rattle.rtsp_frame.specs.Fronts.{OpensMessage, IsLineTo};
ghost use Rattle.rtsp_frame.specs.StreamFronts.{IsSpanFound, span_cost, told_span, told_body};
ghost use Rattle.rtsp_head.specs.Heads.{facts_of};
ghost use Rattle.rtsp_head.specs.MarkedHeads.{IsMarkedHead};
ghost use Rattle.rtsp_head.specs.Items.{begins_blank, head_len, bad_span, bad_kind, message_kind};

use crate::extent::when_come;
use crate::item_front::ItemFront;
use gate_bytes::{Steps, after, before, look, seek};
use rtsp_head::{
    BadKind, Facts, HeadFault, HeadMarks, ItemKind, Length, MOST_BODY, MOST_HEAD, Span,
    check_front_counted,
};
use std::sync::ledger::Ledger;

/// The most looks at the end of bytes that tell whether it is an empty line.
const END_LOOKS: usize = 3;

/// A head that is there whole.
#[derive(Clone, Copy)]
struct WholeHead {
    /// Its bytes with its empty line.
    len: usize,
    /// What it says, or its first fault.
    facts: Result<Facts, HeadFault>,
}

/// The message at the front, a line of which begins at one place and was searched up to another. Where its first line and
/// its headers stand is marked.
#[inline(always)]
pub fn message_span<L: Ledger>(
    bytes: &[u8],
    line: usize,
    searched: usize,
    steps: &mut Steps<L>,
    marks: &mut HeadMarks,
) -> Result<Span, ItemFront>
    requires begins { OpensMessage bytes.now }
    requires short { searched < MOST_HEAD }
    requires reached { IsLineTo bytes.now line searched }
    ensures found { IsSpanFound bytes.now result }
    ensures steps { steps.new + 2 * searched ≤ steps.old + span_cost (length bytes.now) result }
    ensures more { IfOk result (λ span. searched < span.len) }
    ensures marks { IfOk result (λ span. IsMarkedHead (take span.head bytes.now) marks.new) }
{
    match find_head(front(bytes), line, searched, steps, marks) {
        Ok(head) => when_come(bytes.len(), judged_span(head.len, head.facts)),
        Err(line) if bytes.len() < MOST_HEAD => Err(ItemFront::Line(line)),
        Err(_) => {
            marks.forget();
            Ok(bad_span(BadKind::Head, MOST_HEAD))
        }
    }
}

/// As many bytes as a head may have.
fn front(bytes: &[u8]) -> &[u8]
    ensures { result.now ≡ take MOST_HEAD bytes.now }
{
    if bytes.len() > MOST_HEAD {
        before(bytes, MOST_HEAD)
    } else {
        bytes
    }
}

/// The head at the front, or where its last line begins, if it goes on. A line begins at one place and was searched up to
/// another. A head that came whole, in bytes of which none was searched before, is walked once.
#[inline(always)]
fn find_head<L: Ledger>(
    bytes: &[u8],
    line: usize,
    searched: usize,
    steps: &mut Steps<L>,
    marks: &mut HeadMarks,
) -> Result<WholeHead, usize>
    requires begins { begins_blank bytes.now ≡ false }
    requires reached { IsLineTo bytes.now line searched }
    ensures ok { IfOk result (λ head. head_len bytes.now ≡ Some head.len) }
    ensures facts { IfOk result (λ head. head.facts ≡ facts_of (take head.len bytes.now)) }
    ensures more { IfOk result (λ head. searched < head.len) }
    ensures marks { IfOk result (λ head. IsMarkedHead (take head.len bytes.now) marks.new) }
    ensures cost { IfOk result (λ head. steps.new + 2 * searched ≤ steps.old + 6 * head.len) }
    ensures err { IfErr result (λ last. IsLineTo bytes.now last (length bytes.now)) }
    ensures err_cost { OnErr result (steps.new + 2 * searched ≤ steps.old + 2 * length bytes.now) }
{
    if ends_head(bytes, searched, steps) {
        return Ok(whole_head(bytes, steps, marks));
    }
    match head_end(bytes, line, searched, steps) {
        Ok(len) => {
            let facts = check_front_counted(before(bytes, len), steps, marks).facts;
            Ok(WholeHead { len, facts })
        }
        Err(last) => Err(last),
    }
}

/// Whether these bytes, none of which was searched before, end with an empty line, so that a head is there whole. Too few
/// bytes to pay for the looks at their end are not looked at.
#[tactic(auto, using(crate::proofs::WholeHeadLemmas::ends_whole))]
fn ends_head<L: Ledger>(bytes: &[u8], searched: usize, steps: &mut Steps<L>) -> bool
    ensures whole { result ≡ true → is_some (head_len bytes.now) ≡ true }
    ensures none { result ≡ true → searched ≡ 0 }
    ensures few { steps.new ≤ steps.old + END_LOOKS }
    ensures paid { 2 * steps.new ≤ 2 * steps.old + length bytes.now }
    ensures later { 0 < searched → steps.new ≡ steps.old }
{
    if searched > 0 || bytes.len() < 2 * END_LOOKS {
        return false;
    }
    steps.add(END_LOOKS);
    ends_empty(bytes)
}

/// Whether an LF and an empty line stand at the end of bytes.
fn ends_empty(bytes: &[u8]) -> bool
    requires { END_LOOKS ≤ length bytes.now }
    ensures { result ≡ ends_empty bytes.now }
{
    let len = bytes.len();
    bytes[len - 1] == b'\n'
        && (bytes[len - 2] == b'\n' || (bytes[len - 2] == b'\r' && bytes[len - 3] == b'\n'))
}

/// The head at the front of bytes that hold one. The look for its end begins where its lines were walked to: at its empty
/// line, or behind a fault.
fn whole_head<L: Ledger>(bytes: &[u8], steps: &mut Steps<L>, marks: &mut HeadMarks) -> WholeHead
    requires { is_some (head_len bytes.now) ≡ true }
    ensures ends { head_len bytes.now ≡ Some result.len }
    ensures facts { result.facts ≡ facts_of (take result.len bytes.now) }
    ensures some { 0 < result.len }
    ensures marks { IsMarkedHead (take result.len bytes.now) marks.new }
    ensures steps { steps.new ≤ steps.old + 4 * result.len + 2 }
{
    let front = check_front_counted(bytes, steps, marks);
    let walked = bytes.len() - front.rest.len();
    match head_end(front.rest, 0, 0, steps) {
        Ok(more) => WholeHead {
            len: walked + more,
            facts: front.facts,
        },
        Err(_) => unreachable!(),
    }
}

/// The length of the head at the front, up to and with its first empty line; or where its last line begins, if it goes
/// on. A line begins at one place and was searched up to another.
#[inline(always)]
fn head_end<L: Ledger>(
    bytes: &[u8],
    line: usize,
    searched: usize,
    steps: &mut Steps<L>,
) -> Result<usize, usize>
    requires { IsLineTo bytes.now line searched }
    ensures ok { IfOk result (λ len. head_len bytes.now ≡ Some len) }
    ensures more { IfOk result (λ len. searched < len) }
    ensures within { IfOk result (λ len. len ≤ length bytes.now) }
    ensures cost { IfOk result (λ len. steps.new + 2 * searched ≤ steps.old + 2 * len) }
    ensures lines { IfOk result (λ len. 2 * steps.new + 2 * searched + line ≤ 2 * steps.old + 3 * len + 1) }
    ensures err { IfErr result (λ last. IsLineTo bytes.now last (length bytes.now)) }
    ensures err_cost { OnErr result (steps.new + 2 * searched ≤ steps.old + 2 * length bytes.now) }
    ensures err_lines { OnErr result (2 * steps.new + 2 * searched + line ≤ 2 * steps.old + 3 * length bytes.now) }
{
    let mut begin = line;
    let mut from = searched;
    while let Some(end) = seek(after(bytes, from), b'\n', steps) {
        let at = from + end;
        if is_empty_line(after(before(bytes, at), begin), steps) {
            return Ok(at + 1);
        }
        begin = at + 1;
        from = begin;
    }
    Err(begin)
}

/// Whether a line without its LF is empty: nothing, or the CR of its end.
fn is_empty_line<L: Ledger>(line: &[u8], steps: &mut Steps<L>) -> bool
    ensures empty { result ≡ is_empty_line line.now }
    ensures steps { steps.new ≤ steps.old + 1 }
{
    match line.len() {
        0 => true,
        1 => look(line, 0, steps) == b'\r',
        _ => false,
    }
}

/// What a head of this length begins.
fn judged_span(len: usize, facts: Result<Facts, HeadFault>) -> Span
    requires { len ≤ MOST_HEAD }
    ensures { result ≡ told_span len facts }
{
    match facts {
        Ok(facts) => body_span(message_kind(facts.request), len, facts.length),
        Err(fault) => bad_span(bad_kind(fault), len),
    }
}

/// The item whose head has this length and names this body.
fn body_span(kind: ItemKind, len: usize, length: Length) -> Span
    requires { len ≤ MOST_HEAD }
    ensures { result ≡ told_body kind len length }
{
    match length {
        Length::Absent => Span {
            kind,
            len,
            head: len,
        },
        Length::Bytes(body) if body > MOST_BODY => bad_span(BadKind::Body, len),
        Length::Bytes(body) => Span {
            kind,
            len: len + body as usize,
            head: len,
        },
        Length::Bad => bad_span(BadKind::Length, len),
    }
}

/// A bad item is all head.
fn bad_span(kind: BadKind, len: usize) -> Span
    ensures { result ≡ bad_span kind len }
{
    Span {
        kind: ItemKind::Bad(kind),
        len,
        head: len,
    }
}

/// What a message with a sound head is.
fn message_kind(request: bool) -> ItemKind
    ensures { result ≡ message_kind request }
{
    if request {
        ItemKind::Request
    } else {
        ItemKind::Response
    }
}

/// The kind of bad item that a fault of its head makes. The check of a head takes no memory, so
/// its last variant never comes.
fn bad_kind(fault: HeadFault) -> BadKind
    ensures { result ≡ bad_kind fault }
{
    match fault {
        HeadFault::Control => BadKind::Control,
        HeadFault::Start => BadKind::Start,
        HeadFault::Colon => BadKind::Colon,
        HeadFault::Name => BadKind::Name,
        HeadFault::Many => BadKind::Many,
        HeadFault::Memory => BadKind::Head,
    }
}
