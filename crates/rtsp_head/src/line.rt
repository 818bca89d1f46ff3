//! The lines of a head, and the parts of a line.
ghost use Rattle.std.specs.Prelude.{◌≡◌, ◌<◌, ◌==◌, ◌⊎◌, ◌∷◌, true, false, length, IfSome, option_map};
ghost use Rattle.std.specs.Str.Lines.{strip_carriage_return};
ghost use Rattle.gate_bytes.specs.Ascii.{lf, cr};
ghost use Rattle.gate_bytes.specs.Places.{cut_at};
ghost use Rattle.rtsp_head.specs.Lines.{first_line, head_lines, lines_with, has_control};
ghost use Rattle.rtsp_head.specs.HeadText.{is_line_text};
ghost use Rattle.rtsp_head.specs.LineWalk.{IsPassed, before_place};

use gate_bytes::{after, before, find, holds_either, split_once};
use memchr::memchr3;
use std::marker::Model;

/// How many bytes are searched first for the end of a line.
const SHORT_LINE: usize = 63;

/// A line of a head, without its end. Contracts see its bytes.
#[derive(Drop)]
pub(crate) struct Line<'a> {
    text: &'a [u8],
    control: bool,
}

impl<'a> Model for Line<'a> {
    ghost use Rattle.std.specs.Prelude.{◌≡◌, ℕ, List};
    ghost use Rattle.rtsp_head.specs.Lines.{has_control};

    ghost Value = { List ℕ };

    ghost view = { λ line. line.text.now };

    ghost invariant = { λ line. line.control ≡ has_control line.text.now };
}

impl<'a> Line<'a> {
    /// Whether it has no bytes.
    fn is_empty(&self) -> bool
        ensures { result ≡ (length self.now == 0) }
    {
        self.text.is_empty()
    }

    /// How many bytes it has.
    pub(crate) fn len(&self) -> usize
        ensures { result ≡ length self.now }
    {
        self.text.len()
    }

    /// Its bytes.
    pub(crate) fn text(self) -> &'a [u8]
        ensures { result.now ≡ self.entry }
    {
        self.text
    }

    /// Whether it holds a byte 0, or a CR that is no part of its end.
    pub(crate) fn has_control(&self) -> bool
        ensures { result ≡ has_control self.now }
    {
        self.control
    }
}

/// The line without the CR at its end, if it has one.
fn without_return(line: &[u8]) -> &[u8]
    ensures { result.now ≡ strip_carriage_return line.now }
{
    match line {
        [front @ .., b'\r'] => front,
        _ => line,
    }
}

/// The first line without its end, and what follows it. One search finds the end of a line without
/// control bytes.
#[inline(always)]
fn first_line(bytes: &[u8]) -> (Line<'_>, &[u8])
    ensures { (result.0, result.1.now) ≡ first_line bytes.now }
{
    let Some(at) = first_stop(bytes) else {
        return (clean(bytes), after(bytes, bytes.len()));
    };
    match after_end(after(bytes, at)) {
        Some(rest) => (clean(before(bytes, at)), rest),
        None => marked_line(bytes),
    }
}

/// The first place of a byte that a line without control bytes does not hold: an end of a line, or a control byte. Most
/// lines are short, so few bytes are searched first, which costs a search less than many.
#[inline(always)]
fn first_stop(bytes: &[u8]) -> Option<usize>
    ensures clear { is_line_text (before_place result bytes.now) ≡ true }
    ensures within { IfSome result (λ at. at < length bytes.now) }
{
    if bytes.len() <= SHORT_LINE {
        return stop_in(bytes);
    }
    let near = stop_in(before(bytes, SHORT_LINE));
    if near.is_some() {
        return near;
    }
    match stop_in(after(bytes, SHORT_LINE)) {
        Some(far) => Some(SHORT_LINE + far),
        None => None,
    }
}

/// The same by one search.
#[inline(always)]
fn stop_in(bytes: &[u8]) -> Option<usize>
    ensures clear { is_line_text (before_place result bytes.now) ≡ true }
    ensures within { IfSome result (λ at. at < length bytes.now) }
{
    memchr3(b'\n', b'\r', 0, bytes)
}

/// What follows an end of a line that stands first.
fn after_end(bytes: &[u8]) -> Option<&[u8]>
    ensures { IfSome result (λ rest. (bytes.now ≡ lf ∷ rest.now) ⊎ (bytes.now ≡ cr ∷ lf ∷ rest.now)) }
{
    match bytes {
        [b'\n', rest @ ..] | [b'\r', b'\n', rest @ ..] => Some(rest),
        _ => None,
    }
}

/// A line without control bytes.
fn clean(text: &[u8]) -> Line<'_>
    requires { has_control text.now ≡ false }
    ensures { result ≡ text.now }
{
    Line {
        text,
        control: false,
    }
}

/// The first line without its end, and what follows it, where it may hold control bytes.
fn marked_line(bytes: &[u8]) -> (Line<'_>, &[u8])
    ensures { (result.0, result.1.now) ≡ first_line bytes.now }
{
    let (text, rest) = plain_first(bytes);
    let control = holds_either(b'\r', 0, text);
    (Line { text, control }, rest)
}

/// The next line of a head whose lines were looked over before, without its end, and what follows it. There is none at an
/// empty line, and none at the end of the bytes.
#[inline(always)]
pub(crate) fn plain_line(bytes: &[u8]) -> Option<(&[u8], &[u8])>
    ensures line { head_lines bytes.now
        ≡ lines_with (option_map (λ parts. (parts.0.now, parts.1.now)) result) }
    ensures less { IfSome result (λ parts. length parts.1.now < length bytes.now) }
    ensures first { IfSome result (λ parts. (parts.0.now, parts.1.now) ≡ first_line bytes.now) }
{
    let (line, rest) = plain_first(bytes);
    if line.is_empty() {
        None
    } else {
        Some((line, rest))
    }
}

/// The first line without its end, and what follows it.
#[inline(always)]
fn plain_first(bytes: &[u8]) -> (&[u8], &[u8])
    ensures { (result.0.now, result.1.now) ≡ first_line bytes.now }
{
    match cut_line(bytes) {
        Some((line, rest)) => (without_return(line), rest),
        None => (bytes, after(bytes, bytes.len())),
    }
}

/// What stands before the first LF, and behind it. Few bytes are searched first, as most lines are short.
#[inline(always)]
fn cut_line(bytes: &[u8]) -> Option<(&[u8], &[u8])>
    ensures parts { option_map (λ parts. (parts.0.now, parts.1.now)) result ≡ cut_at lf bytes.now }
    ensures less { IfSome result (λ parts. length parts.1.now < length bytes.now) }
{
    if bytes.len() > SHORT_LINE
        && let Some(at) = find(b'\n', before(bytes, SHORT_LINE))
    {
        return Some((before(bytes, at), after(bytes, at + 1)));
    }
    split_once(b'\n', bytes)
}

/// The next line of a head without its end, and what follows it. There is none at an empty line,
/// and none at the end of the bytes.
#[inline(always)]
pub(crate) fn next_line(bytes: &[u8]) -> Option<(Line<'_>, &[u8])>
    ensures line { head_lines bytes.now ≡ lines_with (option_map (λ parts. (parts.0, parts.1.now)) result) }
    ensures less { IfSome result (λ parts. length parts.1.now < length bytes.now) }
    ensures passed { IfSome result (λ parts. IsPassed bytes.now parts.1.now) }
    ensures first { IfSome result (λ parts. (parts.0, parts.1.now) ≡ first_line bytes.now) }
{
    let (line, rest) = first_line(bytes);
    if line.is_empty() {
        None
    } else {
        Some((line, rest))
    }
}
