//! Writing a range, in one form for both versions.
ghost use Rattle.std.specs.Prelude.{◌≡◌, ◌++◌, IsTrue, IfOk, OnOk};
ghost use Rattle.rtsp_range.specs.declared.part.TheConstants.{FRACTION_DIGITS};
ghost use Rattle.rtsp_range.specs.Meaning.{One, Two, Means};
ghost use Rattle.rtsp_range.specs.Writable.{can_be_written};
ghost use Rattle.rtsp_range.specs.RangeText.{padded, without_zeros, fraction_text, npt_text, smpte_main, smpte_text, clock_text, moment_text, text_if, rate_text, range_text};

use crate::clock::YEAR_DIGITS;
use crate::npt::SECOND;
use crate::part::{FRACTION_DIGITS, SHORT_DIGITS};
use crate::{Moment, NptTime, Range, Rate, Smpte};
use gate_bytes::{Memory, Text, push_decimal};
use std::alloc::Global;

/// For how many bytes a text has room at once (this project's own): more than a range in seconds mostly takes.
const USUAL_RANGE: usize = 48;

/// The value of a Range header with this range, in the one form that both versions read. Where its
/// fields are in range, and an npt range has a begin or an end, both readers read it back.
pub fn write(alloc: Global, range: &Range) -> Result<Text, Memory>
    ensures text { IfOk result (λ text. text ≡ range_text range.now) }
    ensures read_one { IsTrue (can_be_written range.now) → IfOk result (λ text. Means One text range.now) }
    ensures read_two { IsTrue (can_be_written range.now) → IfOk result (λ text. Means Two text range.now) }
{
    let mut text = Text::with_room(alloc, USUAL_RANGE)?;
    push_range(&mut text, range)?;
    Ok(text)
}

/// Appends a range.
fn push_range(text: &mut Text, range: &Range) -> Result<(), Memory>
    ensures { OnOk result (text.new ≡ text.old ++ range_text range.now) }
{
    match range {
        Range::Npt { from, to } => {
            text.push_slice(b"npt=")?;
            push_npt(text, from)?;
            text.push_slice(b"-")?;
            push_npt(text, to)
        }
        Range::Smpte { rate, from, to } => {
            text.push_slice(rate_text(*rate))?;
            push_smpte(text, from)?;
            text.push_slice(b"-")?;
            match to {
                Some(to) => push_smpte(text, to),
                None => Ok(()),
            }
        }
        Range::Clock { from, to } => {
            text.push_slice(b"clock=")?;
            push_moment(text, from)?;
            text.push_slice(b"-")?;
            match to {
                Some(to) => push_moment(text, to),
                None => Ok(()),
            }
        }
    }
}

/// The unit and the mark behind it.
fn rate_text(rate: Rate) -> &'static [u8]
    ensures { result.now ≡ rate_text rate }
{
    match rate {
        Rate::Thirty => b"smpte=",
        Rate::ThirtyDrop => b"smpte-30-drop=",
        Rate::TwentyFive => b"smpte-25=",
    }
}

/// Appends a normal play time, where there is one.
fn push_npt(text: &mut Text, time: &Option<NptTime>) -> Result<(), Memory>
    ensures { OnOk result (text.new ≡ text.old ++ text_if npt_text time.now) }
{
    match time {
        None => Ok(()),
        Some(NptTime::Now) => text.push_slice(b"now"),
        Some(NptTime::At(nanoseconds)) => {
            push_decimal(text, *nanoseconds / SECOND)?;
            push_fraction(text, (*nanoseconds % SECOND) as u32)
        }
    }
}

/// Appends a SMPTE timestamp.
fn push_smpte(text: &mut Text, time: &Smpte) -> Result<(), Memory>
    ensures { OnOk result (text.new ≡ text.old ++ smpte_text time.now) }
{
    push_smpte_main(text, time)?;
    if time.parts == 0 {
        return Ok(());
    }
    text.push_slice(b".")?;
    push_padded(text, SHORT_DIGITS, u32::from(time.parts))
}

/// Appends a SMPTE timestamp without its parts of a frame.
fn push_smpte_main(text: &mut Text, time: &Smpte) -> Result<(), Memory>
    ensures { OnOk result (text.new ≡ text.old ++ smpte_main time.now) }
{
    push_padded(text, SHORT_DIGITS, u32::from(time.hours))?;
    text.push_slice(b":")?;
    push_padded(text, SHORT_DIGITS, u32::from(time.minutes))?;
    text.push_slice(b":")?;
    push_padded(text, SHORT_DIGITS, u32::from(time.seconds))?;
    if time.frames == 0 && time.parts == 0 {
        return Ok(());
    }
    text.push_slice(b":")?;
    push_padded(text, SHORT_DIGITS, u32::from(time.frames))
}

/// Appends an absolute time.
fn push_moment(text: &mut Text, time: &Moment) -> Result<(), Memory>
    ensures { OnOk result (text.new ≡ text.old ++ moment_text time.now) }
{
    push_padded(text, YEAR_DIGITS, u32::from(time.year))?;
    push_padded(text, SHORT_DIGITS, u32::from(time.month))?;
    push_padded(text, SHORT_DIGITS, u32::from(time.day))?;
    text.push_slice(b"T")?;
    push_clock(text, time)
}

/// Appends the time of day of an absolute time.
fn push_clock(text: &mut Text, time: &Moment) -> Result<(), Memory>
    ensures { OnOk result (text.new ≡ text.old ++ clock_text time.now) }
{
    push_padded(text, SHORT_DIGITS, u32::from(time.hour))?;
    push_padded(text, SHORT_DIGITS, u32::from(time.minute))?;
    push_padded(text, SHORT_DIGITS, u32::from(time.second))?;
    push_fraction(text, time.nanos)?;
    text.push_slice(b"Z")
}

/// Appends a fraction by its billionths, without the zeros at the end; nothing for 0.
fn push_fraction(text: &mut Text, nanos: u32) -> Result<(), Memory>
    ensures { OnOk result (text.new ≡ text.old ++ fraction_text nanos) }
{
    if nanos == 0 {
        return Ok(());
    }
    let (width, number) = without_zeros(nanos);
    text.push_slice(b".")?;
    push_padded(text, width, number)
}

/// The digits of a fraction by its billionths without the zeros at the end: how many they are, and
/// the number that they write.
fn without_zeros(nanos: u32) -> (u32, u32)
    ensures { padded result.0 result.1 ≡ without_zeros (padded FRACTION_DIGITS nanos) }
{
    let mut width = FRACTION_DIGITS as u32;
    let mut number = nanos;
    while width > 0 && number % 10 == 0 {
        width -= 1;
        number /= 10;
    }
    (width, number)
}

/// Appends a number with so many digits, its leading zeros among them.
fn push_padded(text: &mut Text, width: u32, number: u32) -> Result<(), Memory>
    ensures { OnOk result (text.new ≡ text.old ++ padded width number) }
{
    if width == 0 {
        return Ok(());
    }
    push_padded(text, width - 1, number / 10)?;
    text.push_slice(&[b'0' + (number % 10) as u8])
}
