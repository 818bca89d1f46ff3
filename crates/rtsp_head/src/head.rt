//! A head and its fields.
ghost use Rattle.std.specs.Prelude.{◌≡◌, Ok, option_map, IsTrue, IsOk, IfSome, IfOk};
ghost use Rattle.gate_bytes.specs.Outcomes.{UnlessMemory};
ghost use Rattle.rtsp_head.specs.Lines.{result_map, head_refusal, head_lines};
ghost use Rattle.rtsp_head.specs.Headers.{header_limit, field_of, headers_of};
ghost use Rattle.rtsp_head.specs.Heads.{head_of};
ghost use Rattle.rtsp_head.specs.Optional.{said_where};
ghost use Rattle.rtsp_head.specs.HeadText.{is_value, CanBeWritten};
ghost use Rattle.rtsp_head.specs.Views.{start_seen, fields_seen};
ghost use Rattle.rtsp_head.specs.MarkedHeads.{AreHeadMarks};

use crate::facts::check_head;
use crate::head_fields::{HeadFields, MarkedLines};
use crate::header_lines::Reading;
use crate::line::plain_line;
use crate::marks::{HeaderMark, StartMark};
use crate::start::plain_start;
use crate::{FieldValue, HeadFault, Headers, StartLine};
use gate_bytes::{Memory, after, before};
use std::alloc::Global;
use std::marker::Model;

/// The head of a message of RTSP 1.0 or RTSP 2.0, seen where it stands: its bytes lend all of it but the
/// values that go on over several lines. Contracts see what it says.
#[derive(Drop)]
pub struct Head<'a> {
    start: StartLine<'a>,
    fields: HeadFields<'a>,
}

impl<'a> Model for Head<'a> {
    ghost use Rattle.rtsp_head.specs.HeadParts.{HeadParts};
    ghost use Rattle.rtsp_head.specs.Views.{start_seen, fields_seen};

    ghost Value = { HeadParts };

    ghost view = { λ head. record { start = start_seen head.start; headers = fields_seen head.fields } };
}

impl<'a> Head<'a> {
    /// The first line.
    pub fn start(&self) -> StartLine<'a>
        ensures { start_seen result ≡ self.now.start }
    {
        self.start
    }

    /// The headers in their order, where they stand in a list: those of [`read_head`] do.
    pub fn listed(&self) -> Option<&Headers<'a>>
        ensures { IfSome result (λ headers. headers.now ≡ self.now.headers) }
    {
        match &self.fields {
            HeadFields::Listed(headers) => Some(headers),
            HeadFields::Marked(_) => None,
        }
    }

    /// The value of the first header of a name, without ASCII case (RFC 7826, 5.2).
    #[inline(always)]
    pub fn field(&self, name: &[u8]) -> Option<&[u8]>
        ensures value { option_map (λ value. value.now) result ≡ field_of self.now.headers name.now }
        ensures writable { CanBeWritten self.now.start self.now.headers
            → IfSome result (λ value. IsTrue (is_value value.now)) }
    {
        self.fields.field(name)
    }

    /// The same where a condition holds. Nothing is looked up where it doesn't.
    #[inline(always)]
    pub fn field_where(&self, holds: bool, name: &[u8]) -> Option<&[u8]>
        ensures { option_map (λ value. value.now) result
            ≡ said_where holds (field_of self.now.headers name.now) }
    {
        if holds { self.field(name) } else { None }
    }

    /// The same as a value that lives as long as the head's bytes: lent by them, and a copy where it goes
    /// on over several lines.
    #[inline(always)]
    pub fn value_where(
        &self,
        alloc: Global,
        holds: bool,
        name: &[u8],
    ) -> Result<Option<FieldValue<'a>>, Memory>
        ensures { IfOk result (λ value.
            value ≡ said_where holds (field_of self.now.headers name.now)) }
    {
        if holds {
            self.fields.value(alloc, name)
        } else {
            Ok(None)
        }
    }
}

/// The head that the bytes spell, or its first fault. The bytes are a head with its empty line; what
/// stands after that is not read.
pub fn read_head(alloc: Global, bytes: &[u8]) -> Result<Head<'_>, HeadFault>
    ensures head { UnlessMemory head_refusal result (head_of bytes.now) }
    ensures writable { IfOk result (λ head. CanBeWritten head.start head.headers) }
{
    match check_head(bytes) {
        Ok(_) => Ok(sound_head(alloc, bytes)?),
        Err(fault) => Err(fault),
    }
}

/// The head that the bytes spell, which is known to be sound: it is cut into its parts, and no fault is looked for again.
pub(crate) fn sound_head(alloc: Global, bytes: &[u8]) -> Result<Head<'_>, Memory>
    requires { IsOk (head_of bytes.now) }
    ensures head { IfOk result (λ head. head_of bytes.now ≡ Ok head) }
    ensures writable { IfOk result (λ head. CanBeWritten head.start head.headers) }
{
    let (start, rest) = head_start(bytes);
    let headers = read_headers(alloc, rest)?;
    Ok(Head {
        start,
        fields: HeadFields::Listed(headers),
    })
}

/// The same, where it is known where its first line and its headers stand. It takes no memory, and looks at no byte.
pub(crate) fn marked_head<'a>(
    bytes: &'a [u8],
    start: StartMark,
    marks: &'a [HeaderMark],
) -> Head<'a>
    requires { AreHeadMarks bytes.now start marks.now }
    ensures head { head_of bytes.entry.now ≡ Ok result }
    ensures writable { CanBeWritten result.start result.headers }
{
    let line = usize::from(start.line);
    Head {
        start: start.start(before(bytes, line)),
        fields: HeadFields::Marked(MarkedLines {
            lines: after(bytes, line + 2),
            marks,
        }),
    }
}

/// The first line of a head that is known to be sound, and the lines behind it.
#[inline(always)]
fn head_start(bytes: &[u8]) -> (StartLine<'_>, &[u8])
    requires { IsOk (head_of bytes.now) }
    ensures head { head_of bytes.now
        ≡ result_map (λ headers. record { start = start_seen result.0; headers = headers })
        (headers_of header_limit (head_lines result.1.now)) }
{
    let Some((line, rest)) = plain_line(bytes) else {
        unreachable!();
    };
    let Some(start) = plain_start(line) else {
        unreachable!();
    };
    (start, rest)
}

/// The headers of a head's further lines, in which there is no fault.
#[inline(always)]
fn read_headers(alloc: Global, bytes: &[u8]) -> Result<Headers<'_>, Memory>
    requires { IsOk (headers_of header_limit (head_lines bytes.now)) }
    ensures { IfOk result (λ headers. headers_of header_limit (head_lines bytes.now) ≡ Ok headers) }
{
    let mut reading = Reading::new(alloc);
    let mut rest = bytes;
    while let Some((line, after)) = plain_line(rest) {
        reading.take_line(alloc, line)?;
        rest = after;
    }
    reading.finish(alloc)
}
