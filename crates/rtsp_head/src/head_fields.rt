//! Where the headers of a head are looked up.
ghost use Rattle.std.specs.Prelude.{◌≡◌, ◌≤◌, ◌<◌, true, length, option_map, IfOk, Some, None, if◌then◌else◌};
ghost use Rattle.gate_bytes.specs.Tokens.{equal_fold};
ghost use Rattle.rtsp_head.specs.Headers.{field_of};
ghost use Rattle.rtsp_head.specs.Marks.{header_marked, headers_marked, has_marked};

use crate::marks::HeaderMark;
use crate::{FieldValue, Headers};
use gate_bytes::{Memory, after, before, eq_fold, trim};
use std::alloc::Global;

/// The lines of a head behind the first, and where its headers stand in them.
#[derive(Clone, Copy)]
pub(crate) struct MarkedLines<'a> {
    pub(crate) lines: &'a [u8],
    pub(crate) marks: &'a [HeaderMark],
    /// The lines are there.
    pub(crate) ghost there: { has_marked lines.now marks.now ≡ true },
}

/// Where the headers of a head are looked up.
#[derive(Drop)]
pub(crate) enum HeadFields<'a> {
    /// In its lines, by their marks.
    Marked(MarkedLines<'a>),
    /// In a list of them.
    Listed(Headers<'a>),
}

impl<'a> MarkedLines<'a> {
    /// The value of the first header of a name, without ASCII case (RFC 7826, 5.2).
    #[inline(always)]
    fn field(&self, name: &[u8]) -> Option<&'a [u8]>
        ensures { option_map (λ value. value.now) result
            ≡ field_of (headers_marked self.entry.now.lines.now self.entry.now.marks.now) name.now }
    {
        let mut at = 0;
        for mark in self.marks {
            // Only where a name is as long is the line looked at.
            if usize::from(mark.name) == name.len()
                && let Some(value) = value_named(after(self.lines, at), *mark, name)
            {
                return Some(value);
            }
            at += usize::from(mark.line) + 2;
        }
        None
    }
}

/// The value of the header whose line stands first, where it has this name, without ASCII case (RFC 7826, 5.2). It is a call
/// of its own, so that the walk to it is short enough to be inlined.
#[inline(never)]
fn value_named<'a>(lines: &'a [u8], mark: HeaderMark, name: &[u8]) -> Option<&'a [u8]>
    requires within { mark.line ≤ length lines.now }
    requires inside { mark.name < mark.line }
    ensures { option_map (λ value. value.now) result
        ≡ (if equal_fold (header_marked lines.now mark).name name.now then Some (header_marked lines.now mark).value else None) }
{
    let named = usize::from(mark.name);
    if eq_fold(before(lines, named), name) {
        return Some(trim(after(before(lines, usize::from(mark.line)), named + 1)));
    }
    None
}

impl<'a> HeadFields<'a> {
    ghost use Rattle.rtsp_head.specs.Views.{fields_seen};

    /// The value of the first header of a name, without ASCII case (RFC 7826, 5.2).
    #[inline(always)]
    pub(crate) fn field(&self, name: &[u8]) -> Option<&[u8]>
        ensures { option_map (λ value. value.now) result ≡ field_of (fields_seen self.now) name.now }
    {
        match self {
            HeadFields::Marked(marked) => marked.field(name),
            HeadFields::Listed(headers) => headers.field(name),
        }
    }

    /// The same as a value that lives as long as the head's bytes.
    pub(crate) fn value(&self, alloc: Global, name: &[u8]) -> Result<Option<FieldValue<'a>>, Memory>
        ensures { IfOk result (λ value. value ≡ field_of (fields_seen self.now) name.now) }
    {
        match self {
            HeadFields::Marked(marked) => match marked.field(name) {
                Some(value) => Ok(Some(FieldValue::new(value))),
                None => Ok(None),
            },
            HeadFields::Listed(headers) => headers.value(alloc, name),
        }
    }
}
