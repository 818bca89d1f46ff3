//! The list of a head's headers.
ghost use Rattle.std.specs.Prelude.{◌≡◌, ◌≤◌, [], ◌∷◌, ◌++◌, length, option_map, IfOk, OnOk, OnErr};
ghost use Rattle.std.specs.List.{insert};
ghost use Rattle.std.specs.Option.{option_copied};
ghost use Rattle.rtsp_head.specs.Headers.{field_of, headers_in};
ghost use Rattle.rtsp_head.specs.LastHeader.{apart, LosesLast};
ghost use Rattle.rtsp_head.specs.Optional.{header_with, said_where};

use crate::{FieldValue, Header};
use gate_bytes::{Memory, Text, eq_fold};
use std::alloc::Global;
use std::marker::Model;

/// The most headers of a head that is read (this project's own).
pub const MOST_HEADERS: usize = 64;

/// For how many headers a list has room once it has one. Most heads have no more.
const FIRST_ROOM: usize = 8;

/// The headers of a head that is read or written, in their order. Contracts see them as the list of them.
#[derive(Drop)]
pub struct Headers<'a> {
    items: Vec<Header<'a>>,
}

impl<'a> Model for Headers<'a> {
    ghost use Rattle.std.specs.Prelude.{List};
    ghost use Rattle.rtsp_head.specs.declared.header.Header.{Header};

    ghost Value = { List Header };

    ghost view = { λ headers. headers.items.items };
}

impl<'a> Headers<'a> {
    /// No header. It takes no memory.
    pub fn new(alloc: Global) -> Headers<'a>
        ensures { result ≡ [] }
    {
        Headers {
            items: Vec::new(alloc),
        }
    }

    /// The number of headers.
    pub fn len(&self) -> usize
        ensures { result ≡ length self.now }
    {
        self.items.len()
    }

    /// The headers, in their order.
    pub fn as_slice(&self) -> &[Header<'a>]
        ensures { result.now ≡ self.now }
    {
        self.items.as_slice()
    }

    /// Appends a header.
    pub fn push(&mut self, header: Header<'a>) -> Result<(), Memory>
        ensures ok { OnOk result (self.new ≡ self.old ++ header.entry ∷ []) }
        ensures err { OnErr result (self.new ≡ self.old) }
    {
        self.push_read(header)
    }

    /// The same where a head is read, which does nothing more often.
    #[inline(always)]
    pub(crate) fn push_read(&mut self, header: Header<'a>) -> Result<(), Memory>
        ensures ok { OnOk result (self.new ≡ self.old ++ header.entry ∷ []) }
        ensures err { OnErr result (self.new ≡ self.old) }
    {
        if self.items.is_empty() {
            self.items.reserve(FIRST_ROOM)?;
        }
        self.items.push(header)?;
        Ok(())
    }

    /// Puts a header in at a place, before those that stand from there on.
    pub fn insert(&mut self, place: usize, header: Header<'a>) -> Result<(), Memory>
        requires { place ≤ length self.old }
        ensures ok { OnOk result (self.new ≡ insert self.old place header.entry) }
        ensures err { OnErr result (self.new ≡ self.old) }
    {
        self.items.insert(place, header)?;
        Ok(())
    }

    /// Appends a header with this value, where there is one.
    pub fn push_value(
        &mut self,
        name: &'a [u8],
        value: Option<FieldValue<'a>>,
    ) -> Result<(), Memory>
        ensures ok { OnOk result (self.new ≡ self.old ++ header_with name.now value.entry) }
        ensures err { OnErr result (self.new ≡ self.old) }
    {
        match value {
            Some(value) => self.push(Header { name, value }),
            None => Ok(()),
        }
    }

    /// Appends a header with this text as its value, where there is one.
    pub fn push_text(&mut self, name: &'a [u8], text: Option<Text>) -> Result<(), Memory>
        ensures ok { OnOk result (self.new ≡ self.old ++ header_with name.now text) }
        ensures err { OnErr result (self.new ≡ self.old) }
    {
        match text {
            Some(text) => {
                let value = FieldValue::owned(text);
                self.push(Header { name, value })
            }
            None => Ok(()),
        }
    }

    /// Appends a header with these bytes as its value, where there are some.
    pub fn push_lent(&mut self, name: &'a [u8], bytes: Option<&'a [u8]>) -> Result<(), Memory>
        ensures ok { OnOk result (self.new ≡ self.old ++ header_with name.now (option_copied bytes.entry)) }
        ensures err { OnErr result (self.new ≡ self.old) }
    {
        match bytes {
            Some(bytes) => {
                let value = FieldValue::new(bytes);
                self.push(Header { name, value })
            }
            None => Ok(()),
        }
    }

    /// Takes the last header off.
    pub(crate) fn pop(&mut self) -> Option<Header<'a>>
        ensures { LosesLast self.old self.new result }
    {
        self.items.pop()
    }

    /// Trims the value of the last header, if there is one. It is not inlined, since few values go on over lines.
    #[inline(never)]
    pub(crate) fn close_last(&mut self, alloc: Global) -> Result<(), Memory>
        ensures { OnOk result (self.new ≡ headers_in (apart self.old)) }
    {
        let Some(header) = self.pop() else {
            return Ok(());
        };
        self.push(Header {
            name: header.name,
            value: header.value.closed(alloc)?,
        })
    }

    /// The value of the first header of a name, without ASCII case (RFC 7826, 5.2).
    fn find(&self, name: &[u8]) -> Option<&FieldValue<'a>>
        ensures { option_map (λ value. value.now) result ≡ field_of self.now name.now }
    {
        for header in self.as_slice() {
            if eq_fold(header.name, name) {
                return Some(&header.value);
            }
        }
        None
    }

    /// Its bytes. It is not inlined, since few heads that are looked into are listed.
    #[inline(never)]
    pub(crate) fn field(&self, name: &[u8]) -> Option<&[u8]>
        ensures { option_map (λ value. value.now) result ≡ field_of self.now name.now }
    {
        match self.find(name) {
            Some(value) => Some(value.as_bytes()),
            None => None,
        }
    }

    /// The same value beside the headers: what lends the headers lends it, and an owned one is copied.
    pub(crate) fn value(&self, alloc: Global, name: &[u8]) -> Result<Option<FieldValue<'a>>, Memory>
        ensures { IfOk result (λ value. value ≡ field_of self.now name.now) }
    {
        match self.find(name) {
            Some(value) => Ok(Some(value.beside(alloc)?)),
            None => Ok(None),
        }
    }
}

/// A value that is said only where a condition holds.
pub fn said_where(holds: bool, value: Option<&[u8]>) -> Option<&[u8]>
    ensures { option_copied result ≡ said_where holds (option_copied value.entry) }
{
    if holds { value } else { None }
}
