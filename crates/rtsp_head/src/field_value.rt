//! The value of a header.
ghost use Rattle.std.specs.Prelude.{◌≡◌, ◌∷◌, ◌++◌, IfOk};
ghost use Rattle.gate_bytes.specs.Ascii.{space};
ghost use Rattle.gate_bytes.specs.Tokens.{trimmed};

use gate_bytes::{Memory, Text, trim};
use std::alloc::Global;
use std::marker::Model;

/// Where a value stands.
#[derive(Drop)]
pub(crate) enum ValuePlace<'a> {
    /// In bytes that are lent.
    Lent(&'a [u8]),
    /// In a text of its own.
    Owned(Text),
}

/// The value of a header. One that is read is lent by the head's bytes, and owned where it goes on over
/// several lines; one that is written is lent where its bytes stand already. Contracts see it as its bytes.
#[derive(Drop)]
pub struct FieldValue<'a> {
    place: ValuePlace<'a>,
}

impl<'a> Model for FieldValue<'a> {
    ghost use Rattle.std.specs.Prelude.{List, ℕ};

    ghost Value = { List ℕ };

    ghost use Rattle.rtsp_head.specs.FieldViews.{value_seen};

    ghost view = { λ value. value_seen value.place };
}

impl<'a> FieldValue<'a> {
    /// A value that is lent.
    pub fn new(bytes: &'a [u8]) -> FieldValue<'a>
        ensures { result ≡ bytes.now }
    {
        FieldValue {
            place: ValuePlace::Lent(bytes),
        }
    }

    /// A value that is owned.
    pub fn owned(text: Text) -> FieldValue<'a>
        ensures { result ≡ text }
    {
        FieldValue {
            place: ValuePlace::Owned(text),
        }
    }

    /// The same value beside this one: what lends this one lends it, and an owned one is copied.
    pub(crate) fn beside(&self, alloc: Global) -> Result<FieldValue<'a>, Memory>
        ensures { IfOk result (λ value. value ≡ self.now) }
    {
        match &self.place {
            ValuePlace::Lent(bytes) => Ok(FieldValue::new(bytes)),
            ValuePlace::Owned(text) => {
                Ok(FieldValue::owned(Text::copy(alloc, text.as_bytes())?))
            }
        }
    }

    /// The bytes.
    pub fn as_bytes(&self) -> &[u8]
        ensures { result.now ≡ self.now }
    {
        match &self.place {
            ValuePlace::Lent(bytes) => bytes,
            ValuePlace::Owned(text) => text.as_bytes(),
        }
    }

    /// The value with a further line's text, joined by one space.
    pub(crate) fn with_more(self, alloc: Global, more: &[u8]) -> Result<FieldValue<'a>, Memory>
        ensures { IfOk result (λ value. value ≡ self.entry ++ (space ∷ more.now)) }
    {
        let mut text = match self.place {
            ValuePlace::Lent(bytes) => Text::copy(alloc, bytes)?,
            ValuePlace::Owned(text) => text,
        };
        text.push_slice(b" ")?;
        text.push_slice(more)?;
        Ok(FieldValue {
            place: ValuePlace::Owned(text),
        })
    }

    /// The value without the blanks round it.
    pub(crate) fn closed(self, alloc: Global) -> Result<FieldValue<'a>, Memory>
        ensures { IfOk result (λ value. value ≡ trimmed self.entry) }
    {
        let place = match self.place {
            ValuePlace::Lent(bytes) => ValuePlace::Lent(trim(bytes)),
            ValuePlace::Owned(text) => ValuePlace::Owned(close(alloc, text)?),
        };
        Ok(FieldValue { place })
    }
}

/// A text without the blanks round it.
fn close(alloc: Global, text: Text) -> Result<Text, Memory>
    ensures { IfOk result (λ closed. closed ≡ trimmed text) }
{
    let value = trim(text.as_bytes());
    if value.len() == text.len() {
        return Ok(text);
    }
    Text::copy(alloc, value)
}
