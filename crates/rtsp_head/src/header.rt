//! One header of a head.

use crate::FieldValue;
use std::marker::Model;

/// A header of a head that is read or written: what it is read from, or written of, lends the texts.
/// Contracts see what it says.
#[derive(Drop)]
pub struct Header<'a> {
    /// The name; where it is read, as it was written.
    pub name: &'a [u8],
    /// The value without the blanks round it.
    pub value: FieldValue<'a>,
}

impl<'a> Model for Header<'a> {
    ghost use Rattle.rtsp_head.specs.HeadParts.{HeaderParts};

    ghost Value = { HeaderParts };

    ghost view = { λ header. record { name = header.name.now; value = header.value } };
}
