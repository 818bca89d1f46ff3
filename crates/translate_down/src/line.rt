//! The lines of a reply, each written where its field has a value.
ghost use Rattle.std.specs.Prelude.{◌≡◌, ◌++◌, OnOk};
ghost use Rattle.std.specs.Option.{option_copied};
ghost use Rattle.rtsp_head.specs.Optional.{named, field_line};

use gate_bytes::{Memory, Text};
use rtsp_head::{FieldValue, push_header};

/// Appends the line of a field with these bytes, where there are some.
pub(crate) fn push_lent(text: &mut Text, name: &[u8], value: Option<&[u8]>) -> Result<(), Memory>
    ensures { OnOk result (text.new ≡ text.old ++ field_line (named name.now (option_copied value.entry))) }
{
    match value {
        Some(value) => push_header(text, name, value),
        None => Ok(()),
    }
}

/// Appends the line of a field with this text, where there is one.
pub(crate) fn push_text(text: &mut Text, name: &[u8], value: Option<Text>) -> Result<(), Memory>
    ensures { OnOk result (text.new ≡ text.old ++ field_line (named name.now value)) }
{
    match value {
        Some(value) => push_header(text, name, value.as_bytes()),
        None => Ok(()),
    }
}

/// Appends the line of a field with this value, where there is one.
pub(crate) fn push_value(
    text: &mut Text,
    name: &[u8],
    value: Option<FieldValue<'_>>,
) -> Result<(), Memory>
    ensures { OnOk result (text.new ≡ text.old ++ field_line (named name.now value.entry)) }
{
    match value {
        Some(value) => push_header(text, name, value.as_bytes()),
        None => Ok(()),
    }
}
