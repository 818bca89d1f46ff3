//! The groups of a spec: a label and parameters, once or more often.
ghost use Rattle.std.specs.Prelude.{◌≡◌, Some, option_map};
ghost use Rattle.std.specs.Option.{option_copied, option_or};
ghost use Rattle.std.specs.List.{list_all};
ghost use Rattle.std.specs.Char.{is_ascii_hexdigit};
ghost use Rattle.gate_bytes.specs.Ascii.{colon};
ghost use Rattle.gate_bytes.specs.Places.{parts_at};
ghost use Rattle.rtp_info.specs.Groups.{has_leading_blank, is_label, before_label, group_of, first_group, groups_of};
ghost use Rattle.rtp_info.specs.Views.{noted_seen};

use crate::parameter::{Noted, read_parameters};
use crate::part::first_part;
use gate_bytes::{after, before, split_once, trim};

/// What a label begins with.
const LABEL_NAME: &[u8] = b"ssrc=";

/// The number of hexadecimal digits of a label: those of the source of a stream (RFC 7826, 18.45).
pub const LABEL_DIGITS: usize = 8;

/// The length of a label in bytes.
const LABEL_BYTES: usize = LABEL_NAME.len() + LABEL_DIGITS;

/// What the first group says, where all groups are in the grammar. The text stands behind a URI: a
/// blank, a label and a colon, and then what [`read_pieces`] reads.
pub(crate) fn read_groups(text: &[u8]) -> Option<Noted>
    ensures { option_map noted_seen result ≡ groups_of text.now }
{
    let (label, pieces) = split_once(b':', text)?;
    if !has_leading_blank(label) || !is_label(trim(label)) {
        return None;
    }
    read_pieces(pieces)
}

/// What the first group says. Colons part the text into pieces, one for each group, and each piece
/// but the last ends with the label of the next group.
fn read_pieces(text: &[u8]) -> Option<Noted>
    ensures { option_map noted_seen result ≡ first_group (parts_at colon text.now) }
{
    let mut first = None;
    let mut left = Some(text);
    while let Some(rest) = left {
        let (piece, more) = first_part(b':', rest);
        let Some(group) = read_group(trim(piece), more.is_none()) else {
            return None;
        };
        first = first_of(first, group);
        left = more;
    }
    first
}

/// What was read first.
fn first_of(first: Option<Noted>, group: Noted) -> Option<Noted>
    ensures { option_map noted_seen result
        ≡ option_or (option_map noted_seen first) (Some (noted_seen group)) }
{
    match first {
        Some(first) => Some(first),
        None => Some(group),
    }
}

/// What a group says: the last one is parameters alone, and another ends with the next label.
fn read_group(piece: &[u8], last: bool) -> Option<Noted>
    ensures { option_map noted_seen result ≡ group_of last piece.now }
{
    if last {
        read_parameters(piece)
    } else {
        read_parameters(before_label(piece)?)
    }
}

/// What stands before a blank and a label at the end of a text.
fn before_label(text: &[u8]) -> Option<&[u8]>
    ensures { option_copied result ≡ before_label text.now }
{
    if text.len() < LABEL_BYTES + 1 {
        return None;
    }
    let at = text.len() - (LABEL_BYTES + 1);
    let end = after(text, at);
    if has_leading_blank(end) && is_label(after(end, 1)) {
        Some(before(text, at))
    } else {
        None
    }
}

/// Whether a text begins with a space or a tab.
fn has_leading_blank(text: &[u8]) -> bool
    ensures { result ≡ has_leading_blank text.now }
{
    match text {
        [first, ..] => *first == b' ' || *first == b'\t',
        [] => false,
    }
}

/// Whether a text is a label: `ssrc=` and [`LABEL_DIGITS`] hexadecimal digits.
fn is_label(text: &[u8]) -> bool
    ensures { result ≡ is_label text.now }
{
    text.len() == LABEL_BYTES
        && text.starts_with(LABEL_NAME)
        && has_hex_digits_alone(after(text, LABEL_NAME.len()))
}

/// Whether each byte of a text is a hexadecimal digit.
fn has_hex_digits_alone(text: &[u8]) -> bool
    ensures { result ≡ list_all is_ascii_hexdigit text.now }
{
    text.iter().all(|byte| byte.is_ascii_hexdigit())
}
