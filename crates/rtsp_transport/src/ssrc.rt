//! The source of RTP packets, as the parameter `ssrc` writes it.
ghost use Rattle.std.specs.Prelude.{◌≡◌, ◌<◌, ◌++◌, true, OnOk, option_map};
ghost use Rattle.std.specs.Char.{is_ascii_hexdigit, digit_value};
ghost use Rattle.std.specs.Option.{option_copied};
ghost use Rattle.rtsp_transport.specs.Sources.{source_number, source_named, hex_digit, source_digits};

use gate_bytes::{Memory, Text, up_to};

/// The number of hexadecimal digits that write a source (RFC 2326, 12.39; RFC 7826, 18.54).
pub const SSRC_DIGITS: usize = 8;

/// The source that the value of a parameter `ssrc` names: what stands before a `/` in it.
pub(crate) fn source_named(value: Option<Option<&[u8]>>) -> Option<u32>
    ensures { result ≡ source_named (option_map option_copied value.entry) }
{
    read_source(up_to(b'/', value??))
}

/// The number that [`SSRC_DIGITS`] hexadecimal digits write.
fn read_source(text: &[u8]) -> Option<u32>
    ensures { result ≡ source_number text.now }
{
    if text.len() != SSRC_DIGITS {
        return None;
    }
    let mut number: u32 = 0;
    for byte in text {
        if !byte.is_ascii_hexdigit() {
            return None;
        }
        number = number * 16 + hex_value(*byte);
    }
    Some(number)
}

/// The value of a hexadecimal digit.
fn hex_value(byte: u8) -> u32
    requires { is_ascii_hexdigit byte ≡ true }
    ensures { result ≡ digit_value byte }
{
    match byte {
        b'0'..=b'9' => u32::from(byte - b'0'),
        b'A'..=b'F' => u32::from(byte - b'A') + 10,
        _ => u32::from(byte - b'a') + 10,
    }
}

/// The value of each digit's place, the greatest first.
const HEX_PLACES: [u32; SSRC_DIGITS] = [
    0x1000_0000,
    0x100_0000,
    0x10_0000,
    0x1_0000,
    0x1000,
    0x100,
    0x10,
    1,
];

/// The hexadecimal digits.
const HEX_DIGITS: &[u8; 16] = b"0123456789ABCDEF";

/// Appends a source in upper-case hexadecimal digits.
#[tactic(auto, unfolding(crate::specs::Sources::source_digits))]
pub(crate) fn push_source(text: &mut Text, source: u32) -> Result<(), Memory>
    ensures { OnOk result (text.new ≡ text.old ++ source_digits source) }
{
    for place in &HEX_PLACES {
        text.push_slice(&[hex_digit(source / *place % 16)])?;
    }
    Ok(())
}

/// The upper-case hexadecimal digit of a number below 16.
fn hex_digit(number: u32) -> u8
    requires { number < 16 }
    ensures { result ≡ hex_digit number }
{
    HEX_DIGITS[number as usize]
}
