//! Bytes as a text that means them.

use gate_bytes::{Memory, Text};

/// The digits of hexadecimal numbers.
const DIGITS: &[u8; 16] = b"0123456789abcdef";

/// Appends a text that means these bytes: signs, or hexadecimal digits where these are easier to read.
pub fn push_shown(text: &mut Text, bytes: &[u8]) -> Result<(), Memory> {
    if is_binary(bytes) {
        text.push_slice(b"hex:")?;
        return push_hex(text, bytes);
    }
    let mut left = bytes;
    if bytes.starts_with(b"hex:") {
        text.push_slice(b"\\x68")?;
        left = bytes.split_at(1).1;
    } else if bytes.starts_with(b" ") {
        text.push_slice(b"\\s")?;
        left = bytes.split_at(1).1;
    }
    push_lines(text, left)
}

/// Appends each byte as two hexadecimal digits.
pub fn push_hex(text: &mut Text, bytes: &[u8]) -> Result<(), Memory> {
    for byte in bytes {
        let high = DIGITS[usize::from(byte >> 4)];
        let low = DIGITS[usize::from(byte & 15)];
        text.push_slice(&[high, low])?;
    }
    Ok(())
}

/// Whether bytes read better in hexadecimal: a frame, or where more than a quarter can't be printed.
fn is_binary(bytes: &[u8]) -> bool {
    let odd = bytes.iter().filter(|byte| !is_usual(**byte)).count();
    bytes.starts_with(b"$") || odd > bytes.len() / 4
}

/// Whether a byte is expected in a text.
fn is_usual(byte: u8) -> bool {
    matches!(byte, b'\t' | b'\n' | b'\r' | b' '..=b'~')
}

/// Appends signs that mean these bytes.
fn push_lines(text: &mut Text, bytes: &[u8]) -> Result<(), Memory> {
    let mut left = bytes;
    for _ in 0..bytes.len() {
        left = match left {
            [] => break,
            [b'\r', b'\n', rest @ ..] => {
                text.push_slice(b"|")?;
                rest
            }
            [b' '] => {
                text.push_slice(b"\\s")?;
                b""
            }
            [byte, rest @ ..] => {
                push_byte(text, *byte)?;
                rest
            }
        };
    }
    Ok(())
}

/// Appends the sign that means a byte.
fn push_byte(text: &mut Text, byte: u8) -> Result<(), Memory> {
    match byte {
        b'\n' => text.push_slice(b"\\n"),
        b'\r' => text.push_slice(b"\\r"),
        b'\t' => text.push_slice(b"\\t"),
        b'\\' => text.push_slice(b"\\\\"),
        b'|' => text.push_slice(b"\\p"),
        b'{' | b'}' => push_code(text, byte),
        b' '..=b'~' => text.push_slice(&[byte]),
        _ => push_code(text, byte),
    }
}

/// Appends the sign that means the byte with this code.
fn push_code(text: &mut Text, byte: u8) -> Result<(), Memory> {
    text.push_slice(b"\\x")?;
    push_hex(text, &[byte])
}
