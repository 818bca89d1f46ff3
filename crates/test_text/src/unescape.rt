//! The bytes that a text means.

use crate::CaseFault;
use crate::sign::{Sign, hex_byte, next_sign};
use gate_bytes::{Memory, Text};
use std::alloc::Global;

/// The bytes that a text means.
pub fn meant(alloc: Global, text: &[u8]) -> Result<Text, CaseFault> {
    let mut bytes = Text::new(alloc);
    push_meant(&mut bytes, text)?;
    Ok(bytes)
}

/// Appends the bytes that a text means. Where it has no meaning, some of them may have been appended.
pub fn push_meant(bytes: &mut Text, text: &[u8]) -> Result<(), CaseFault> {
    match text {
        [b'h', b'e', b'x', b':', digits @ ..] => push_hex_meant(bytes, digits),
        _ => push_signs(bytes, text),
    }
}

/// Appends the bytes that signs mean.
fn push_signs(bytes: &mut Text, text: &[u8]) -> Result<(), CaseFault> {
    let mut left = text;
    for _ in 0..text.len() {
        if left.is_empty() {
            break;
        }
        let Some((sign, rest)) = next_sign(left) else {
            return Err(CaseFault::Unreadable);
        };
        push_sign(bytes, sign)?;
        left = rest;
    }
    Ok(())
}

/// Appends what a sign means.
fn push_sign(bytes: &mut Text, sign: Sign) -> Result<(), Memory> {
    match sign {
        Sign::LineEnd => bytes.push_slice(b"\r\n"),
        Sign::Byte(byte) => bytes.push_slice(&[byte]),
        Sign::Run(count, byte) => push_run(bytes, count, byte),
    }
}

/// Appends a byte, so many times.
fn push_run(bytes: &mut Text, count: u64, byte: u8) -> Result<(), Memory> {
    for _ in 0..count {
        bytes.push_slice(&[byte])?;
    }
    Ok(())
}

/// Appends the bytes that pairs of hexadecimal digits are.
fn push_hex_meant(bytes: &mut Text, digits: &[u8]) -> Result<(), CaseFault> {
    for pair in digits.chunks(2) {
        let byte = match pair {
            [high, low] => hex_byte(*high, *low),
            _ => None,
        };
        match byte {
            Some(byte) => bytes.push_slice(&[byte])?,
            None => return Err(CaseFault::Unreadable),
        }
    }
    Ok(())
}
