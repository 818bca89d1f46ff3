//! Decimal numbers.
ghost use Rattle.std.specs.Prelude.{◌≡◌, ◌≤◌, ◌++◌, decimal, OnOk, OnErr};
ghost use Rattle.gate_bytes.specs.Numbers.{number_in};

use crate::{Memory, Text};

/// The most digits of a number that is read: every number of so many digits fits into 64 bits.
pub const MOST_DIGITS: u32 = 19;

/// The number that a text of 1 to `most` digits writes, at most [`MOST_DIGITS`]. Leading zeros are
/// allowed.
pub fn read_decimal(text: &[u8], most: u32) -> Option<u64>
    requires { most ≤ MOST_DIGITS }
    ensures { result ≡ number_in most text.now }
{
    if text.is_empty() || text.len() > most as usize {
        return None;
    }
    let mut value: u64 = 0;
    for byte in text {
        if !byte.is_ascii_digit() {
            return None;
        }
        value = value * 10 + u64::from(*byte - b'0');
    }
    Some(value)
}

/// Appends a number in decimal, without leading zeros; 0 is `0`.
pub fn push_decimal(out: &mut Text, n: u64) -> Result<(), Memory>
    ensures ok { OnOk result (out.new ≡ out.old ++ decimal n) }
    ensures err { OnErr result (out.new ≡ out.old) }
{
    let mut buffer = itoa::Buffer::new();
    out.push_slice(buffer.format(n).as_bytes())
}
