//! The field CSeq: the number of a request.
ghost use Rattle.std.specs.Prelude.{◌≡◌};
ghost use Rattle.gate_bytes.specs.Numbers.{number_in};
ghost use Rattle.rtsp_small.specs.declared.cseq.TheConstants.{CSEQ_ONE_DIGITS, CSEQ_TWO_DIGITS};

use gate_bytes::{MOST_DIGITS, read_decimal};

/// The most digits of the number of a client's request: as many as can be read (the limit is this
/// project's own).
pub const CSEQ_ONE_DIGITS: u32 = MOST_DIGITS;

/// The most digits of the number of a request to or from the server (RFC 7826, 18.20).
pub const CSEQ_TWO_DIGITS: u32 = 9;

/// The greatest number of a request to the server: all digits that it may have are 9.
pub const LAST_CSEQ_TWO: u32 = 999_999_999;

/// The number of a client's request: 1 to [`CSEQ_ONE_DIGITS`] digits (RFC 2326, 12.17).
pub fn read_cseq_one(value: &[u8]) -> Option<u64>
    ensures { result ≡ number_in CSEQ_ONE_DIGITS value.now }
{
    read_decimal(value, CSEQ_ONE_DIGITS)
}

/// The number of a request to or from the server: 1 to [`CSEQ_TWO_DIGITS`] digits (RFC 7826, 18.20).
pub fn read_cseq_two(value: &[u8]) -> Option<u32>
    ensures { result ≡ number_in CSEQ_TWO_DIGITS value.now }
{
    let number = read_decimal(value, CSEQ_TWO_DIGITS)?;
    Some(number as u32)
}
