//! The parameters of a group: a sequence number, an RTP time, and others.
ghost use Rattle.std.specs.Prelude.{◌≡◌, option_map};
ghost use Rattle.rtp_info.specs.Parameters.{lone_parameter, valued_parameter, seq_of, time_of, parameter_of, no_notes, notes_with, read_parameters};
ghost use Rattle.rtp_info.specs.Views.{parameter_seen, noted_seen};

use crate::part::first_part;
use gate_bytes::{is_token, read_decimal, split_once, trim};

/// The most digits of a sequence number.
pub const SEQ_DIGITS: u32 = 5;

/// The greatest sequence number: RTP has 16 bits for it (RFC 3550, 5.1).
pub const LAST_SEQ: u16 = 65_535;

/// The most digits of an RTP time.
pub const RTPTIME_DIGITS: u32 = 10;

/// The greatest RTP time: RTP has 32 bits for it (RFC 3550, 5.1).
pub const LAST_RTPTIME: u32 = 4_294_967_295;

/// What a parameter says.
#[derive(Clone, Copy)]
pub(crate) enum Parameter {
    /// A sequence number.
    Seq(u16),
    /// An RTP time.
    Time(u32),
    /// Something else, which is passed over.
    Other,
}

/// The first sequence number and the first RTP time of a group.
#[derive(Clone, Copy)]
pub(crate) struct Noted {
    pub(crate) seq: Option<u16>,
    pub(crate) rtptime: Option<u32>,
}

impl Noted {
    /// Nothing yet.
    fn new() -> Noted
        ensures { noted_seen result ≡ no_notes }
    {
        Noted {
            seq: None,
            rtptime: None,
        }
    }

    /// The same with one more parameter, which counts where it is the first of its name.
    fn with(self, parameter: Parameter) -> Noted
        ensures { noted_seen result ≡ notes_with (noted_seen self) (parameter_seen parameter) }
    {
        match parameter {
            Parameter::Seq(seq) => Noted {
                seq: self.seq.or(Some(seq)),
                rtptime: self.rtptime,
            },
            Parameter::Time(rtptime) => Noted {
                seq: self.seq,
                rtptime: self.rtptime.or(Some(rtptime)),
            },
            Parameter::Other => self,
        }
    }
}

/// What the parameters of a group say, which semicolons part.
pub(crate) fn read_parameters(text: &[u8]) -> Option<Noted>
    ensures { option_map noted_seen result ≡ read_parameters text.now }
{
    let mut noted = Noted::new();
    let mut left = Some(text);
    while let Some(rest) = left {
        let (part, more) = first_part(b';', rest);
        let Some(parameter) = read_parameter(trim(part)) else {
            return None;
        };
        noted = noted.with(parameter);
        left = more;
    }
    Some(noted)
}

/// What a parameter says: a token, or two with `=` between them; `seq` and `rtptime` have numbers.
fn read_parameter(text: &[u8]) -> Option<Parameter>
    ensures { option_map parameter_seen result ≡ parameter_of text.now }
{
    match split_once(b'=', text) {
        Some((name, value)) => valued_parameter(name, value),
        None => lone_parameter(text),
    }
}

/// A parameter with a value.
fn valued_parameter(name: &[u8], value: &[u8]) -> Option<Parameter>
    ensures { option_map parameter_seen result ≡ valued_parameter name.now value.now }
{
    if name == b"seq".as_slice() {
        return read_seq(value);
    }
    if name == b"rtptime".as_slice() {
        return read_time(value);
    }
    if is_token(name) && is_token(value) {
        Some(Parameter::Other)
    } else {
        None
    }
}

/// A sequence number: 1 to [`SEQ_DIGITS`] digits, up to [`LAST_SEQ`].
fn read_seq(value: &[u8]) -> Option<Parameter>
    ensures { option_map parameter_seen result ≡ seq_of value.now }
{
    let seq = read_decimal(value, SEQ_DIGITS)?;
    if seq > u64::from(LAST_SEQ) {
        return None;
    }
    Some(Parameter::Seq(seq as u16))
}

/// An RTP time: 1 to [`RTPTIME_DIGITS`] digits, up to [`LAST_RTPTIME`].
fn read_time(value: &[u8]) -> Option<Parameter>
    ensures { option_map parameter_seen result ≡ time_of value.now }
{
    let time = read_decimal(value, RTPTIME_DIGITS)?;
    if time > u64::from(LAST_RTPTIME) {
        return None;
    }
    Some(Parameter::Time(time as u32))
}

/// A parameter without a value, which can't be `seq` or `rtptime`.
fn lone_parameter(name: &[u8]) -> Option<Parameter>
    ensures { option_map parameter_seen result ≡ lone_parameter name.now }
{
    if is_token(name) && name != b"seq".as_slice() && name != b"rtptime".as_slice() {
        Some(Parameter::Other)
    } else {
        None
    }
}
