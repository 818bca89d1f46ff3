//! The parameters of one alternative.
ghost use Rattle.std.specs.Prelude.{◌≡◌, ◌||◌, codes, option_map};
ghost use Rattle.std.specs.List.{list_any};
ghost use Rattle.std.specs.Option.{option_copied, option_or};
ghost use Rattle.rtsp_transport.specs.Parameters.{parameters_left, name_and_value, name_of, value_in, value_of, is_multicast};
ghost use Rattle.rtsp_transport.specs.Sources.{source_in, first_source};

use crate::split::first_part;
use crate::ssrc::source_named;
use gate_bytes::{eq_fold, split_once, trim};

/// What the parameters of an alternative say. Names have no case, and the first of a name counts.
#[derive(Clone, Copy)]
pub(crate) struct Parameters<'a> {
    /// Whether one of them is `multicast`.
    pub(crate) multicast: bool,
    /// The value of `mode`, which is `None` where there is no `=`.
    pub(crate) mode: Option<Option<&'a [u8]>>,
    /// The value of `interleaved`, likewise.
    pub(crate) interleaved: Option<Option<&'a [u8]>>,
    /// The first source that an `ssrc` names.
    pub(crate) ssrc: Option<u32>,
}

impl<'a> Parameters<'a> {
    /// What the parameters say, of which each is read once. Few messages have them, so this is kept
    /// apart from what treats the others.
    #[inline(never)]
    pub(crate) fn read(parameters: Option<&'a [u8]>) -> Parameters<'a>
        ensures multicast { result.multicast
            ≡ list_any is_multicast (parameters_left (option_copied parameters.entry)) }
        ensures mode { option_map option_copied result.mode
            ≡ value_of (codes "mode") (parameters_left (option_copied parameters.entry)) }
        ensures interleaved { option_map option_copied result.interleaved
            ≡ value_of (codes "interleaved") (parameters_left (option_copied parameters.entry)) }
        ensures ssrc { result.ssrc ≡ first_source (parameters_left (option_copied parameters.entry)) }
    {
        let mut said = Parameters {
            multicast: false,
            mode: None,
            interleaved: None,
            ssrc: None,
        };
        let mut left = parameters;
        while let Some(text) = left {
            let (parameter, more) = first_part(b';', text);
            said.add(trim(parameter));
            left = more;
        }
        said
    }

    /// Adds what one more parameter says, behind the others.
    fn add(&mut self, parameter: &'a [u8])
        ensures multicast { self.new.multicast ≡ (self.old.multicast || is_multicast parameter.now) }
        ensures mode { option_map option_copied self.new.mode
            ≡ option_or (option_map option_copied self.old.mode) (value_in (codes "mode") parameter.now) }
        ensures interleaved { option_map option_copied self.new.interleaved
            ≡ option_or (option_map option_copied self.old.interleaved)
            (value_in (codes "interleaved") parameter.now) }
        ensures ssrc { self.new.ssrc ≡ option_or self.old.ssrc (source_in parameter.now) }
    {
        self.multicast = self.multicast || eq_fold(parameter, b"multicast");
        let (name, value) = name_and_value(parameter);
        match name_of(name) {
            Name::Mode => self.mode = self.mode.or(Some(value)),
            Name::Interleaved => self.interleaved = self.interleaved.or(Some(value)),
            Name::Ssrc => self.ssrc = self.ssrc.or(source_named(Some(value))),
            Name::Other => {}
        }
    }
}

/// The names of the parameters whose values count.
#[derive(Clone, Copy, Debug, PartialEq, Eq)]
enum Name {
    /// `mode`.
    Mode,
    /// `interleaved`.
    Interleaved,
    /// `ssrc`.
    Ssrc,
    /// Any other.
    Other,
}

/// Which name a text is, without ASCII case.
fn name_of(text: &[u8]) -> Name
    ensures { result ≡ name_of text.now }
{
    if eq_fold(text, b"mode") {
        Name::Mode
    } else if eq_fold(text, b"interleaved") {
        Name::Interleaved
    } else if eq_fold(text, b"ssrc") {
        Name::Ssrc
    } else {
        Name::Other
    }
}

/// What stands before and behind the first `=` of a parameter. The value is `None` where there is
/// no `=`.
fn name_and_value(parameter: &[u8]) -> (&[u8], Option<&[u8]>)
    ensures name { result.0.now ≡ (name_and_value parameter.now).0 }
    ensures value { option_copied result.1 ≡ (name_and_value parameter.now).1 }
{
    match split_once(b'=', parameter) {
        Some((name, value)) => (name, Some(value)),
        None => (parameter, None),
    }
}
