//! Methods by name, and the value of the field Public.
ghost use Rattle.std.specs.Prelude.{◌≡◌, ◌++◌, Some, OnOk, OnErr};
ghost use Rattle.rtsp_small.specs.Methods.{method_name, method_of, methods_text};

use gate_bytes::{Memory, Text};

/// A method that the gateway translates (RFC 2326, 10; RFC 7826, 13).
#[derive(Clone, Copy, Debug, PartialEq, Eq)]
pub enum Method {
    /// `OPTIONS`.
    Options,
    /// `DESCRIBE`.
    Describe,
    /// `SETUP`.
    Setup,
    /// `PLAY`.
    Play,
    /// `PAUSE`.
    Pause,
    /// `TEARDOWN`.
    Teardown,
    /// `GET_PARAMETER`.
    GetParameter,
    /// `SET_PARAMETER`.
    SetParameter,
}

impl Method {
    /// The name, as it stands in a request line. [`read_method`] gives the method back.
    pub fn name(self) -> &'static [u8]
        ensures name { result.now ≡ method_name self }
        ensures read { method_of result.now ≡ Some self }
    {
        match self {
            Method::Options => b"OPTIONS",
            Method::Describe => b"DESCRIBE",
            Method::Setup => b"SETUP",
            Method::Play => b"PLAY",
            Method::Pause => b"PAUSE",
            Method::Teardown => b"TEARDOWN",
            Method::GetParameter => b"GET_PARAMETER",
            Method::SetParameter => b"SET_PARAMETER",
        }
    }
}

/// All methods, in the order in which the field Public names them.
pub const METHODS: [Method; 8] = [
    Method::Options,
    Method::Describe,
    Method::Setup,
    Method::Play,
    Method::Pause,
    Method::Teardown,
    Method::GetParameter,
    Method::SetParameter,
];

/// The method with this name. Case matters, and no other text is one (RFC 2326, 6.1).
pub fn read_method(text: &[u8]) -> Option<Method>
    ensures { result ≡ method_of text.now }
{
    for method in &METHODS {
        if text == method.name() {
            return Some(*method);
        }
    }
    None
}

/// The names of all [`METHODS`], as the field Public has them.
const METHOD_NAMES: &[u8] =
    b"OPTIONS, DESCRIBE, SETUP, PLAY, PAUSE, TEARDOWN, GET_PARAMETER, SET_PARAMETER";

/// Appends the value of the field Public: the names of all methods, with a comma and a space between
/// two (RFC 2326, 12.28; RFC 7826, 18.39). Where memory is wanting, the text stays as it was.
pub fn push_methods(text: &mut Text) -> Result<(), Memory>
    ensures ok { OnOk result (text.new ≡ text.old ++ methods_text) }
    ensures err { OnErr result (text.new ≡ text.old) }
{
    text.push_slice(METHOD_NAMES)
}
