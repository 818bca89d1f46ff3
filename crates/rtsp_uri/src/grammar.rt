//! URIs, and the places of their parts.
ghost use Rattle.std.specs.Prelude.{◌≡◌, ◌≤◌, true, length, IfSome, option_map};
ghost use Rattle.std.specs.List.{prefix_len, list_all};
ghost use Rattle.std.specs.Char.{is_ascii_digit};
ghost use Rattle.rtsp_uri.specs.declared.grammar.TheConstants.{SCHEME_BYTES};
ghost use Rattle.rtsp_uri.specs.Uris.{has_scheme, is_name_byte, is_address_byte, is_rest_byte, host_len, port_of, port_part, is_rest, places_of, Stand};

use gate_bytes::{after, before, eq_fold, read_decimal};

/// What each URI begins with, in any case.
pub(crate) const SCHEME: &[u8] = b"rtsp://";

/// The number of bytes of that.
pub(crate) const SCHEME_BYTES: usize = SCHEME.len();

/// The most digits of a port.
pub const PORT_DIGITS: u32 = 5;

/// The greatest port.
pub const LAST_PORT: u16 = 65_535;

/// Where the parts of a URI end. Places are counted in bytes from its front.
#[derive(Clone, Copy, Debug, PartialEq, Eq)]
pub struct UriPlaces {
    /// Where the host ends; it begins behind `rtsp://`.
    pub host_end: usize,
    /// The port, where one is named.
    pub port: Option<u16>,
    /// Where the rest begins: the path and the query, which may be empty.
    pub rest: usize,
}

/// The port of an authority, with the bytes that it takes.
#[derive(Clone, Copy)]
struct PortPart {
    number: Option<u16>,
    len: usize,
}

/// The places of a URI's parts; nothing for a text that is none.
///
/// A URI is `rtsp://` without case, a host, optionally `:` and a port, and a rest that is empty or
/// begins with `/` or `?` (RFC 2326, 3.2; RFC 3986, 3). A host is one or more letters, digits, `.`,
/// `-`, `_` or `~`, or an address of hexadecimal digits, `:` and `.` in brackets. A port has 1
/// to [`PORT_DIGITS`] digits, and is [`LAST_PORT`] at most. The rest has visible bytes of ASCII alone.
pub fn cut(uri: &[u8]) -> Option<UriPlaces>
    ensures places { result ≡ places_of uri.now }
    ensures within { IfSome result (λ places. Stand places (length uri.now)) }
{
    if !has_scheme(uri) {
        return None;
    }
    let body = after(uri, SCHEME_BYTES);
    let host = host_len(body)?;
    let port = port_part(after(body, host))?;
    let authority = host + port.len;
    if is_rest(after(body, authority)) {
        Some(UriPlaces {
            host_end: SCHEME_BYTES + host,
            port: port.number,
            rest: SCHEME_BYTES + authority,
        })
    } else {
        None
    }
}

/// Whether a text begins with `rtsp://`, without case.
fn has_scheme(uri: &[u8]) -> bool
    ensures scheme { result ≡ has_scheme uri.now }
    ensures within { result ≡ true → SCHEME_BYTES ≤ length uri.now }
{
    uri.starts_with(SCHEME)
        || uri.len() >= SCHEME_BYTES && eq_fold(before(uri, SCHEME_BYTES), SCHEME)
}

/// The bytes of the host at the front of a text, where there is one.
fn host_len(text: &[u8]) -> Option<usize>
    ensures len { result ≡ host_len text.now }
    ensures within { IfSome result (λ n. n ≤ length text.now) }
{
    match text {
        [b'[', inside @ ..] => {
            let len = address_len(inside);
            match after(inside, len) {
                [b']', ..] if len > 0 => Some(len + 2),
                _ => None,
            }
        }
        _ => {
            let len = name_len(text);
            if len > 0 { Some(len) } else { None }
        }
    }
}

/// The bytes at the front of a text that a name may have.
fn name_len(text: &[u8]) -> usize
    ensures len { result ≡ prefix_len is_name_byte text.now }
    ensures within { result ≤ length text.now }
{
    text.iter().take_while(|byte| is_name_byte(**byte)).count()
}

/// The bytes at the front of a text that an address in brackets may have.
fn address_len(text: &[u8]) -> usize
    ensures len { result ≡ prefix_len is_address_byte text.now }
    ensures within { result ≤ length text.now }
{
    text.iter()
        .take_while(|byte| is_address_byte(**byte))
        .count()
}

/// The digits at the front of a text.
fn digit_len(text: &[u8]) -> usize
    ensures len { result ≡ prefix_len is_ascii_digit text.now }
    ensures within { result ≤ length text.now }
{
    text.iter().take_while(|byte| byte.is_ascii_digit()).count()
}

/// The port at the front of what follows a host: none where no `:` stands there, and nothing
/// where a `:` has no port behind it.
fn port_part(text: &[u8]) -> Option<PortPart>
    ensures port { option_map (λ port. (port.number, port.len)) result ≡ port_part text.now }
    ensures within { IfSome result (λ port. port.len ≤ length text.now) }
{
    match text {
        [b':', more @ ..] => {
            let len = digit_len(more);
            let number = read_port(before(more, len))?;
            Some(PortPart {
                number: Some(number),
                len: 1 + len,
            })
        }
        _ => Some(PortPart {
            number: None,
            len: 0,
        }),
    }
}

/// A port of 1 to [`PORT_DIGITS`] digits, [`LAST_PORT`] at most.
fn read_port(text: &[u8]) -> Option<u16>
    ensures { result ≡ port_of text.now }
{
    let number = read_decimal(text, PORT_DIGITS)?;
    if number <= u64::from(LAST_PORT) {
        Some(number as u16)
    } else {
        None
    }
}

/// Whether a text is a rest: empty, or `/` or `?` and visible bytes of ASCII.
fn is_rest(text: &[u8]) -> bool
    ensures { result ≡ is_rest text.now }
{
    match text {
        [] => true,
        [first, ..] => (*first == b'/' || *first == b'?') && has_rest_bytes_alone(text),
    }
}

/// Whether each byte of a text may stand in a rest. It looks at all of them and stops at none, so that
/// many are looked at at once.
fn has_rest_bytes_alone(text: &[u8]) -> bool
    ensures { result ≡ list_all is_rest_byte text.now }
{
    let mut alone = true;
    for byte in text {
        alone &= is_rest_byte(*byte);
    }
    alone
}

/// Whether a byte may stand in a rest.
fn is_rest_byte(byte: u8) -> bool
    ensures { result ≡ is_rest_byte byte }
{
    byte.is_ascii_graphic()
}

/// Whether a byte may stand in a name.
fn is_name_byte(byte: u8) -> bool
    ensures { result ≡ is_name_byte byte }
{
    byte.is_ascii_lowercase()
        || byte.is_ascii_alphanumeric()
        || matches!(byte, b'.' | b'-' | b'_' | b'~')
}

/// Whether a byte may stand in an address in brackets.
fn is_address_byte(byte: u8) -> bool
    ensures { result ≡ is_address_byte byte }
{
    byte.is_ascii_hexdigit() || byte == b':' || byte == b'.'
}
