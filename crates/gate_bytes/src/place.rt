//! Places of a byte, and the parts of a text round a place.
ghost use Rattle.std.specs.Prelude.{◌≡◌, ◌<◌, ◌≤◌, ◌==◌, ◌||◌, length, take, drop, IfSome, option_map};
ghost use Rattle.std.specs.List.{list_any};
ghost use Rattle.gate_bytes.specs.Places.{place_of, cut_at, up_to};

/// The first place of a byte in a text.
pub fn find(byte: u8, text: &[u8]) -> Option<usize>
    ensures place { result ≡ place_of byte text.now }
    ensures within { IfSome result (λ at. at < length text.now) }
{
    memchr::memchr(byte, text)
}

/// Whether a text holds one of two bytes.
pub fn holds_either(one: u8, other: u8, text: &[u8]) -> bool
    ensures { result ≡ list_any (λ b. b == one || b == other) text.now }
{
    memchr::memchr2(one, other, text).is_some()
}

/// What stands before a place.
pub fn before(text: &[u8], at: usize) -> &[u8]
    requires { at ≤ length text.now }
    ensures { result.now ≡ take at text.now }
{
    text.split_at(at).0
}

/// What stands from a place on.
pub fn after(text: &[u8], at: usize) -> &[u8]
    requires { at ≤ length text.now }
    ensures { result.now ≡ drop at text.now }
{
    text.split_at(at).1
}

/// The parts of a text before and after the first place of a byte.
pub fn split_once(byte: u8, text: &[u8]) -> Option<(&[u8], &[u8])>
    ensures parts { option_map (λ parts. (parts.0.now, parts.1.now)) result ≡ cut_at byte text.now }
    ensures less { IfSome result (λ parts. length parts.1.now < length text.now) }
{
    let at = find(byte, text)?;
    Some((before(text, at), after(text, at + 1)))
}

/// What stands before the first place of a byte: all of the text, where the byte is not in it.
pub fn up_to(byte: u8, text: &[u8]) -> &[u8]
    ensures { result.now ≡ up_to byte text.now }
{
    match split_once(byte, text) {
        Some((front, _)) => front,
        None => text,
    }
}
