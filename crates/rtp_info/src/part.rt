//! Splitting a text at a byte.
ghost use Rattle.std.specs.Prelude.{◌≡◌, ◌<◌, ◌∷◌, length, IfSome, is_none};
ghost use Rattle.std.specs.Option.{option_copied};
ghost use Rattle.gate_bytes.specs.Places.{parts_at};
ghost use Rattle.rtp_info.specs.Parts.{remaining_parts, is_last};

use gate_bytes::split_once;

/// The first part of a text that a byte splits, and what follows that byte; nothing follows the last
/// part.
pub(crate) fn first_part(byte: u8, text: &[u8]) -> (&[u8], Option<&[u8]>)
    ensures parts { parts_at byte text.now ≡ result.0.now ∷ remaining_parts byte (option_copied result.1) }
    ensures last { is_last (remaining_parts byte (option_copied result.1)) ≡ is_none result.1 }
    ensures less { IfSome result.1 (λ rest. length rest.now < length text.now) }
{
    match split_once(byte, text) {
        Some((part, rest)) => (part, Some(rest)),
        None => (text, None),
    }
}
