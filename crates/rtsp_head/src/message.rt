//! Whole messages: what follows the first line.
ghost use Rattle.std.specs.Prelude.{◌≡◌, ◌++◌, ℕ, List, [], ◌∷◌, length, take, Option, OnOk, OnErr, decimal};
ghost use Rattle.std.specs.Option.{option_map};
ghost use Rattle.std.specs.List.{flat_map};
ghost use Rattle.rtsp_head.specs.declared.header.Header.{Header};
ghost use Rattle.rtsp_head.specs.HeadParts.{Start};
ghost use Rattle.rtsp_head.specs.HeadText.{ended, header_text};
ghost use Rattle.rtsp_head.specs.Messages.{number_headers, length_headers, message_headers, message_text, message, messages_of, IsReadable};

use crate::{Header, Headers};
use gate_bytes::{Memory, Text, push_decimal};

/// Appends what follows a message's first line: its number where it has one, the headers in their
/// order, the length of the body where that has a byte, an empty line, and the body. Where memory is
/// wanting the text is as it was.
pub fn push_message(
    text: &mut Text,
    number: Option<u64>,
    headers: &Headers<'_>,
    body: &[u8],
) -> Result<(), Memory>
    ensures ok { OnOk result
        (text.new
        ≡ text.old
        ++ flat_map (λ header. ended (header_text header))
        (message_headers number headers.now body.now)
        ++ ended [] ++ body.now) }
    ensures err { OnErr result (text.new ≡ text.old) }
{
    let before = text.len();
    let pushed = push_parts(text, number, headers, body);
    if pushed.is_err() {
        text.truncate(before);
    }
    pushed
}

/// The same; where memory is wanting the text has a part of it at its end.
#[tactic(auto, using(gate_bytes::proofs::FrontLemmas::front_kept))]
fn push_parts(
    text: &mut Text,
    number: Option<u64>,
    headers: &Headers<'_>,
    body: &[u8],
) -> Result<(), Memory>
    ensures ok { OnOk result
        (text.new
        ≡ text.old
        ++ flat_map (λ header. ended (header_text header))
        (message_headers number headers.now body.now)
        ++ ended [] ++ body.now) }
    ensures err { OnErr result (take (length text.old) text.new ≡ text.old) }
{
    push_number(text, number)?;
    push_headers(text, headers.as_slice())?;
    push_end(text, body)
}

/// Appends what follows a message's own headers: the length of the body where that has a byte, an empty line, and the
/// body. Where memory is wanting the text has a part of it at its end.
#[tactic(auto, using(gate_bytes::proofs::FrontLemmas::front_kept))]
pub fn push_end(text: &mut Text, body: &[u8]) -> Result<(), Memory>
    ensures ok { OnOk result
        (text.new
        ≡ text.old
        ++ flat_map (λ header. ended (header_text header)) (length_headers body.now)
        ++ ended [] ++ body.now) }
    ensures err { OnErr result (take (length text.old) text.new ≡ text.old) }
{
    push_length(text, body)?;
    text.push_slice(b"\r\n")?;
    text.push_slice(body)
}

/// Appends the headers' lines.
#[tactic(auto, using(gate_bytes::proofs::FrontLemmas::front_kept))]
fn push_headers(text: &mut Text, headers: &[Header<'_>]) -> Result<(), Memory>
    ensures ok { OnOk result
        (text.new ≡ text.old ++ flat_map (λ header. ended (header_text header)) headers.now) }
    ensures err { OnErr result (take (length text.old) text.new ≡ text.old) }
{
    for header in headers {
        push_header(text, header.name, header.value.as_bytes())?;
    }
    Ok(())
}

/// Appends a header's line: that of a message which is written line by line. Where memory is wanting the text has a part
/// of it at its end.
#[tactic(auto, using(gate_bytes::proofs::FrontLemmas::front_kept))]
pub fn push_header(text: &mut Text, name: &[u8], value: &[u8]) -> Result<(), Memory>
    ensures ok { OnOk result
        (text.new ≡ text.old ++ ended (header_text (record { name = name.now; value = value.now }))) }
    ensures err { OnErr result (take (length text.old) text.new ≡ text.old) }
{
    text.push_slice(name)?;
    text.push_slice(b": ")?;
    text.push_slice(value)?;
    text.push_slice(b"\r\n")
}

/// Appends the header with a message's number, where it has one (RFC 2326, 12.17; RFC 7826, 18.20). Where memory is
/// wanting the text has a part of it at its end.
pub fn push_number(text: &mut Text, number: Option<u64>) -> Result<(), Memory>
    ensures ok { OnOk result
        (text.new ≡ text.old ++ flat_map (λ header. ended (header_text header)) (number_headers number)) }
    ensures err { OnErr result (take (length text.old) text.new ≡ text.old) }
{
    match number {
        Some(number) => push_numeric(text, b"CSeq: ", number),
        None => Ok(()),
    }
}

/// Appends the header with the length of a body, where that has a byte (RFC 2326, 12.14; RFC 7826,
/// 18.17).
fn push_length(text: &mut Text, body: &[u8]) -> Result<(), Memory>
    ensures ok { OnOk result
        (text.new ≡ text.old ++ flat_map (λ header. ended (header_text header)) (length_headers body.now)) }
    ensures err { OnErr result (take (length text.old) text.new ≡ text.old) }
{
    if body.is_empty() {
        return Ok(());
    }
    push_numeric(text, b"Content-Length: ", body.len() as u64)
}

/// Appends a line with this front and a number.
#[tactic(auto, using(gate_bytes::proofs::FrontLemmas::front_kept))]
fn push_numeric(text: &mut Text, front: &[u8], number: u64) -> Result<(), Memory>
    ensures ok { OnOk result (text.new ≡ text.old ++ ended (front.now ++ decimal number)) }
    ensures err { OnErr result (take (length text.old) text.new ≡ text.old) }
{
    text.push_slice(front)?;
    push_decimal(text, number)?;
    text.push_slice(b"\r\n")
}

/// A message that was written is read back from any bytes that it begins: it is the first of their
/// messages, its head with all that was written and its body, and the others are those of the rest. So
/// messages that are written in a row are read one by one.
pub fn written_messages()
    ensures { (start : Start) (number : Option ℕ) (headers : List Header) (body rest : List ℕ)
        → IsReadable start number headers body
        → messages_of (message_text start number headers body ++ rest)
        ≡ option_map (λ more. message start number headers body ∷ more) (messages_of rest) }
{}
