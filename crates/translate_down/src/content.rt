//! The body of a reply, and what the reply tells of it.
ghost use Rattle.std.specs.Prelude.{◌≡◌, IfOk, option_map};
ghost use Rattle.std.specs.Option.{option_copied};
ghost use Rattle.translate_down.specs.Settings.{setting_of};
ghost use Rattle.translate_down.specs.Contents.{comes_with_description, comes_with_body, base_value, type_value, encoding_value, media_type, names_description, tell_description, body_told};

use crate::Context;
use gate_bytes::{Memory, Text, eq_fold, trim, up_to};
use head_two::Reply2;
use rtsp_head::FieldValue;
use rtsp_small::Method;
use rtsp_uri::{rewrite_sdp, swap_authority};
use std::alloc::Global;

/// The type of session descriptions.
const DESCRIPTION: &[u8] = b"application/sdp";

/// Whether a description comes with a reply.
fn comes_with_description(method: Method, body: &[u8]) -> bool
    ensures { result ≡ comes_with_description method body.now }
{
    method == Method::Describe && !body.is_empty()
}

/// Whether a body comes with a reply that asked for one.
fn comes_with_body(method: Method, body: &[u8]) -> bool
    ensures { result ≡ comes_with_body method body.now }
{
    matches!(method, Method::Describe | Method::GetParameter) && !body.is_empty()
}

/// The value of Content-Base, with a description, under the player's address.
pub(crate) fn base(
    alloc: Global,
    context: &Context<'_>,
    method: Method,
    reply: &Reply2<'_>,
) -> Result<Option<Text>, Memory>
    ensures { IfOk result (λ value.
        value ≡ base_value (setting_of context.now) method reply.now.head.headers reply.now.body) }
{
    let comes = comes_with_description(method, reply.body);
    match reply.head.field_where(comes, b"Content-Base") {
        Some(value) => {
            let bases = context.bases;
            Ok(Some(swap_authority(alloc, &bases.up, &bases.front, value)?))
        }
        None => Ok(None),
    }
}

/// What a reply tells of the body that comes with it, each looked up once.
#[derive(Clone, Copy)]
pub(crate) struct BodyFields<'a> {
    /// The value of Content-Type.
    pub(crate) kind: Option<&'a [u8]>,
    /// The value of Content-Encoding.
    pub(crate) encoding: Option<&'a [u8]>,
}

impl<'a> BodyFields<'a> {
    /// The fields of a reply.
    pub(crate) fn read(method: Method, reply: &'a Reply2<'_>) -> BodyFields<'a>
        ensures kind { option_copied result.kind ≡ type_value method reply.now.head.headers reply.now.body }
        ensures encoding { option_copied result.encoding
            ≡ encoding_value method reply.now.head.headers reply.now.body }
    {
        let comes = comes_with_body(method, reply.body);
        BodyFields {
            kind: reply.head.field_where(comes, b"Content-Type"),
            encoding: reply.head.field_where(comes, b"Content-Encoding"),
        }
    }

    /// Whether they are those of a session description without an encoding.
    fn are_description(self) -> bool
        ensures { result ≡ tell_description (option_copied self.entry.kind) (option_copied self.entry.encoding) }
    {
        names_description(self.kind) && self.encoding.is_none()
    }
}

/// The body that a player gets: a session description under the player's address, any other as it
/// came, and none where none was asked for. These are its fields.
pub(crate) fn body<'a>(
    alloc: Global,
    context: &Context<'_>,
    method: Method,
    reply: &Reply2<'a>,
    fields: BodyFields<'_>,
) -> Result<FieldValue<'a>, Memory>
    requires kind { option_copied fields.kind ≡ type_value method reply.now.head.headers reply.now.body }
    requires encoding { option_copied fields.encoding
        ≡ encoding_value method reply.now.head.headers reply.now.body }
    ensures { IfOk result (λ body.
        body ≡ body_told (setting_of context.now) method reply.now.head.headers reply.now.body) }
{
    let body = reply.body;
    if !comes_with_body(method, body) {
        Ok(FieldValue::new(b""))
    } else if method == Method::Describe && fields.are_description() {
        let told = rewrite_sdp(alloc, &context.bases.up, &context.bases.front, body)?;
        Ok(FieldValue::owned(told))
    } else {
        Ok(FieldValue::new(body))
    }
}

/// Whether a Content-Type is that of session descriptions.
fn names_description(value: Option<&[u8]>) -> bool
    ensures { result ≡ names_description (option_map (λ value. value.now) value.entry) }
{
    match value {
        Some(value) => eq_fold(media_type(value), DESCRIPTION),
        None => false,
    }
}

/// A type without its parameters: what stands before the first `;`.
fn media_type(value: &[u8]) -> &[u8]
    ensures { result.now ≡ media_type value.now }
{
    trim(up_to(b';', value))
}
