//! What a reply tells of playing.
ghost use Rattle.std.specs.Prelude.{◌≡◌, IfOk};
ghost use Rattle.std.specs.Option.{option_copied};
ghost use Rattle.translate_down.specs.Settings.{setting_of};
ghost use Rattle.translate_down.specs.Plays.{moves, plays, range_told, range_value, scale_value, info_value};

use crate::Context;
use crate::info::info_told;
use gate_bytes::{Memory, Text};
use rtsp_head::Head;
use rtsp_range::{read_two, write};
use rtsp_small::{Method, is_scale};
use std::alloc::Global;

/// The value of Range, with PLAY and PAUSE, where the server's can be read.
pub(crate) fn range(alloc: Global, method: Method, head: &Head<'_>) -> Result<Option<Text>, Memory>
    ensures { IfOk result (λ value. value ≡ range_value method head.now.headers) }
{
    match head.field_where(moves(method), b"Range") {
        Some(value) => range_told(alloc, value),
        None => Ok(None),
    }
}

/// Whether a request plays or pauses.
fn moves(method: Method) -> bool
    ensures { result ≡ moves method }
{
    matches!(method, Method::Play | Method::Pause)
}

/// A value of Range as the server wrote it, in the one form of both versions; none where it can't
/// be read.
fn range_told(alloc: Global, value: &[u8]) -> Result<Option<Text>, Memory>
    ensures { IfOk result (λ told. told ≡ range_told value.now) }
{
    match read_two(value) {
        Ok(range) => Ok(Some(write(alloc, &range)?)),
        Err(_) => Ok(None),
    }
}

/// The value of Scale, with PLAY, where the server's can be read.
pub(crate) fn scale<'a>(method: Method, head: &'a Head<'_>) -> Option<&'a [u8]>
    ensures { option_copied result ≡ scale_value method head.now.headers }
{
    match head.field_where(plays(method), b"Scale") {
        Some(value) if is_scale(value) => Some(value),
        _ => None,
    }
}

/// Whether a request plays.
fn plays(method: Method) -> bool
    ensures { result ≡ plays method }
{
    method == Method::Play
}

/// The value of RTP-Info, with PLAY, where the server's can be read.
pub(crate) fn info(
    alloc: Global,
    context: &Context<'_>,
    method: Method,
    head: &Head<'_>,
) -> Result<Option<Text>, Memory>
    ensures { IfOk result (λ value. value ≡ info_value (setting_of context.now) method head.now.headers) }
{
    match head.field_where(plays(method), b"RTP-Info") {
        Some(value) => info_told(alloc, context.bases, value),
        None => Ok(None),
    }
}
