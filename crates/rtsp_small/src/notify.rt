//! The fields of a notification: Notify-Reason and Request-Status.
ghost use Rattle.std.specs.Prelude.{◌≡◌, Some};
ghost use Rattle.rtsp_small.specs.Notices.{notify_reason_name, notify_reason_of, request_status_of};

use crate::read_cseq_two;
use gate_bytes::{eq_fold, split_once, up_to};

/// Why the server sends a notification (RFC 7826, 18.32).
#[derive(Clone, Copy, Debug, PartialEq, Eq)]
pub enum NotifyReason {
    /// `end-of-stream`: the range that was asked for was delivered.
    EndOfStream,
    /// `media-properties-update`: properties of the media changed.
    MediaProperties,
    /// `scale-change`: the speed of playing changed.
    ScaleChange,
}

impl NotifyReason {
    /// The name in the field. [`read_reason`] gives the reason back.
    fn name(self) -> &'static [u8]
        ensures name { result.now ≡ notify_reason_name self }
        ensures read { notify_reason_of result.now ≡ Some self }
    {
        match self {
            NotifyReason::EndOfStream => b"end-of-stream",
            NotifyReason::MediaProperties => b"media-properties-update",
            NotifyReason::ScaleChange => b"scale-change",
        }
    }
}

/// All reasons.
const NOTIFY_REASONS: [NotifyReason; 3] = [
    NotifyReason::EndOfStream,
    NotifyReason::MediaProperties,
    NotifyReason::ScaleChange,
];

/// The reason that a Notify-Reason field names, without ASCII case.
pub fn read_reason(value: &[u8]) -> Option<NotifyReason>
    ensures { result ≡ notify_reason_of value.now }
{
    for reason in &NOTIFY_REASONS {
        if eq_fold(value, reason.name()) {
            return Some(*reason);
        }
    }
    None
}

/// The number of the request whose outcome a Request-Status field tells: `cseq=` without ASCII case,
/// the number by [`read_cseq_two`], and then the end, or a space and any text (RFC 7826, 18.42).
pub fn read_request_status(value: &[u8]) -> Option<u32>
    ensures { result ≡ request_status_of value.now }
{
    let (name, status) = split_once(b'=', value)?;
    if !eq_fold(name, b"cseq") {
        return None;
    }
    read_cseq_two(up_to(b' ', status))
}
