//! The text of a closing TEARDOWN, in memory that was taken before.
ghost use Rattle.rtsp_small.specs.declared.session.TheConstants.{LONGEST_SESSION_ID};
ghost use Rattle.std.specs.Prelude.{◌≡◌, ◌≤◌, ◌+◌, [], ◌++◌, length, vec_len, vec_capacity};
ghost use Rattle.client_slot.specs.declared.limits.TheConstants.{LONGEST_URI, CLOSING_ROOM};

use crate::limits::CLOSING_ROOM;
use gate_bytes::{Memory, Text};
use std::alloc::Global;

/// Room for the text of one closing TEARDOWN.
#[derive(Drop)]
pub struct ClosingRoom {
    bytes: Vec<u8>,
    ghost empty: { bytes.items ≡ [] },
    ghost room: { CLOSING_ROOM ≤ vec_capacity bytes },
}

impl ClosingRoom {
    ghost use Rattle.head_two.specs.Requests.{request_text};
    ghost use Rattle.client_slot.specs.Teardown.{teardown_request};

    /// Takes the memory: [`CLOSING_ROOM`] bytes. Where that is wanting, the answer is [`Memory`].
    pub fn new(alloc: Global) -> Result<ClosingRoom, Memory> {
        Ok(ClosingRoom {
            bytes: Vec::with_capacity(alloc, CLOSING_ROOM)?,
        })
    }

    /// The text of a TEARDOWN of what a URI stands for, with this number and this session. It takes
    /// no memory.
    pub(crate) fn write(self, uri: &[u8], number: u32, id: &[u8]) -> Text
        requires uri { length uri.now ≤ LONGEST_URI }
        requires id { length id.now ≤ LONGEST_SESSION_ID }
        ensures text { result ≡ request_text number (teardown_request uri.now id.now) }
        ensures short { length result ≤ CLOSING_ROOM }
    {
        let mut text = self.bytes;
        put(&mut text, b"TEARDOWN ");
        put(&mut text, uri);
        put(&mut text, b" RTSP/2.0\r\nCSeq: ");
        let mut buffer = itoa::Buffer::new();
        put(&mut text, buffer.format(number).as_bytes());
        put(&mut text, b"\r\nSession: ");
        put(&mut text, id);
        put(&mut text, b"\r\n\r\n");
        Text::from_vec(text)
    }
}

/// Appends bytes that there is room for.
fn put(text: &mut Vec<u8>, bytes: &[u8])
    requires { vec_len text.old + length bytes.now ≤ vec_capacity text.old }
    ensures items { text.new.items ≡ text.old.items ++ bytes.now }
    ensures len { vec_len text.new ≡ vec_len text.old + length bytes.now }
    ensures capacity { vec_capacity text.old ≤ vec_capacity text.new }
{
    let _ = text.extend_from_slice(bytes);
}
