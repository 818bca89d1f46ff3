//! The limits of one connection, all of them this project's own.

use rtsp_head::MOST_HEAD;
use rtsp_small::LONGEST_SESSION_ID;

/// The most bytes of a URI that goes up. It stood in a head, and the swap of its authority makes it
/// longer by fewer than 256.
pub const LONGEST_URI: usize = MOST_HEAD + 256;

/// The bytes that a closing TEARDOWN has room for: its URI, its session's id, and
/// what stands round them.
pub const CLOSING_ROOM: usize = LONGEST_URI + LONGEST_SESSION_ID + 512;

/// The most requests that may wait. No memory holds so many.
pub const MOST_WAITING: usize = 0x4000_0000_0000_0000;
