//! Sessions that the server made.
ghost use Rattle.std.specs.Prelude.{◌≡◌, true};
ghost use Rattle.rtsp_small.specs.Sessions.{is_session_id};
ghost use Rattle.client_slot.specs.ShortUris.{is_short_where};

use crate::closing_room::ClosingRoom;
use gate_bytes::Text;

/// What is kept of a session that the server made.
#[derive(Drop)]
pub struct MadeParts {
    /// Its id.
    pub id: Text,
    /// A copy of the URI that was described, where one was: the session will be about that.
    pub described: Option<Text>,
    pub ghost valid: { is_session_id id ≡ true },
    pub ghost short: { is_short_where described ≡ true },
}

/// A session that the server made for a SETUP, with the memory that it takes.
#[derive(Drop)]
pub struct MadeSession {
    /// What is kept of it.
    pub parts: MadeParts,
    /// Room for its closing TEARDOWN.
    pub room: ClosingRoom,
}
