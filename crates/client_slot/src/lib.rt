//! What is kept of one player's connection: its sessions, the request of it that is open at the
//! server, and the requests that wait.
//!
//! Each call makes exactly one named change of that record, as `specs/` has them. Numbers of
//! requests and of pairs of channels are those of the server's one connection; the definitions do
//! not depend on that, and hold for any other numbering. All memory is taken by [`Slot::new`], [`Waiting::new`],
//! [`WaitingPlay::new`] and [`ClosingRoom::new`].
#![tactic(auto)]

mod at_place;
mod closing_room;
mod final_reply;
mod gain;
mod law;
mod limits;
mod new_session;
mod purpose;
mod session;
mod session_turn;
mod slot;
mod waiting_play;
mod waiting_request;

pub use closing_room::ClosingRoom;
pub use law::changes_keep_any_numbering;
pub use limits::{CLOSING_ROOM, LONGEST_URI, MOST_WAITING};
pub use new_session::{MadeParts, MadeSession};
pub use purpose::{Pending, Settled};
pub use session_turn::{PartTurn, SessionTurn};
pub use slot::Slot;
pub use waiting_play::WaitingPlay;
pub use waiting_request::Waiting;
