//! The short fields of RTSP messages, of both versions: CSeq, Notify-Reason, Public, Request-Status,
//! Scale and Session, and the methods of requests.
//!
//! Each reader answers exactly as its definition in `specs/` says, with `None` exactly outside of the
//! field's grammar, and takes no memory.
#![tactic(auto)]

mod cseq;
mod method;
mod notify;
mod scale;
mod session;

pub use cseq::{CSEQ_ONE_DIGITS, CSEQ_TWO_DIGITS, LAST_CSEQ_TWO, read_cseq_one, read_cseq_two};
pub use method::{METHODS, Method, push_methods, read_method};
pub use notify::{NotifyReason, read_reason, read_request_status};
pub use scale::{SCALE_FRACTION_DIGITS, SCALE_WHOLE_DIGITS, is_scale};
pub use session::{LONGEST_SESSION_ID, SessionField, TIMEOUT_DIGITS, read_session, write_session};
