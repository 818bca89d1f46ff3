//! Messages of RTSP 2.0 (RFC 7826): the server's replies and requests are read, and requests to it
//! and answers to its own are written.
#![tactic(auto)]

mod answer;
mod ask;
mod fault;
mod law;
mod reply;
mod request;

pub use answer::write_answer;
pub use ask::{Ask2, read_ask};
pub use fault::TwoFault;
pub use law::{answers_in_a_row, requests_in_a_row, written_answers, written_requests};
pub use reply::{Reply2, read_reply};
pub use request::{Request2, write_request};
