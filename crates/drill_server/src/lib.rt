//! A plain server of RTSP 2.0, and draws, for a drill of the gateway.
#![tactic(auto)]

mod answer;
mod draw;
mod server;
mod texts;
mod track;

pub use answer::DrillAnswer;
pub use draw::{Draw, INCREMENT, LOW_BITS, MULTIPLIER};
pub use server::DrillServer;
pub use track::{DrillTrack, ID_BASE};
