//! Texts that are done with, whose memory new ones are made in.
//!
//! Whoever makes a text for each frame, and drops it in another thread, asks for memory as often as frames come. A
//! [`TextPool`] keeps such texts instead. What a new text holds does not depend on it.
#![tactic(auto)]

mod pool;

pub use pool::{LEAST_KEPT, MOST_KEPT, MOST_TEXTS, TextPool};
