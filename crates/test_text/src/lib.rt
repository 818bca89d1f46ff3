//! The text of cases: what programs of the gate read, and print of what came.
//!
//! Bytes have the notation of `tools/transcript`: a bar is CR LF; `\n`, `\r`, `\t`, `\s`, `\p`, `\\` and `\xHH` are single
//! bytes; `{N*c}` is a byte `N` times; and a text with `hex:` at its front is hexadecimal. Every other byte means itself.
#![tactic(auto)]

mod answer;
mod entry;
mod escape;
mod fault;
mod line;
mod play;
mod sign;
mod unescape;

pub use answer::CaseAnswer;
pub use entry::{push_entry, push_records};
pub use escape::{push_hex, push_shown};
pub use fault::{CaseFault, CasesFault};
pub use line::{first_number, first_word, next_line};
pub use play::{CasePlayer, play_all};
pub use unescape::{meant, push_meant};
