//! Bytes, texts and numbers: what every other crate of the gateway stands on.
//!
//! A [`Text`] is an owned list of bytes. The readers here are small grammars, and each answers
//! exactly by its definition in `specs/`. What allocates takes the allocator first, and answers
//! [`Memory`] where memory is wanting.
#![tactic(auto)]

mod decimal;
mod list;
mod memory;
mod place;
mod steps;
mod text;
mod token;

pub use decimal::{MOST_DIGITS, push_decimal, read_decimal};
pub use list::OwnedList;
pub use memory::Memory;
pub use place::{after, before, find, holds_either, split_once, up_to};
pub use steps::{Steps, look, seek};
pub use text::Text;
pub use token::{eq_fold, is_token, trim};
