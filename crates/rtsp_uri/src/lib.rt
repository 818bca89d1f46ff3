//! Addresses: the URIs that players name, the bases of a run, and swapping the authority of one base
//! for that of the other.
//!
//! A base is the address of one side: what players call the gateway, or what the gateway calls the
//! server behind it. A URI with the authority of one base gets that of the other; every other text
//! stays as it is.
#![tactic(auto)]

mod base;
mod cut_uri;
mod description;
mod grammar;
mod laws;
mod parts;
mod swap;
mod word;

pub use base::{Base, Bases};
pub use cut_uri::CutUri;
pub use description::rewrite_sdp;
pub use grammar::{LAST_PORT, PORT_DIGITS, UriPlaces, cut};
pub use laws::{
    other_descriptions_stay, other_texts_stay, plain_words_are_accepted, swapped_uris_come_back,
    swapped_uris_have_the_authority, uris_are_spelled,
};
pub use parts::UriParts;
pub use swap::{DEFAULT_PORT, swap_authority, swap_in_uri};
pub use word::{BaseFault, LONGEST_BASE, LONGEST_BASE_TEXT, read_base};
