//! URIs, and the words that name bases.

use crate::answer::{push_bytes, push_made, push_named};
use crate::words::Words;
use gate_bytes::{after, before};
use rtsp_uri::{Base, BaseFault, Bases, cut, read_base, rewrite_sdp, swap_authority};
use std::alloc::Global;
use std::str;
use test_text::{CaseAnswer, CaseFault};

/// Tells the answer of a case with one of these names; whether it has one.
pub fn tell(name: &str, words: Words<'_>, answer: &mut CaseAnswer) -> bool {
    match name {
        "uri" => tell_uri(words.whole, answer),
        "base" => tell_base(words, answer),
        "swap" => tell_swapped(words, answer),
        "description" => tell_description(words, answer),
        _ => return false,
    }
    true
}

/// A URI up to the end of its host, its port, and its rest.
fn tell_uri(uri: &[u8], answer: &mut CaseAnswer) {
    match cut(uri) {
        Some(places) => {
            push_bytes(answer, before(uri, places.host_end));
            push_named(answer, b" port ", places.port.map(u64::from));
            answer.push(b" rest ");
            push_bytes(answer, after(uri, places.rest));
        }
        None => answer.push(b"none"),
    }
}

/// The text of the base that a word names, its host and its port.
fn tell_base(words: Words<'_>, answer: &mut CaseAnswer) {
    match base_in(words.alloc, words.whole) {
        Ok(base) => {
            push_bytes(answer, base.text.as_bytes());
            answer.push(b" host ");
            push_bytes(answer, base.host.as_bytes());
            push_named(answer, b" port ", base.port.map(u64::from));
        }
        Err(BaseFault::Refused) => answer.push(b"none"),
        Err(BaseFault::Memory) => answer.fail(CaseFault::Memory),
    }
}

/// The base that a word names.
fn base_in(alloc: Global, word: &[u8]) -> Result<Base, BaseFault> {
    match str::from_utf8(word) {
        Ok(word) => read_base(alloc, word),
        Err(_fault) => Err(BaseFault::Refused),
    }
}

/// The two bases that the next words name.
fn next_bases(words: &mut Words<'_>, answer: &mut CaseAnswer) -> Result<Bases, BaseFault> {
    let front = base_in(words.alloc, words.next(answer).as_bytes())?;
    let up = base_in(words.alloc, words.next(answer).as_bytes())?;
    Ok(Bases { front, up })
}

/// A text with the authority of another base in the place of that of a base.
fn tell_swapped(mut words: Words<'_>, answer: &mut CaseAnswer) {
    let bases = next_bases(&mut words, answer);
    let uri = words.all(answer);
    match bases {
        Ok(Bases { front, up }) => push_made(
            answer,
            swap_authority(words.alloc, &front, &up, uri.as_bytes()),
        ),
        Err(_fault) => answer.unreadable(),
    }
}

/// A session description whose control URIs are swapped from a base to another.
fn tell_description(mut words: Words<'_>, answer: &mut CaseAnswer) {
    let bases = next_bases(&mut words, answer);
    let body = words.all(answer);
    match bases {
        Ok(Bases { front, up }) => push_made(
            answer,
            rewrite_sdp(words.alloc, &front, &up, body.as_bytes()),
        ),
        Err(_fault) => answer.unreadable(),
    }
}
