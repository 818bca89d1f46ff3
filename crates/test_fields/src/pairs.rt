//! The pairs of channels.

use crate::answer::{push_named, push_option};
use crate::words::Words;
use channel_map::{ChannelMap, Freed, PAIRS, PairSet};
use test_text::CaseAnswer;

/// Does a step with the table of pairs, and tells how many are held then.
pub fn step(map: &mut ChannelMap, words: &mut Words<'_>, answer: &mut CaseAnswer) {
    match words.name() {
        "reserve" => {
            let conn = words.short(answer);
            push_option(answer, map.reserve(conn).map(u64::from));
        }
        "grant" => {
            let pair = words.byte(answer);
            grant(map, pair, answer);
        }
        "release" => {
            let pair = words.byte(answer);
            release(map, pair, answer);
        }
        "after" => {
            let freed = freed_by(words, answer);
            push_option(answer, map.free_after(freed).map(u64::from));
        }
        "free" => {
            let freed = freed_by(words, answer);
            map.free(freed);
            answer.push(b"freed");
        }
        "owner" => {
            let channel = words.byte(answer);
            answer.push_debug(words.alloc, &map.owner(channel));
        }
        _ => answer.unreadable(),
    }
    push_named(answer, b" held ", Some(map.held() as u64));
}

/// What a reply frees: `nothing`, a `pair`, or those of some pairs that were `granted`, whose bits a number has.
fn freed_by(words: &mut Words<'_>, answer: &mut CaseAnswer) -> Freed {
    match words.name() {
        "pair" => Freed::Pair(words.byte(answer)),
        "granted" => Freed::Granted(pairs_in(words.short(answer))),
        "nothing" => Freed::Nothing,
        _ => {
            answer.unreadable();
            Freed::Nothing
        }
    }
}

/// The pairs whose bits a number has, that of the pair 0 being the lowest.
fn pairs_in(bits: u32) -> PairSet {
    let mut pairs = PairSet::new();
    for pair in 0..32 {
        if (bits >> pair) & 1 == 1 {
            pairs.insert(pair);
        }
    }
    pairs
}

/// Grants a pair that is held.
fn grant(map: &mut ChannelMap, pair: u8, answer: &mut CaseAnswer) {
    if usize::from(pair) < PAIRS && map.owner(2 * pair).is_some() {
        map.grant(pair);
        answer.push(b"granted");
    }
}

/// Releases a pair that is held.
fn release(map: &mut ChannelMap, pair: u8, answer: &mut CaseAnswer) {
    if usize::from(pair) < PAIRS && map.owner(2 * pair).is_some() {
        map.release(pair);
        answer.push(b"released");
    }
}
