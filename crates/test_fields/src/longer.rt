//! Longer fields: ranges of time, transports and RTP-Info.
ghost use Rattle.std.specs.Prelude.{IfOk};
ghost use Rattle.rtsp_transport.specs.Channels.{AreApart};
ghost use Rattle.rtsp_transport.specs.Wants.{NamesApart};

use crate::answer::{push_bytes, push_made, push_named};
use crate::words::Words;
use gate_bytes::Memory;
use rtp_info::{Info, InfoEntry, read_two as read_info, write_one as write_info};
use rtsp_range::{Range, RangeFault, read_one, read_two, write};
use rtsp_transport::{Grant, Pair, TransportFault, Wanted, pick, read_grant, write_one, write_two};
use std::alloc::Global;
use test_text::{CaseAnswer, CaseFault};

/// Tells the answer of a case with one of these names; whether it has one.
pub fn tell(name: &str, words: Words<'_>, answer: &mut CaseAnswer) -> bool {
    match name {
        "range-one" => tell_range(words.alloc, read_one(words.whole), answer),
        "range-two" => tell_range(words.alloc, read_two(words.whole), answer),
        "pick" => tell_wanted(words.alloc, pick(words.whole), answer),
        "grant" => tell_grant(words.alloc, read_grant(words.whole), answer),
        "rtp-info" => match read_info(words.alloc, words.whole) {
            Ok(info) => tell_info(words.alloc, &info, answer),
            Err(fault) => answer.push_debug(words.alloc, &fault),
        },
        "rtp-info-of" => tell_made(words, answer),
        _ => return false,
    }
    true
}

/// How a range is written, and its fields; or its first fault, and what is printed of that.
fn tell_range(alloc: Global, read: Result<Range, RangeFault>, answer: &mut CaseAnswer) {
    match read {
        Ok(range) => {
            push_made(answer, write(alloc, &range));
            answer.push(b", ");
            answer.push_debug(alloc, &range);
        }
        Err(fault) => {
            answer.push_debug(alloc, &fault);
            answer.push(b", ");
            answer.push_display(alloc, &fault);
        }
    }
}

/// What a player wants, and how the server is asked for these channels.
fn tell_wanted(alloc: Global, wanted: Result<Wanted, TransportFault>, answer: &mut CaseAnswer)
    requires { IfOk wanted NamesApart }
{
    match wanted {
        Ok(Wanted::Any) => answer.push(b"any"),
        Ok(Wanted::Exact(pair)) => {
            push_pair(answer, &pair);
            answer.push(b", written ");
            push_made(answer, write_two(alloc, &pair));
        }
        Err(fault) => answer.push_debug(alloc, &fault),
    }
}

/// What a server grants, and how a player is granted that.
fn tell_grant(alloc: Global, granted: Result<Grant, TransportFault>, answer: &mut CaseAnswer)
    requires { IfOk granted (λ grant. AreApart grant.pair) }
{
    match granted {
        Ok(grant) => {
            push_pair(answer, &grant.pair);
            push_named(answer, b" source ", grant.ssrc.map(u64::from));
            answer.push(b", written ");
            push_made(answer, write_one(alloc, &grant.pair, grant.ssrc));
        }
        Err(fault) => answer.push_debug(alloc, &fault),
    }
}

/// Tells two channels.
fn push_pair(answer: &mut CaseAnswer, pair: &Pair) {
    answer.push_number(u64::from(pair.rtp));
    answer.push(b"-");
    answer.push_number(u64::from(pair.rtcp));
}

/// A list of two entries that is made of words: two URLs, and the sequence number of the second.
fn tell_made(mut words: Words<'_>, answer: &mut CaseAnswer) {
    let (first, second) = (words.next(answer), words.next(answer));
    let first = InfoEntry {
        url: first.as_bytes(),
        seq: None,
        rtptime: None,
    };
    let second = InfoEntry {
        url: second.as_bytes(),
        seq: Some(words.small(answer)),
        rtptime: None,
    };
    match info_of(words.alloc, first, second) {
        Ok(info) => tell_info(words.alloc, &info, answer),
        Err(_memory) => answer.fail(CaseFault::Memory),
    }
}

/// The list of two entries.
fn info_of<'a>(
    alloc: Global,
    first: InfoEntry<'a>,
    second: InfoEntry<'a>,
) -> Result<Info<'a>, Memory> {
    match Info::of(alloc, first) {
        Ok(mut info) => match info.push(second) {
            Ok(()) => Ok(info),
            Err((_entry, memory)) => Err(memory),
        },
        Err((_entry, memory)) => Err(memory),
    }
}

/// The entries of a list in their order, and how it is written.
fn tell_info(alloc: Global, info: &Info<'_>, answer: &mut CaseAnswer) {
    for place in 0..info.len() {
        push_entry(answer, info.at(place));
    }
    answer.push(b"written ");
    push_made(answer, write_info(alloc, info));
}

/// Tells an entry.
fn push_entry(answer: &mut CaseAnswer, entry: &InfoEntry<'_>) {
    push_bytes(answer, entry.url);
    push_named(answer, b" seq ", entry.seq.map(u64::from));
    push_named(answer, b" rtptime ", entry.rtptime.map(u64::from));
    answer.push(b", ");
}
