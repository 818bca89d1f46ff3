//! The calls of players, of the server and of their workers at a hub.

use crate::over::{connection_in, word_in};
use crate::parcels::{put_framed, put_item, tell_next, tell_put};
use crate::stage::{HubStage, SceneHub};
use client_ports::Putter;
use gate_bytes::Text;
use gateway_claim::UpWhy;
use gateway_hub::{Entered, StopWhy};
use rtsp_frame::Framer;
use std::alloc::Global;
use std::sync::Wait;
use test_text::{CaseAnswer, CaseFault, first_number, meant};

/// Makes the call of a line, once or as often as it says, and tells what came.
pub fn call_open<W: Wait>(
    rt: &W,
    alloc: Global,
    stage: &mut HubStage,
    line: &[u8],
    answer: &mut CaseAnswer,
) {
    let (word, more) = word_in(line);
    if word != "times" {
        return call(rt, alloc, stage, line, answer);
    }
    match first_number(more) {
        Some((count, line)) => call_often(rt, alloc, stage, count, line, answer),
        None => answer.unreadable(),
    }
}

/// Makes a call so often, and tells the last answer, and how often in a row it came.
fn call_often<W: Wait>(
    rt: &W,
    alloc: Global,
    stage: &mut HubStage,
    count: u64,
    line: &[u8],
    answer: &mut CaseAnswer,
) {
    let mut last = CaseAnswer::new(alloc);
    let mut in_a_row: u64 = 0;
    for _ in 0..count {
        let mut one = CaseAnswer::new(alloc);
        call(rt, alloc, stage, line, &mut one);
        if one.as_bytes() != last.as_bytes() {
            in_a_row = 0;
        }
        in_a_row = in_a_row.saturating_add(1);
        last = one;
    }
    answer.push_number(in_a_row);
    answer.push(b" times ");
    answer.push(last.as_bytes());
    if let Some(fault) = last.fault() {
        answer.fail(fault);
    }
}

/// Makes the call of a line, and tells what came.
fn call<W: Wait>(
    rt: &W,
    alloc: Global,
    stage: &mut HubStage,
    line: &[u8],
    answer: &mut CaseAnswer,
) {
    let (word, more) = word_in(line);
    match word {
        "enter" => enter(alloc, stage, answer),
        "put-up" => tell_put(rt, alloc, &mut stage.says, more, answer),
        "take-up" => answer.push_debug(alloc, &stage.hub.take_up(alloc, rt)),
        "ask-up" => {
            if put_item(rt, alloc, &mut stage.says, more, answer) {
                answer.push_debug(alloc, &stage.hub.take_up(alloc, rt));
            }
        }
        "next-up" => tell_next(rt, &mut stage.hears, answer),
        "end-up" => answer.push_debug(alloc, &stage.hub.shut_up(alloc, rt, UpWhy::ReadFault)),
        "stop" => stage.hub.stop(StopWhy::DoorEnd),
        "asked" | "last" | "ending" | "all-closed" => look(alloc, &mut stage.hub, word, answer),
        _ => match connection_in(more) {
            Some((conn, more)) => call_at(rt, alloc, stage, word, conn, more, answer),
            None => answer.unreadable(),
        },
    }
}

/// Asks the hub what a word says, and tells it.
fn look(alloc: Global, hub: &mut SceneHub, word: &str, answer: &mut CaseAnswer) {
    match word {
        "asked" => answer.push_debug(alloc, &hub.asked()),
        "last" => answer.push_debug(alloc, &hub.last_handed()),
        "ending" => answer.push_debug(alloc, &hub.ending()),
        _ => answer.push_debug(alloc, &hub.all_closed()),
    }
}

/// A connection enters. Its number is told.
fn enter(alloc: Global, stage: &mut HubStage, answer: &mut CaseAnswer) {
    match stage.hub.enter(alloc) {
        Ok(entered) => {
            answer.push_number(u64::from(entered.seat.number()));
            if stage.players.push(Some(entered)).is_err() {
                answer.fail(CaseFault::Memory);
            }
        }
        Err(fault) => answer.push_debug(alloc, &fault),
    }
}

/// Makes the call that a word is, of the connection with this number, and tells what came.
fn call_at<W: Wait>(
    rt: &W,
    alloc: Global,
    stage: &mut HubStage,
    word: &str,
    conn: u32,
    more: &[u8],
    answer: &mut CaseAnswer,
) {
    match word {
        "room" => answer.push_debug(alloc, &stage.hub.room(rt, conn)),
        "retire" => retire(rt, alloc, stage, conn, answer),
        _ => match stage.players.get_mut(conn as usize) {
            Some(Some(player)) => {
                let (hub, says) = (&mut stage.hub, &mut stage.says);
                call_player(rt, alloc, hub, says, player, word, more, answer);
            }
            _ => answer.unreadable(),
        },
    }
}

/// A connection is retired. Its receipt is told.
fn retire<W: Wait>(
    rt: &W,
    alloc: Global,
    stage: &mut HubStage,
    conn: u32,
    answer: &mut CaseAnswer,
) {
    match leaving(&mut stage.players, conn as usize) {
        Some(player) => {
            let hub = &mut stage.hub;
            let receipt = hub.retire(alloc, rt, player.seat, player.inward, player.outward);
            answer.push_debug(alloc, &receipt);
        }
        None => answer.unreadable(),
    }
}

/// The player that entered so many before, who leaves.
fn leaving(players: &mut Vec<Option<Entered>>, at: usize) -> Option<Entered> {
    match players.get_mut(at) {
        Some(player) => player.take(),
        None => None,
    }
}

/// Makes the call that a word is, of this player, and tells what came.
fn call_player<W: Wait>(
    rt: &W,
    alloc: Global,
    hub: &mut SceneHub,
    says: &mut Putter,
    player: &mut Entered,
    word: &str,
    more: &[u8],
    answer: &mut CaseAnswer,
) {
    match word {
        "put" => tell_put(rt, alloc, &mut player.inward, more, answer),
        "take" => answer.push_debug(alloc, &hub.take(alloc, rt, &player.seat)),
        "ask" => {
            if put_item(rt, alloc, &mut player.inward, more, answer) {
                answer.push_debug(alloc, &hub.take(alloc, rt, &player.seat));
            }
        }
        "next" => tell_next(rt, &mut player.outward, answer),
        "shut" => answer.push_debug(alloc, &hub.shut(alloc, rt, &player.seat)),
        "open" => answer.push_debug(alloc, &hub.is_open(player.seat.number())),
        "drive" => drive(rt, alloc, hub, player, more, answer),
        "drive-up" => drive_up(rt, alloc, hub, says, player, more, answer),
        _ => answer.unreadable(),
    }
}

/// The player asks so often what a body means, and takes its next parcel each time. How many it took is told.
fn drive<W: Wait>(
    rt: &W,
    alloc: Global,
    hub: &mut SceneHub,
    player: &mut Entered,
    more: &[u8],
    answer: &mut CaseAnswer,
) {
    match counted(alloc, more) {
        Ok((count, bytes)) => {
            let mut framer = Framer::new(alloc);
            let mut taken: u64 = 0;
            for _ in 0..count {
                let inward = &mut player.inward;
                put_framed(rt, alloc, &mut framer, inward, bytes.as_bytes(), answer);
                let _taken = hub.take(alloc, rt, &player.seat);
                taken = taken.saturating_add(u64::from(player.outward.take(rt).is_some()));
            }
            answer.push_number(taken);
        }
        Err(fault) => answer.fail(fault),
    }
}

/// The server says so often what a body means, and the player takes its next parcel each time. How many it took is told.
fn drive_up<W: Wait>(
    rt: &W,
    alloc: Global,
    hub: &mut SceneHub,
    says: &mut Putter,
    player: &mut Entered,
    more: &[u8],
    answer: &mut CaseAnswer,
) {
    match counted(alloc, more) {
        Ok((count, bytes)) => {
            let mut framer = Framer::new(alloc);
            let mut taken: u64 = 0;
            for _ in 0..count {
                put_framed(rt, alloc, &mut framer, says, bytes.as_bytes(), answer);
                let _taken = hub.take_up(alloc, rt);
                taken = taken.saturating_add(u64::from(player.outward.take(rt).is_some()));
            }
            answer.push_number(taken);
        }
        Err(fault) => answer.fail(fault),
    }
}

/// The count that a line begins with, and the bytes that its body means.
fn counted(alloc: Global, line: &[u8]) -> Result<(u64, Text), CaseFault> {
    match first_number(line) {
        Some((count, body)) => Ok((count, meant(alloc, body)?)),
        None => Err(CaseFault::Unreadable),
    }
}
