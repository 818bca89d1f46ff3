//! A world in memory.

use crate::draft::{Draft, boxed, calm, new_link};
use crate::links::put;
use gate_bytes::Memory;
use gate_outside::{Failed, Links, MemoryDoor, MemoryLink, NewLink};
use gate_transcript::MemoryRecorder;
use serve_world::{MemoryWorld, World};
use std::alloc::Global;
use std::str;
use test_text::{CaseAnswer, CaseFault};

/// A world whose door gives the links of the draft, and whose link to the server gives what was said.
pub fn new_world(alloc: Global, draft: &mut Draft) -> Result<Box<MemoryWorld>, CaseFault> {
    let links = draft.take_links(alloc);
    let parts = draft.take_parts(alloc);
    let upstream = new_link(alloc, parts, draft.take_script(alloc))?;
    boxed(alloc, world_of(alloc, links, upstream)?)
}

/// A world whose door gives these links, and whose link to the server is this one.
fn world_of(alloc: Global, links: Links, upstream: NewLink) -> Result<MemoryWorld, Memory> {
    let door = MemoryDoor::new(alloc, links, calm(alloc))?;
    let recorder = MemoryRecorder::new(alloc, calm(alloc));
    MemoryWorld::new(alloc, door, upstream, recorder)
}

/// Makes the call that a word is at a world, and tells what came. Its door and its link to the server go into these places,
/// and come out of them.
pub fn call_world(
    alloc: Global,
    world: &mut MemoryWorld,
    door: &mut Option<Box<MemoryDoor>>,
    hand: &mut Option<Box<MemoryLink>>,
    word: &[u8],
    answer: &mut CaseAnswer,
) {
    match str::from_utf8(word).unwrap_or("") {
        "listen" => listen(alloc, world, door, answer),
        "close-door" => close_door(world, door.take(), answer),
        "dial" => dial(alloc, world, hand, answer),
        "close-link" => close_link(world, hand.take(), answer),
        "record" => record(alloc, world, answer),
        "tell" => tell_world(alloc, world, answer),
        _ => answer.unreadable(),
    }
}

/// Opens the door.
fn listen(
    alloc: Global,
    world: &mut MemoryWorld,
    place: &mut Option<Box<MemoryDoor>>,
    answer: &mut CaseAnswer,
) {
    match world.listen(b"gate.example:554") {
        Ok(door) => {
            answer.push(b"Ok");
            put(boxed(alloc, door), place, answer);
        }
        Err(Failed) => answer.push(b"Err(Failed)"),
    }
}

/// Closes a door.
fn close_door(world: &mut MemoryWorld, door: Option<Box<MemoryDoor>>, answer: &mut CaseAnswer) {
    match door {
        Some(door) => world.close_door(Box::into_inner(door)),
        None => answer.unreadable(),
    }
}

/// Makes a link to the server, which is the one at hand then.
fn dial(
    alloc: Global,
    world: &mut MemoryWorld,
    hand: &mut Option<Box<MemoryLink>>,
    answer: &mut CaseAnswer,
) {
    match world.dial(b"media.example", 554) {
        Ok((inlet, outlet)) => {
            answer.push(b"Ok");
            put(boxed(alloc, MemoryLink { inlet, outlet }), hand, answer);
        }
        Err(Failed) => answer.push(b"Err(Failed)"),
    }
}

/// Closes a link.
fn close_link(world: &mut MemoryWorld, link: Option<Box<MemoryLink>>, answer: &mut CaseAnswer) {
    match link {
        Some(link) => {
            let link = Box::into_inner(link);
            world.close_link(link.inlet, link.outlet);
        }
        None => answer.unreadable(),
    }
}

/// Makes a recorder, and closes it.
fn record(alloc: Global, world: &mut MemoryWorld, answer: &mut CaseAnswer) {
    match world.recorder(b"name") {
        Ok(recorder) => answer.push_debug(alloc, &world.close_recorder(recorder)),
        Err(Failed) => answer.push(b"Err(Failed)"),
    }
}

/// Whether the door, the link and the recorder came back is told, and how often each was handed out and refused.
fn tell_world(alloc: Global, world: &MemoryWorld, answer: &mut CaseAnswer) {
    let back = [
        world.door().is_some(),
        world.upstream().is_some(),
        world.transcript().is_some(),
    ];
    let tally = world.tally();
    let given = [tally.listens, tally.dials, tally.records];
    let refused = [
        tally.listens_failed,
        tally.dials_failed,
        tally.records_failed,
    ];
    answer.push(b"back ");
    answer.push_debug(alloc, &back);
    answer.push(b", given ");
    answer.push_debug(alloc, &given);
    answer.push(b", refused ");
    answer.push_debug(alloc, &refused);
}
