//! The world over TCP and files.

use gate_outside::{Arrived, Door, Failed, Got, Inlet, Outlet, Sink};
use gate_transcript::{EntryKind, Recorder};
use serve_world::World;
use serve_world_tcp::{TcpDoor, TcpInlet, TcpOutlet, TcpWorld};
use std::alloc::Global;
use std::net::{Net, TcpListener, TcpStream};
use std::thread::Threads;
use std::time::Duration;
use std::{fs, str, thread};
use test_text::{CaseAnswer, first_word};

/// How often a recording is looked at that is not closed.
const MOST_LOOKS: u32 = 200;

/// How long a look waits for the next one, in milliseconds.
const LOOK_MILLISECONDS: u64 = 20;

/// Does at the edge what a line says, and tells what came.
pub fn tell_edge<R: Net<Listener = TcpListener, Stream = TcpStream> + Threads>(
    rt: &R,
    host: HostRuntime,
    alloc: Global,
    line: &[u8],
    answer: &mut CaseAnswer,
) {
    let (word, name) = first_word(line);
    match str::from_utf8(word).unwrap_or("") {
        "loopback" => tell_loopback(rt, host, alloc, answer),
        "note-in" => tell_note(rt, host, alloc, name, answer),
        "note-live" => tell_live(rt, host, alloc, answer),
        "file" => tell_file(&host, answer),
        "refused" => tell_refused(rt, host, alloc, answer),
        _ => answer.unreadable(),
    }
}

/// Opens a door at loopback, and tells whether it had nothing at first; then makes a link to it, and tells whether it carried
/// bytes and ended at both sides; and how many doors, links and ends there were, and how many faults of links and doors.
fn tell_loopback<R: Net<Listener = TcpListener, Stream = TcpStream> + Threads>(
    rt: &R,
    host: HostRuntime,
    alloc: Global,
    answer: &mut CaseAnswer,
) {
    let mut world = TcpWorld::new(rt, host, alloc);
    match world.listen(b"127.0.0.1:0") {
        Ok(door) => tell_door(alloc, &mut world, door, answer),
        Err(Failed) => answer.unreadable(),
    }
    let tally = world.tally();
    let once = [tally.listens, tally.dials, tally.link_ends];
    answer.push(b", ");
    answer.push_debug(alloc, &once);
    answer.push(b", ");
    answer.push_debug(alloc, &[tally.link_faults, tally.door_faults]);
}

/// Whether a door has nothing at first is told, and whether a link to it carries. It is closed.
fn tell_door<W: World<Door = TcpDoor, UpIn = TcpInlet, UpOut = TcpOutlet>>(
    alloc: Global,
    world: &mut W,
    door: TcpDoor,
    answer: &mut CaseAnswer,
) {
    let mut door = door;
    let had_none = matches!(door.accept(), Ok(Arrived::NotYet));
    let carried = match door.port() {
        Ok(port) => is_dialled(world, &mut door, port),
        Err(_error) => false,
    };
    answer.push_debug(alloc, &[had_none, carried]);
    world.close_door(door);
}

/// Whether a link is made to a door at this port, where the host is named in brackets, and carries.
fn is_dialled<W: World<Door = TcpDoor, UpIn = TcpInlet, UpOut = TcpOutlet>>(
    world: &mut W,
    door: &mut TcpDoor,
    port: u16,
) -> bool {
    match world.dial(b"[127.0.0.1]", port) {
        Ok((mut inlet, mut outlet)) => {
            let carried = is_carried(door, &mut inlet, &mut outlet);
            world.close_link(inlet, outlet);
            carried
        }
        Err(Failed) => false,
    }
}

/// Whether the link comes by the door, carries bytes, and ends at both sides. The door's side is given back.
fn is_carried(door: &mut TcpDoor, inlet: &mut TcpInlet, outlet: &mut TcpOutlet) -> bool {
    match door.accept() {
        Ok(Arrived::Link(mut theirs, back)) => {
            let carried = is_joined(outlet, &mut theirs) && has_ended(inlet);
            door.give_back(theirs, back);
            carried
        }
        Ok(Arrived::NotYet) => false,
        Ok(Arrived::End) => false,
        Err(Failed) => false,
    }
}

/// Whether the bytes of one half come in by the other, and then its end.
fn is_joined(outward: &mut TcpOutlet, inward: &mut TcpInlet) -> bool {
    let mut buffer = [0u8; 8];
    let written = outward.write(b"gate");
    let read = inward.read(&mut buffer);
    outward.shut();
    let ended = has_ended(inward);
    written == Ok(4) && read == Ok(Got::Bytes(4)) && buffer.starts_with(b"gate") && ended
}

/// Whether what comes in has ended.
fn has_ended(inward: &mut TcpInlet) -> bool {
    let mut buffer = [0u8; 8];
    inward.read(&mut buffer) == Ok(Got::End)
}

/// Notes one entry in a file of this name. Whether it was noted is told, whether the recorder was closed without a fault, and
/// how often it failed; or that it was refused.
fn tell_note<R: Net<Listener = TcpListener, Stream = TcpStream> + Threads>(
    rt: &R,
    host: HostRuntime,
    alloc: Global,
    name: &[u8],
    answer: &mut CaseAnswer,
) {
    let mut world = TcpWorld::new(rt, host, alloc);
    match world.recorder(name) {
        Ok(mut recorder) => {
            let noted = recorder.note(EntryKind::Enter, 1, b"").is_ok();
            let closed = world.close_recorder(recorder).is_ok();
            answer.push_debug(alloc, &[noted, closed]);
        }
        Err(Failed) => answer.push(b"refused"),
    }
    answer.push(b", ");
    answer.push_number(world.tally().record_faults);
}

/// Notes two entries in the file `live`. Whether its bytes were there each time before the recorder was closed is told, and
/// whether that had no fault.
fn tell_live<R: Net<Listener = TcpListener, Stream = TcpStream> + Threads>(
    rt: &R,
    host: HostRuntime,
    alloc: Global,
    answer: &mut CaseAnswer,
) {
    let mut world = TcpWorld::new(rt, host, alloc);
    match world.recorder(b"live") {
        Ok(mut recorder) => {
            let first = recorder.note(EntryKind::Enter, 1, b"").is_ok() && is_there(&host, 17);
            let second = recorder.note(EntryKind::Client, 1, b"hi").is_ok() && is_there(&host, 28);
            let closed = world.close_recorder(recorder).is_ok();
            answer.push_debug(alloc, &[first, second, closed]);
        }
        Err(Failed) => answer.push(b"refused"),
    }
}

/// Whether the file `live` comes to have just so many bytes.
fn is_there(host: &HostRuntime, bytes: usize) -> bool {
    for _ in 0..MOST_LOOKS {
        if length_of(host, "live") == Some(bytes) {
            return true;
        }
        thread::sleep(host, Duration::from_millis(LOOK_MILLISECONDS));
    }
    false
}

/// How many bytes a file has.
fn length_of(host: &HostRuntime, name: &str) -> Option<usize> {
    match fs::read(host, name) {
        Ok(bytes) => Some(bytes.len()),
        Err(_fault) => None,
    }
}

/// The bytes of the file `transcript` are told.
fn tell_file(host: &HostRuntime, answer: &mut CaseAnswer) {
    match fs::read(host, "transcript") {
        Ok(bytes) => answer.push_shown(bytes.as_slice()),
        Err(_fault) => answer.unreadable(),
    }
}

/// Asks for a door, a link and a recorder that can't be. Which of the three were made is told, how often each was refused, and
/// that no thread was.
fn tell_refused<R: Net<Listener = TcpListener, Stream = TcpStream> + Threads>(
    rt: &R,
    host: HostRuntime,
    alloc: Global,
    answer: &mut CaseAnswer,
) {
    let mut world = TcpWorld::new(rt, host, alloc);
    let made = [
        world.listen(b"\xff").is_ok(),
        world.dial(b"[::1", 1).is_ok(),
        world.recorder(b"no/such/folder").is_ok(),
    ];
    answer.push_debug(alloc, &made);
    let tally = world.tally();
    let refused = [
        tally.listens_failed,
        tally.dials_failed,
        tally.records_failed,
        tally.crew_refusals,
    ];
    answer.push(b", ");
    answer.push_debug(alloc, &refused);
}
