//! A program that plays scenes at the sources, sinks, links and worlds in memory, and at the readers and writers of links, on
//! one thread, and prints what each call answers. The gate compares that with what it must print.
//!
//! A scene is lines, each of a word and what it is about. Each is printed with what came behind a colon, and so are lines
//! that are empty or begin with `#`, which say nothing. Bytes have the notation of the crate `test_text`. A call that
//! answers a value of a type of those crates is told as that type's `Debug` tells it.
//!
//! Lines that say how the next thing behaves, which is made by one of the lines further below:
//!
//! - `scene NAME` begins a scene, with nothing said and nothing made;
//! - `piece BYTES` has a call move so many bytes at most, `fail CALL` and `pause CALL` have the call with this number fail
//!   or have nothing for now, and `idle CALL` has nothing come from this call on, all counted from 0;
//! - `wait OUTLET BODY` has what is said next wait until this outlet has taken so many bytes as the body means: more than
//!   the line `wait` before it said, where that was of the same outlet;
//! - `say BODY` has an inlet give these bytes;
//! - `link` has a door give a link that says what was said and behaves so.
//!
//! What is made, and its calls:
//!
//! - `source BODY`: `read-source` tells what it answers, and then the buffer of 20 bytes;
//! - `sink`: `write-all BODY`, and `tell-sink` tells all that was written;
//! - `inlet TURNS`, which fails after so many waits for its outlets, and `outlet NUMBER`, which is tied to it: the two are
//!   the link at hand then;
//! - the link at hand: `read` tells what its inlet answers and the bytes that came; `write BODY` writes to its outlet,
//!   `shut` shuts it, and `is-shut` and `written` tell of it; `swap` puts the link aside, and takes the one that was there;
//! - `numbers NUMBER ..` tells of the list of them whether it was empty first, how many it has, the one at place 2, and
//!   whether it holds 0 and 1, where a word that is no number is the greatest one;
//! - `door`: `accept` has the link that came at hand, `give-back` gives it back, and `tell-door` tells how often the door
//!   failed and came to its end, and what was written to each link that came back;
//! - `world`: `at-world listen` opens its door, `at-world dial` has its link to the server at hand, `at-world record` makes
//!   and closes a recorder, `at-world close-door` and `at-world close-link` close the two, and `at-world tell` tells which
//!   of the three came back, and how often each was given and refused;
//! - `read-all CAPACITY` has a reader read what was said into a port that holds so many items, until the end of it; the
//!   bytes of the items are told, whether the port was ever full, and how many items were put;
//! - `writer`: `put BODY` puts a parcel, `turn` has a writer write, `failed` tells whether its outlet failed, `shut` shuts
//!   it, and `end` ends the writer, tells how many bytes were written, whether its outlet is shut, and how many texts are
//!   kept, and begins the next one;
//! - `desk`: `hand CONNECTION` hands it a writer, `take` takes it and `give-back` gives it back, `is-back` tells whether it
//!   came back, `collect` takes it then and tells its connection, and `close` closes the desk.
//!
//! The world over TCP and files, which is told as the functions of `edge` say: `edge loopback` carries a link over loopback,
//! `edge note-in NAME` notes one entry in a file, `edge file` tells the bytes of the one named `transcript`, `edge note-live`
//! looks at a file while it is noted in, and `edge refused` asks for what can't be.
#![tactic(auto)]

mod draft;
mod edge;
mod links;
mod play;
mod reader;
mod streams;
mod worlds;
mod writers;

use crate::play::LinksPlay;
use std::io;
use std::io::{Read, Write};
use std::process::ExitCode;
use test_text::play_all;

fn main(rt: HostRuntime) -> io::Result<ExitCode> {
    let alloc = rt.alloc();
    let mut script = Vec::new(alloc);
    rt.reader().read_to_end(&mut script)?;
    let mut play = LinksPlay::new(&rt, rt);
    match play_all(alloc, script.as_slice(), &mut play) {
        Ok(text) => {
            io::writer(&rt).write_all(text.as_bytes())?;
            Ok(ExitCode::SUCCESS)
        }
        Err(fault) => {
            eprintln!(rt; "test_links: {fault}")?;
            Ok(ExitCode::FAILURE)
        }
    }
}
