//! A program that plays scenes on one thread: at a hub over a recorder in memory, at what a hub keeps of its connections and
//! of the server, and at a port. It prints what each call answers, and the gate compares that with what it must print.
//!
//! A scene is lines, each of a word and what it is about. Each is printed with what came behind a colon, and so are lines
//! that are empty or begin with `#`, which say nothing. Bytes have the notation of the crate `test_text`. A call that
//! answers a value of a type of those crates is told as that type's `Debug` tells it.
//!
//! At a hub:
//!
//! - `scene NAME` begins a scene, at a new hub to which nothing happened;
//! - `fail-note NUMBER` has the recorder fail at its note with this number, counted from 0, and begins the hub anew;
//! - `enter` has a connection enter, the first under the number 0;
//! - `put CONNECTION BODY` puts a client's item, `take CONNECTION` has it taken, and `ask CONNECTION BODY` does both;
//! - `next CONNECTION` takes the next parcel of the client's end, and tells its bytes;
//! - `shut CONNECTION` ends a connection, `open CONNECTION` tells whether it is open, and `retire CONNECTION` retires it;
//! - `put-up BODY`, `take-up`, `ask-up BODY` and `next-up` are the same of the server, and `end-up` ends the connection to it
//!   by a fault of a read;
//! - `stop` stops the hub, since its door came to an end;
//! - `room CONNECTION`, `asked`, `last`, `ending` and `all-closed` ask the hub;
//! - `times COUNT CALL` makes a call so often, and tells the last answer and how often in a row it came;
//! - `drive CONNECTION COUNT BODY` asks so often and takes the next parcel of the client's end each time, and tells how many
//!   it took; `drive-up CONNECTION COUNT BODY` has the server ask. bench/hub measures these two;
//! - `close` closes the hub. Behind it `noted` gives all entries that the recorder noted, and `noted-last COUNT` how many
//!   they are and the last of them; `replayed` gives how their replay by a new multiplexer ends, and its records;
//!   `receipts` tells how many receipts there are, and `receipt CONNECTION` one of them.
//!
//! At places:
//!
//! - `places NAME` begins a scene with no connections, whose ports hold two parcels each;
//! - `seat` has a connection take its place, the first with the number 0;
//! - `put CONNECTION BODY` puts a client's item, `next CONNECTION` takes the first in line, and `put-first CONNECTION` puts
//!   back the one that was taken last;
//! - `hand-out CONNECTION BODY` hands a client bytes and tells whose port was full, `heard CONNECTION` takes the next bytes
//!   of its end, and `room CONNECTION` tells how many parcels more its port takes;
//! - `arrive CONNECTION` counts an arrival, `close-slow CONNECTION` notes that an item of the server closed it as too slow;
//!   `is-seated CONNECTION` asks whether it is there, and `line CONNECTION` what is kept of it;
//! - `put-up BODY`, `next-up`, `put-first-up` and `heard-up` are the same of the server; `hand-up ANSWER REQUEST` hands it
//!   both, and tells whether its port was full.
//!
//! By themselves:
//!
//! - `port WORDS` has the words put at a port that holds two parcels, and taken from it where one is `take`. What came of
//!   each is told; then how many parcels wait and how many it holds; how many were put, how often it was full, and how many
//!   were taken; and what its ends come to as they meet;
//! - `bell` rings a bell twice before a pause at it, and once softly behind it, and tells how often it rang: by the pause, by
//!   the bell, how often loud after a rest of a millisecond, and how often at all after a pause of a millisecond.
#![tactic(auto)]

mod calls;
mod over;
mod parcels;
mod places;
mod play;
mod ports;
mod stage;

use crate::play::HubPlay;
use std::io;
use std::io::{Read, Write};
use std::process::ExitCode;
use test_text::play_all;

fn main(rt: HostRuntime) -> io::Result<ExitCode> {
    let alloc = rt.alloc();
    let mut script = Vec::new(alloc);
    rt.reader().read_to_end(&mut script)?;
    let mut play = HubPlay::new(&rt);
    match play_all(alloc, script.as_slice(), &mut play) {
        Ok(text) => {
            io::writer(&rt).write_all(text.as_bytes())?;
            Ok(ExitCode::SUCCESS)
        }
        Err(fault) => {
            eprintln!(rt; "test_hub: {fault}")?;
            Ok(ExitCode::FAILURE)
        }
    }
}
