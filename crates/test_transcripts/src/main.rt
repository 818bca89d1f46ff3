//! A program that tells what transcripts give: whole ones through a replay, their entries and recordings of them, single calls
//! of the multiplexer, how each end of a run is told, and drills; and that judges single requests, tells replies and changes
//! connections. It reads cases, and prints what came of each. The gate compares that with what must come.
//!
//! A case is a line, and what came of it stands behind its colon. Empty lines and lines with `#` at their front are printed as
//! they are. Bytes have the notation of [`test_text`]. The player calls the gateway `rtsp://gate.example`, and the gateway the
//! server `rtsp://media.example`.
//!
//! Entries, in the notation of `tools/transcript`, are put together to a transcript:
//!
//! - `magic WORD` begins it anew: with its magic where the word is `1`, and with nothing where it is `none`;
//! - `each FIRST LAST ENTRY` is an entry for each number, which stands where `@` does;
//! - `run HOW` tells what it gives, and begins the next one:
//!   - `replay` tells the records and the fault line of its replay. It is replayed in pieces of 4,096 bytes, and of 1 and 7,
//!     which must make no difference; `refuse` does the same with a core that answers every request with 501;
//!   - `pieces READ WRITE CALL CALL` replays it in pieces of so many bytes at most of the source and of the sink, of which this
//!     call of the source and this one of the sink fail, counted from 0; `-` is no call;
//!   - `failures SIZE` replays it in pieces of this size with each call of the source failing, one in a replay, and then with each
//!     of the sink. How each ends is told, and how many of the first bytes of its records were written;
//!   - `entries` tells its entries and its first fault. It is read whole and in pieces of 1, 2, 7, 9 and 100 bytes;
//!   - `record CALL` notes its entries into a sink that takes 7 bytes in a call, and tells what the sink holds; `keep CALL`
//!     notes them into a recorder in memory. The call with this number fails.
//!
//! These have to do with no transcript:
//!
//! - `reader feed BYTES`, `reader next` and `reader finish` call a reader of entries step by step;
//! - `reason BYTES` reads the reason of a server's end, and `write CONNECTION BYTES` writes the entry of a player's bytes;
//! - `mux CALL` calls a multiplexer, as [`calls`] says;
//! - `status END` tells the exit status and the fault line of a run that ended so;
//! - `draw NUMBER MOST..` draws numbers below each of these, from this number on;
//! - `server feed BYTES` hands bytes to the plain server of drills, in pieces of 9, and `server pending` tells how many
//!   requests of it wait; `server turn` tells the answer to the oldest;
//! - `drill PLAYERS NUMBER LENGTH CALL` plays a drill with so many players, from this number on, into a sink that takes so many
//!   bytes in a call, and fails at this call. It tells the status and what the sink took.
//!
//! Of one connection, whose first session has the id `abcd1234`, and the others `efgh5678`, `ijkl9012` and `mnop3456`:
//!
//! - `decide STATE STREAMS PLAYS CHANNELS REQUEST` tells what becomes of a request: the session's state, how many streams it
//!   has, how many PLAYs wait, and whether a pair of channels to the server is `free` or all are `held`. The streams are
//!   `rtsp://media.example/m/1`, `m/2` and so on, with the player's channels 0 and 1, 2 and 3 and so on. What goes up has the
//!   number 9, and a SETUP the channels 6 and 7. `STATE+N` has N other sessions beside it, which are ready, each with the stream
//!   `rtsp://media.example/m/8`; then `rtsp://media.example/d` was described;
//! - `keep STATE STREAMS PLAYS CHANNELS REQUEST` tells what is kept of a SETUP, or of a PLAY that waits;
//! - `reply METHOD NAMED SOURCE SECONDS REPLY` tells what players get of a reply: one whose session has the channels 0 and 1,
//!   and one without a session. The request had this method and the number 7, and its session was `named` or `unnamed`. When
//!   the session was set up the server told the source `hex:0A0B0C0D`, and that it may be closed after `30` seconds; `-` is
//!   neither;
//! - `allowed METHOD` and `after METHOD CODE` tell what a method and a reply to it do to a session in each of its states:
//!   Init, Ready and Playing;
//! - `step STEP` changes a connection, and tells it; `show WHAT` tells more of it;
//! - `event EVENT` tells what an event of the connection hands to its player, and what goes up;
//! - `seat WORD CONNECTION` tells what is kept of the connections of a gateway.
#![tactic(auto)]

mod calls;
mod decisions;
mod drills;
mod entries;
mod events;
mod gateway;
mod items;
mod outcomes;
mod print;
mod recorders;
mod refuser;
mod replays;
mod replies;
mod seats;
mod states;
mod statuses;
mod steps;
mod target;
mod trial;

use crate::target::tell_all;
use std::io;
use std::io::{Read, Write};
use std::process::ExitCode;

fn main(rt: HostRuntime) -> io::Result<ExitCode> {
    let alloc = rt.alloc();
    let mut script = Vec::new(alloc);
    rt.reader().read_to_end(&mut script)?;
    match tell_all(alloc, script.as_slice()) {
        Ok(text) => {
            io::writer(&rt).write_all(text.as_bytes())?;
            Ok(ExitCode::SUCCESS)
        }
        Err(fault) => {
            eprintln!(rt; "test_transcripts: {fault}")?;
            Ok(ExitCode::FAILURE)
        }
    }
}
