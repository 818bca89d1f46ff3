//! A program that rehearses `serve`: it reads scenes, runs each over a world in memory with real threads, and prints what
//! everybody was handed. The gate compares that with what it must print.
//!
//! A scene is lines, each of a word and what it is about. Lines that are empty or begin with `#` say nothing. Bytes have the
//! notation of the crate `test_text`.
//!
//! - `run NAME` begins a scene, of one station and with nothing said;
//! - `stations COUNT` gives it so many;
//! - `link` begins what comes by a link: first by the server's, then by each player's;
//! - `wait OUTLET BODY` has what is said next wait until this outlet was handed so many bytes as the body means: more than
//!   the line `wait` before it said, where that was of the same outlet. Outlet 0 is the server's, and `n` that of the `n`th
//!   player, counted from 1;
//! - `say BODY` says these bytes;
//! - `end` has the end wait too, which else comes behind what is said last, and `end never` has none come;
//! - `idle CALL` has nothing more come from this call on, and `fail CALL` has this call fail, counted from 0: of the link
//!   that was begun last, or of the door where none was;
//! - `fail-write CALL` has this call of the link's outlet fail, and `stuck BODY` has it take nothing until the server was
//!   handed so many bytes as the body means;
//! - `want NOTE` has memory be wanting for the recorder's note with this number, and `fail-note NOTE` has it fail;
//! - `closed WHAT` has the `door`, the `recording` or the `link` to the server not be opened;
//! - `brief` has nothing told of the run but how it ended;
//! - `replay` has what was recorded replayed, and its records printed.
//!
//! A read waits for what is due, and until its link is shut, as that of a real link does: nobody looks again meanwhile. So what
//! is not told to whoever waits for it is not found by chance. Only of a link with a line `idle` a read does not wait. One
//! that waits for many times as long as a scene takes is let go, and `somebody waited in vain` is printed then.
//!
//! What is printed has a line for each message and each frame that one was handed, and for each record.
#![tactic(auto)]

mod print;
mod scene_run;

use crate::scene_run::rehearse_all;
use std::io;
use std::io::{Read, Write};
use std::process::ExitCode;

fn main(rt: HostRuntime) -> io::Result<ExitCode> {
    let alloc = rt.alloc();
    let mut script = Vec::new(alloc);
    rt.reader().read_to_end(&mut script)?;
    match rehearse_all(&rt, rt, alloc, script.as_slice()) {
        Ok(text) => {
            io::writer(&rt).write_all(text.as_bytes())?;
            Ok(ExitCode::SUCCESS)
        }
        Err(fault) => {
            eprintln!(rt; "test_serve: {fault}")?;
            Ok(ExitCode::FAILURE)
        }
    }
}
