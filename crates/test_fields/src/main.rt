//! A program that hands cases to the readers and writers of fields, heads, messages, URIs, codes and words of the command
//! line, and to the framer of streams, and prints what each answers. The gate compares that with what it must print.
//!
//! A case is a line: the name of a reader or writer, and what it is handed. The line is printed, and behind `: ` the answer:
//! what was read and, where it can be written, how it is written again; or the name of the fault. A line that is empty or
//! begins with `#` is printed alone. Texts have the notation of `test_text`.
//!
//! A case that begins with the name of a book has one step behind another: each is a word and what it is handed, and has its
//! own answer. A book keeps what came from case to case.
#![tactic(auto)]

mod answer;
mod books;
mod bytes;
mod cases;
mod code;
mod command;
mod content;
mod head;
mod keys;
mod longer;
mod numbers;
mod one;
mod pairs;
mod plays;
mod singly;
mod small;
mod stream;
mod two;
mod uri;
mod words;

use crate::cases::tell_cases;
use std::io;
use std::io::{Read, Write};
use std::process::ExitCode;

fn main(rt: HostRuntime) -> io::Result<ExitCode> {
    let alloc = rt.alloc();
    let mut cases = Vec::new(alloc);
    rt.reader().read_to_end(&mut cases)?;
    match tell_cases(alloc, cases.as_slice()) {
        Ok(text) => {
            io::writer(&rt).write_all(text.as_bytes())?;
            Ok(ExitCode::SUCCESS)
        }
        Err(fault) => {
            eprintln!(rt; "test_fields: {fault}")?;
            Ok(ExitCode::FAILURE)
        }
    }
}
