//! Writers of links, and the desk at which they are handed to a thread.
ghost use Rattle.std.specs.Prelude.{◌≡◌};

use crate::draft::{Draft, boxed, calm, short};
use crate::links::{number_in, put};
use client_ports::{Parcel, Putter, port};
use gate_bytes::Memory;
use gate_outside::{MemoryOutlet, Outlet, Script};
use gateway_links::{Gather, Writer, WriterDesk};
use std::alloc::Global;
use std::sync::Wait;
use std::{mem, str};
use test_text::{CaseAnswer, CaseFault, meant};
use text_pool::TextPool;

/// How many parcels a port holds.
const CAPACITY: usize = 8;

/// The writer of an outlet by this script, and the end that puts its parcels.
fn new_writer(
    alloc: Global,
    conn: u32,
    script: Script,
) -> Result<(Putter, Writer<MemoryOutlet>), Memory> {
    let (putter, taker) = port(alloc, CAPACITY)?;
    let outlet = MemoryOutlet::new(alloc, script)?;
    Ok((putter, Writer::new(alloc, Some(conn), outlet, taker)))
}

/// A writer, what puts its parcels, and the texts that it is done with.
#[derive(Drop)]
struct WriterEnds {
    putter: Putter,
    writer: Writer<MemoryOutlet>,
    spent: TextPool,
}

/// A writer of an outlet by this script.
fn new_ends(alloc: Global, script: Script) -> Result<Box<WriterEnds>, CaseFault> {
    let (putter, writer) = new_writer(alloc, 3, script)?;
    let spent = TextPool::new(alloc);
    boxed(
        alloc,
        WriterEnds {
            putter,
            writer,
            spent,
        },
    )
}

/// A writer and what belongs to it.
#[derive(Drop)]
pub struct WriterPlay {
    ends: Box<WriterEnds>,
}

impl WriterPlay {
    /// A writer of an outlet that behaves as the draft says.
    pub fn new(alloc: Global, draft: &mut Draft) -> Result<Box<WriterPlay>, CaseFault> {
        let ends = new_ends(alloc, draft.take_script(alloc))?;
        boxed(alloc, WriterPlay { ends })
    }

    /// Makes the call that a word is, or does what the line says of the next thing, and tells what came.
    pub fn call<W: Wait>(
        &mut self,
        rt: &W,
        alloc: Global,
        draft: &mut Draft,
        word: &[u8],
        more: &[u8],
        answer: &mut CaseAnswer,
    ) {
        match str::from_utf8(word).unwrap_or("") {
            "put" => put_parcel(rt, alloc, &mut self.ends.putter, more, answer),
            "turn" => turn(rt, alloc, &mut self.ends, answer),
            "write-at-once" => write_at_once(rt, alloc, &mut self.ends, answer),
            "failed" => answer.push_debug(alloc, &self.ends.writer.has_failed()),
            "shut" => self.ends.writer.shut(),
            "end" => self.end(alloc, draft.take_script(alloc), answer),
            _ => draft.obey(alloc, word, more, answer),
        }
    }

    /// Ends the writer, and begins the next one, whose outlet behaves so. How many bytes were written is told, whether the outlet is shut, and how many texts are kept.
    fn end(&mut self, alloc: Global, script: Script, answer: &mut CaseAnswer) {
        match new_ends(alloc, script) {
            Ok(next) => tell_ends(alloc, mem::replace(&mut self.ends, next), answer),
            Err(fault) => answer.fail(fault),
        }
    }
}

/// Puts a parcel.
fn put_parcel<W: Wait>(
    rt: &W,
    alloc: Global,
    putter: &mut Putter,
    body: &[u8],
    answer: &mut CaseAnswer,
) {
    match meant(alloc, body) {
        Ok(bytes) => match putter.put(rt, Parcel::Bytes(bytes)) {
            Ok(()) => answer.push(b"put"),
            Err(_full) => answer.push(b"full"),
        },
        Err(fault) => answer.fail(fault),
    }
}

/// Has a writer write, and tells what it answers.
fn turn<W: Wait>(rt: &W, alloc: Global, ends: &mut WriterEnds, answer: &mut CaseAnswer) {
    let turn = ends.writer.turn(rt, &mut ends.spent);
    answer.push_debug(alloc, &turn);
}

/// Has a writer write all at once, and tells what it answers.
fn write_at_once<W: Wait>(rt: &W, alloc: Global, ends: &mut WriterEnds, answer: &mut CaseAnswer) {
    let mut buffer = Gather::new(alloc);
    let is_done = ends.writer.write_at_once(rt, &mut ends.spent, &mut buffer);
    answer.push_debug(alloc, &is_done);
}

/// Ends a writer, and tells of its outlet.
fn tell_ends(alloc: Global, ends: Box<WriterEnds>, answer: &mut CaseAnswer) {
    let ends = Box::into_inner(ends);
    let kept = ends.spent.len();
    let (outlet, _taker, _failed) = ends.writer.into_ends();
    tell_outlet(alloc, &outlet, kept, answer);
}

/// How many bytes were written to an outlet is told, whether it is shut, and how many texts are kept.
fn tell_outlet(alloc: Global, outlet: &MemoryOutlet, kept: usize, answer: &mut CaseAnswer) {
    answer.push(b"written ");
    answer.push_number(outlet.as_bytes().len() as u64);
    answer.push(b", shut ");
    answer.push_debug(alloc, &outlet.is_shut());
    answer.push(b", kept ");
    answer.push_number(kept as u64);
}

/// What threads may share.
fn shared<T: Sync>(value: &T) -> &T
    ensures { result.now ≡ value.now }
{
    value
}

/// A desk may be shared by threads, whatever its outlets are.
fn shared_desk<O: Outlet + Drop>(desk: &WriterDesk<O>) -> &WriterDesk<O> {
    shared(desk)
}

/// A desk, and the writer that was taken from it and not given back.
#[derive(Drop)]
pub struct DeskPlay {
    desk: Box<WriterDesk<MemoryOutlet>>,
    taken: Option<Box<Writer<MemoryOutlet>>>,
}

impl DeskPlay {
    /// A desk with no writer.
    pub fn new(alloc: Global) -> Result<Box<DeskPlay>, CaseFault> {
        let desk = boxed(alloc, WriterDesk::new())?;
        boxed(alloc, DeskPlay { desk, taken: None })
    }

    /// Makes the call that a word is, and tells what came.
    pub fn call<W: Wait>(
        &mut self,
        rt: &W,
        alloc: Global,
        word: &[u8],
        more: &[u8],
        answer: &mut CaseAnswer,
    ) {
        match str::from_utf8(word).unwrap_or("") {
            "hand" => hand(rt, alloc, &self.desk, more, answer),
            "take" => self.take(rt, alloc, answer),
            "give-back" => give_back(rt, &self.desk, self.taken.take(), answer),
            "rest" => rest(rt, &self.desk, self.taken.take(), answer),
            "serve" => serve(rt, alloc, &self.desk, more, answer),
            "is-back" => answer.push_debug(alloc, &self.desk.is_back(rt)),
            "collect" => answer.push_debug(alloc, &self.desk.collect(rt).conn()),
            "close" => self.desk.close(rt),
            _ => answer.unreadable(),
        }
    }

    /// Takes the writer, as the thread does that runs it.
    fn take<W: Wait>(&mut self, rt: &W, alloc: Global, answer: &mut CaseAnswer) {
        match self.desk.take(rt) {
            Some(writer) => {
                answer.push(b"Some");
                put(boxed(alloc, writer), &mut self.taken, answer);
            }
            None => answer.push(b"None"),
        }
    }
}

/// Hands a desk a writer of a connection with the number of a line.
fn hand<W: Wait>(
    rt: &W,
    alloc: Global,
    desk: &WriterDesk<MemoryOutlet>,
    more: &[u8],
    answer: &mut CaseAnswer,
) {
    match numbered_writer(alloc, more) {
        Ok(writer) => match shared_desk(desk).hand(rt, writer) {
            Ok(()) => answer.push(b"Ok"),
            Err(_writer) => answer.push(b"Err"),
        },
        Err(fault) => answer.fail(fault),
    }
}

/// Gives a writer back to a desk.
fn give_back<W: Wait>(
    rt: &W,
    desk: &WriterDesk<MemoryOutlet>,
    writer: Option<Box<Writer<MemoryOutlet>>>,
    answer: &mut CaseAnswer,
) {
    match writer {
        Some(writer) => desk.give_back(rt, Box::into_inner(writer)),
        None => answer.unreadable(),
    }
}

/// Leaves a writer at a desk.
fn rest<W: Wait>(
    rt: &W,
    desk: &WriterDesk<MemoryOutlet>,
    writer: Option<Box<Writer<MemoryOutlet>>>,
    answer: &mut CaseAnswer,
) {
    match writer {
        Some(writer) => desk.rest(rt, Box::into_inner(writer)),
        None => answer.unreadable(),
    }
}

/// Has the writer at a desk serve the connection with the number of a line, and tells whether the desk is for that, and what
/// came.
fn serve<W: Wait>(
    rt: &W,
    alloc: Global,
    desk: &WriterDesk<MemoryOutlet>,
    more: &[u8],
    answer: &mut CaseAnswer,
) {
    let Ok(number) = number_in(more) else {
        answer.unreadable();
        return;
    };
    let mut spent = TextPool::new(alloc);
    let mut buffer = Gather::new(alloc);
    answer.push_debug(alloc, &desk.is_for(short(number)));
    answer.push(b" ");
    answer.push_debug(
        alloc,
        &desk.serve(rt, short(number), &mut spent, &mut buffer),
    );
}

/// The writer of a connection with the number of a line.
fn numbered_writer(alloc: Global, more: &[u8]) -> Result<Writer<MemoryOutlet>, CaseFault> {
    let conn = short(number_in(more)?);
    let (_, writer) = new_writer(alloc, conn, calm(alloc))?;
    Ok(writer)
}
