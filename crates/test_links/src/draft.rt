//! How the next thing of a scene behaves, and what it says.

use gate_bytes::{Memory, Text};
use gate_outside::{Links, MemoryInlet, MemoryOutlet, NewLink, Numbers, Part, Parts, Script};
use std::alloc::Global;
use std::{mem, str};
use test_text::{CaseAnswer, CaseFault, first_number, meant};

/// The most bytes that one call moves where no line says so.
const PIECE: usize = 100_000;

/// A script by which no call fails, and nothing is ever waited for.
pub fn calm(alloc: Global) -> Script {
    Script {
        fails: Numbers::new(alloc),
        waits: Numbers::new(alloc),
        idle: None,
        piece: PIECE,
    }
}

/// How the next thing behaves, and what it says.
#[derive(Drop)]
pub struct Draft {
    /// Which of its calls fail.
    script: Script,
    /// What it says.
    parts: Parts,
    /// The links that it gives.
    links: Links,
    /// The outlet for which what is said next waits.
    outlet: u32,
    /// How many bytes it has to have taken.
    after: u64,
}

impl Draft {
    /// Nothing is said, and no call fails.
    pub fn new(alloc: Global) -> Draft {
        Draft {
            script: calm(alloc),
            parts: Parts::new(alloc),
            links: Links::new(alloc),
            outlet: 0,
            after: 0,
        }
    }

    /// How the next thing behaves. The one behind it is calm again.
    pub fn take_script(&mut self, alloc: Global) -> Script {
        mem::replace(&mut self.script, calm(alloc))
    }

    /// The links that the next thing gives. The one behind it gives none again.
    pub fn take_links(&mut self, alloc: Global) -> Links {
        mem::replace(&mut self.links, Links::new(alloc))
    }

    /// What the next thing says. The one behind it says nothing again.
    pub fn take_parts(&mut self, alloc: Global) -> Parts {
        self.outlet = 0;
        self.after = 0;
        mem::replace(&mut self.parts, Parts::new(alloc))
    }

    /// Does what a line says that begins with a word.
    pub fn obey(&mut self, alloc: Global, word: &[u8], more: &[u8], answer: &mut CaseAnswer) {
        match str::from_utf8(word).unwrap_or("") {
            "say" => self.say(alloc, more, answer),
            "link" => self.give_link(alloc, answer),
            _ => match first_number(more) {
                Some((number, body)) => self.count(alloc, word, number, body, answer),
                None => answer.unreadable(),
            },
        }
    }

    /// Does what a line says in which a word has a number behind it.
    fn count(
        &mut self,
        alloc: Global,
        word: &[u8],
        number: u64,
        body: &[u8],
        answer: &mut CaseAnswer,
    ) {
        match str::from_utf8(word).unwrap_or("") {
            "piece" => self.script.piece = number.max(1) as usize,
            "fail" => push(&mut self.script.fails, number, answer),
            "pause" => push(&mut self.script.waits, number, answer),
            "idle" => self.script.idle = Some(number),
            "wait" => self.wait(alloc, short(number), body, answer),
            _ => answer.unreadable(),
        }
    }

    /// What is said next waits until this outlet has taken these bytes more.
    fn wait(&mut self, alloc: Global, outlet: u32, body: &[u8], answer: &mut CaseAnswer) {
        if outlet != self.outlet {
            self.outlet = outlet;
            self.after = 0;
        }
        match meant(alloc, body) {
            Ok(bytes) => self.after = self.after.saturating_add(bytes.len() as u64),
            Err(fault) => answer.fail(fault),
        }
    }

    /// These bytes are said.
    fn say(&mut self, alloc: Global, body: &[u8], answer: &mut CaseAnswer) {
        match meant(alloc, body) {
            Ok(bytes) => self.add(bytes, answer),
            Err(fault) => answer.fail(fault),
        }
    }

    /// The same of bytes that were read.
    fn add(&mut self, bytes: Text, answer: &mut CaseAnswer) {
        let part = Part {
            bytes,
            outlet: self.outlet,
            after: self.after,
        };
        if self.parts.push(part).is_err() {
            answer.fail(CaseFault::Memory);
        }
    }

    /// A link is given that says what was said, and whose outlet behaves as the draft says.
    fn give_link(&mut self, alloc: Global, answer: &mut CaseAnswer) {
        let parts = self.take_parts(alloc);
        let script = self.take_script(alloc);
        keep(push_link(alloc, parts, script, &mut self.links), answer);
    }
}

/// A link that says so, and fails after one wait, and whose outlet behaves so.
pub fn new_link(alloc: Global, parts: Parts, script: Script) -> Result<NewLink, Memory> {
    let outlet = MemoryOutlet::new(alloc, script)?;
    let inlet = MemoryInlet::new(alloc, parts, calm(alloc), 1)?;
    Ok(NewLink::new(inlet, outlet))
}

/// Appends such a link.
fn push_link(
    alloc: Global,
    parts: Parts,
    script: Script,
    links: &mut Links,
) -> Result<(), CaseFault> {
    let link = new_link(alloc, parts, script)?;
    match links.push(link) {
        Ok(()) => Ok(()),
        Err(_refused) => Err(CaseFault::Memory),
    }
}

/// Keeps the fault of a thing that was not made.
pub fn keep(made: Result<(), CaseFault>, answer: &mut CaseAnswer) {
    if let Err(fault) = made {
        answer.fail(fault);
    }
}

/// A thing in memory of its own. What is played holds its things so, since a large one would be dear for the prover to
/// replace.
pub fn boxed<T: Drop>(alloc: Global, thing: T) -> Result<Box<T>, CaseFault> {
    Ok(Box::new(alloc, thing)?)
}

/// A number of an outlet or a connection, where one that is too great is the greatest.
pub fn short(number: u64) -> u32 {
    u32::try_from(number).unwrap_or(u32::MAX)
}

/// Appends a number.
pub fn push(numbers: &mut Numbers, number: u64, answer: &mut CaseAnswer) {
    if numbers.push(number).is_err() {
        answer.fail(CaseFault::Memory);
    }
}
