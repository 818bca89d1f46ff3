//! Doors and links in memory.

use crate::draft::{Draft, boxed, keep, short};
use crate::worlds::{call_world, new_world};
use gate_bytes::Memory;
use gate_outside::{
    Arrived, Door, Failed, Got, Inlet, MemoryDoor, MemoryInlet, MemoryLink, MemoryOutlet, Outlet,
    Script, Sink,
};
use serve_world::MemoryWorld;
use std::alloc::Global;
use std::{mem, str};
use test_text::{CaseAnswer, CaseFault, first_number, meant};

/// What a scene has of doors and links.
#[derive(Drop)]
pub struct LinkPlay {
    /// An inlet that has no outlet yet.
    inlet: Option<Box<MemoryInlet>>,
    /// The link at hand.
    hand: Option<Box<MemoryLink>>,
    /// Another one.
    aside: Option<Box<MemoryLink>>,
    /// A door.
    door: Option<Box<MemoryDoor>>,
    /// A world.
    world: Option<Box<MemoryWorld>>,
}

impl LinkPlay {
    /// Nothing was made.
    pub fn new() -> LinkPlay {
        LinkPlay {
            inlet: None,
            hand: None,
            aside: None,
            door: None,
            world: None,
        }
    }

    /// Makes the call that a word is, and tells what came.
    pub fn call(
        &mut self,
        alloc: Global,
        draft: &mut Draft,
        word: &[u8],
        more: &[u8],
        answer: &mut CaseAnswer,
    ) {
        match str::from_utf8(word).unwrap_or("") {
            "inlet" => keep(self.make_inlet(alloc, draft, more), answer),
            "outlet" => keep(self.make_outlet(alloc, draft, more), answer),
            "door" => keep(self.make_door(alloc, draft), answer),
            "accept" => self.accept(alloc, answer),
            "give-back" => self.give_back(answer),
            "tell-door" => self.tell_door(answer),
            "swap" => mem::swap(&mut self.hand, &mut self.aside),
            "world" => put(new_world(alloc, draft), &mut self.world, answer),
            "at-world" => self.call_world(alloc, more, answer),
            _ => self.call_hand(alloc, draft, word, more, answer),
        }
    }

    /// Makes the call that a word is at the link at hand, or does what the line says of the next thing, where there is none.
    fn call_hand(
        &mut self,
        alloc: Global,
        draft: &mut Draft,
        word: &[u8],
        more: &[u8],
        answer: &mut CaseAnswer,
    ) {
        match &mut self.hand {
            Some(link) => call_link(alloc, link, draft, word, more, answer),
            None => draft.obey(alloc, word, more, answer),
        }
    }

    /// Makes the call that a word is at the world.
    fn call_world(&mut self, alloc: Global, word: &[u8], answer: &mut CaseAnswer) {
        match &mut self.world {
            Some(world) => call_world(alloc, world, &mut self.door, &mut self.hand, word, answer),
            None => answer.unreadable(),
        }
    }

    /// An inlet that behaves as the draft says, and fails after as many waits as a line says.
    fn make_inlet(
        &mut self,
        alloc: Global,
        draft: &mut Draft,
        more: &[u8],
    ) -> Result<(), CaseFault> {
        let inlet = new_inlet(alloc, draft, number_in(more)?)?;
        self.inlet = Some(boxed(alloc, inlet)?);
        Ok(())
    }

    /// Makes an outlet that behaves as the draft says, and ties it to the inlet under the number of a line. The two are the
    /// link at hand then.
    fn make_outlet(
        &mut self,
        alloc: Global,
        draft: &mut Draft,
        more: &[u8],
    ) -> Result<(), CaseFault> {
        let number = short(number_in(more)?);
        let Some(inlet) = self.inlet.take() else {
            return Err(CaseFault::Unreadable);
        };
        let link = new_tie(
            alloc,
            Box::into_inner(inlet),
            number,
            draft.take_script(alloc),
        )?;
        self.hand = Some(link);
        Ok(())
    }

    /// A door that gives the links of the draft.
    fn make_door(&mut self, alloc: Global, draft: &mut Draft) -> Result<(), CaseFault> {
        let links = draft.take_links(alloc);
        let door = MemoryDoor::new(alloc, links, draft.take_script(alloc))?;
        self.door = Some(boxed(alloc, door)?);
        Ok(())
    }

    /// Asks the door for a link, which is the one at hand then.
    fn accept(&mut self, alloc: Global, answer: &mut CaseAnswer) {
        match &mut self.door {
            Some(door) => accept(alloc, door, &mut self.hand, answer),
            None => answer.unreadable(),
        }
    }

    /// Gives the link at hand back to the door.
    fn give_back(&mut self, answer: &mut CaseAnswer) {
        let link = self.hand.take();
        match &mut self.door {
            Some(door) => give_back(door, link, answer),
            None => answer.unreadable(),
        }
    }

    /// The door is told.
    fn tell_door(&self, answer: &mut CaseAnswer) {
        match &self.door {
            Some(door) => tell_door(door, answer),
            None => answer.unreadable(),
        }
    }
}

/// An inlet that behaves as the draft says, and fails after so many waits for its outlets.
pub fn new_inlet(alloc: Global, draft: &mut Draft, turns: u64) -> Result<MemoryInlet, Memory> {
    let parts = draft.take_parts(alloc);
    MemoryInlet::new(alloc, parts, draft.take_script(alloc), turns)
}

/// The link of this inlet and an outlet that behaves so, which is tied to it under a number.
fn new_tie(
    alloc: Global,
    inlet: MemoryInlet,
    number: u32,
    script: Script,
) -> Result<Box<MemoryLink>, CaseFault> {
    let mut inlet = inlet;
    let outlet = MemoryOutlet::new(alloc, script)?;
    inlet.tie(number, &outlet)?;
    boxed(alloc, MemoryLink { inlet, outlet })
}

/// Asks a door for a link, and puts it in hand.
fn accept(
    alloc: Global,
    door: &mut MemoryDoor,
    hand: &mut Option<Box<MemoryLink>>,
    answer: &mut CaseAnswer,
) {
    match door.accept() {
        Ok(Arrived::Link(inlet, outlet)) => {
            answer.push(b"Ok(Link)");
            put(boxed(alloc, MemoryLink { inlet, outlet }), hand, answer);
        }
        Ok(Arrived::NotYet) => answer.push(b"Ok(NotYet)"),
        Ok(Arrived::End) => answer.push(b"Ok(End)"),
        Err(Failed) => answer.push(b"Err(Failed)"),
    }
}

/// Puts a thing in its place, where it was made.
pub fn put<T: Drop>(
    made: Result<Box<T>, CaseFault>,
    place: &mut Option<Box<T>>,
    answer: &mut CaseAnswer,
) {
    match made {
        Ok(thing) => *place = Some(thing),
        Err(fault) => answer.fail(fault),
    }
}

/// Gives a link back to a door.
fn give_back(door: &mut MemoryDoor, link: Option<Box<MemoryLink>>, answer: &mut CaseAnswer) {
    match link {
        Some(link) => {
            let link = Box::into_inner(link);
            door.give_back(link.inlet, link.outlet);
        }
        None => answer.unreadable(),
    }
}

/// How often a door failed is told, how often it came to its end, and what was written to each link that came back, each in a
/// line below.
fn tell_door(door: &MemoryDoor, answer: &mut CaseAnswer) {
    answer.push(b"faults ");
    answer.push_number(door.faults());
    answer.push(b", ends ");
    answer.push_number(door.ends());
    answer.push(b"\n");
    for link in door.returned() {
        answer.push_shown(link.outlet.as_bytes());
        answer.push(b"\n");
    }
}

/// The number of a line.
pub fn number_in(line: &[u8]) -> Result<u64, CaseFault> {
    match first_number(line) {
        Some((number, _)) => Ok(number),
        None => Err(CaseFault::Unreadable),
    }
}

/// Makes the call that a word is at a link, or does what the line says of the next thing, and tells what came.
fn call_link(
    alloc: Global,
    link: &mut MemoryLink,
    draft: &mut Draft,
    word: &[u8],
    more: &[u8],
    answer: &mut CaseAnswer,
) {
    match str::from_utf8(word).unwrap_or("") {
        "read" => read(alloc, &mut link.inlet, answer),
        "write" => write(alloc, &mut link.outlet, more, answer),
        "shut" => link.outlet.shut(),
        "is-shut" => answer.push_debug(alloc, &link.outlet.is_shut()),
        "written" => answer.push_shown(link.outlet.as_bytes()),
        _ => draft.obey(alloc, word, more, answer),
    }
}

/// Reads an inlet once. The answer and the bytes that came are told.
fn read(alloc: Global, inlet: &mut MemoryInlet, answer: &mut CaseAnswer) {
    let mut buffer = [0u8; 20];
    let got = inlet.read(&mut buffer);
    answer.push_debug(alloc, &got);
    if let Ok(Got::Bytes(count)) = got {
        answer.push(b" ");
        answer.push_shown(buffer.get(..count).unwrap_or_default());
    }
}

/// Writes the bytes that a body means to an outlet, once.
fn write(alloc: Global, outlet: &mut MemoryOutlet, body: &[u8], answer: &mut CaseAnswer) {
    match meant(alloc, body) {
        Ok(bytes) if !bytes.is_empty() => {
            answer.push_debug(alloc, &outlet.write(bytes.as_bytes()));
        }
        Ok(_empty) => answer.unreadable(),
        Err(fault) => answer.fail(fault),
    }
}
