//! A door in memory, whose calls go by a script.
ghost use Rattle.std.specs.Prelude.{◌≡◌, ◌<◌, ◌≤◌, ◌↔◌, [], ◌∷◌, ◌++◌, length, Some, IsErr, IfOk, Contains};
ghost use Rattle.gate_outside.specs.declared.memory_link.MemoryLink.{MemoryLink};
ghost use Rattle.gate_outside.specs.Causes.{HasCause, RisesWith, counted_on};
ghost use Rattle.gate_outside.specs.Doors.{Admits, GivesNewLink, HadNone, HasEnded};
ghost use Rattle.gate_outside.specs.Memories.{NamesWait};

use crate::mark::Tie;
use crate::script::Calls;
use crate::{Arrived, Door, Failed, Links, MemoryInlet, MemoryLink, MemoryOutlet, NewLink, Script};
use gate_bytes::Memory;
use std::alloc::Global;
use std::collections::VecDeque;

/// Links in memory, given one after another. A call fails exactly where the script names its number, and has no link for
/// now where the script says so; how many bytes a call may move says nothing to it. Once all links are given it tells
/// that no link comes any more. The links that are given back are kept, as many as it had at first.
#[derive(Drop)]
pub struct MemoryDoor {
    coming: VecDeque<NewLink>,
    returned: Vec<MemoryLink>,
    waits: u64,
    ends: u64,
    calls: Calls,
}

impl MemoryDoor {
    ghost use Rattle.gate_outside.specs.MemoryDoors.{links_coming, links_returned, room_for_returns, door_script, door_calls, door_faults, door_waits, door_ends};
    ghost use Rattle.gate_outside.specs.MemoryLinks.{bytes_coming};
    ghost use Rattle.gate_outside.specs.NewLinks.{all_halves, new_inlet, new_outlet};

    /// A door that gives these links and was never asked.
    pub fn new(alloc: Global, links: Links, script: Script) -> Result<MemoryDoor, Memory>
        ensures coming { IfOk result (λ door. links_coming door ≡ all_halves links) }
        ensures none { IfOk result (λ door. links_returned door ≡ []) }
        ensures room { IfOk result (λ door. length links ≤ room_for_returns door) }
        ensures script { IfOk result (λ door. door_script door ≡ script) }
        ensures first { IfOk result (λ door. door_calls door ≡ 0) }
        ensures faults { IfOk result (λ door. door_faults door ≡ 0) }
        ensures waits { IfOk result (λ door. door_waits door ≡ 0) }
        ensures ends { IfOk result (λ door. door_ends door ≡ 0) }
    {
        let returned = Vec::with_capacity(alloc, links.len())?;
        Ok(MemoryDoor {
            coming: VecDeque::from_vec(links.into_vec()),
            returned,
            waits: 0,
            ends: 0,
            calls: Calls::new(script),
        })
    }

    /// How often it has failed.
    pub fn faults(&self) -> u64
        ensures { result ≡ door_faults self.now }
    {
        self.calls.failed()
    }

    /// How often it has told that no link comes any more.
    pub fn ends(&self) -> u64
        ensures { result ≡ door_ends self.now }
    {
        self.ends
    }

    /// Lets the parts of the server's link and of the links left wait for outlets: 0 is the server's, and n that of the
    /// nth link left, counted from 1. Where memory runs out some inlets may be tied and others not.
    pub fn tie(&mut self, alloc: Global, server: &mut NewLink) -> Result<(), Memory>
        ensures outlet { new_outlet server.new ≡ new_outlet server.old }
        ensures bytes { bytes_coming (new_inlet server.new) ≡ bytes_coming (new_inlet server.old) }
        ensures coming { length (links_coming self.new) ≡ length (links_coming self.old) }
        ensures returned { links_returned self.new ≡ links_returned self.old }
        ensures room { room_for_returns self.new ≡ room_for_returns self.old }
        ensures script { door_script self.new ≡ door_script self.old }
        ensures made { door_calls self.new ≡ door_calls self.old }
        ensures faults { door_faults self.new ≡ door_faults self.old }
        ensures waits { door_waits self.new ≡ door_waits self.old }
        ensures ends { door_ends self.new ≡ door_ends self.old }
    {
        let ties = outlets_of(alloc, server, &self.coming)?;
        server.tie_all(ties.as_slice())?;
        for link in self.coming.iter_mut() {
            link.tie_all(ties.as_slice())?;
        }
        Ok(())
    }

    /// The links that were given back, in the order of their return.
    pub fn returned(&self) -> &[MemoryLink]
        ensures { result.now ≡ links_returned self.now }
    {
        self.returned.as_slice()
    }
}

impl Door for MemoryDoor {
    ghost use Rattle.gate_outside.specs.Memories.{write_faults};
    ghost use Rattle.gate_outside.specs.MemoryLinks.{inlet_faults, inlet_ends, outlet_sink, bytes_sent};
    ghost use Rattle.gate_outside.specs.MemoryDoors.{links_coming, links_returned, room_for_returns, door_script, door_calls, door_faults, door_waits, door_ends};

    type Inward = MemoryInlet;

    type Outward = MemoryOutlet;

    ghost links = { λ door. Some (links_coming door) };

    ghost faults = { λ door. door_faults door };

    ghost waits = { λ door. door_waits door };

    ghost ends = { λ door. door_ends door };

    fn accept(&mut self) -> Result<Arrived<MemoryInlet, MemoryOutlet>, Failed>
        ensures links { Admits (Some (links_coming self.old)) (Some (links_coming self.new)) result }
        ensures cause { HasCause (door_faults self.old) (door_faults self.new) result }
        ensures waits { RisesWith (door_waits self.old) (door_waits self.new) (HadNone result) }
        ensures ends { RisesWith (door_ends self.old) (door_ends self.new) (HasEnded result) }
        ensures fresh { GivesNewLink inlet_faults inlet_ends (λ o. write_faults (outlet_sink o))
            (λ o. Some (bytes_sent o)) result }
        ensures fails { IsErr result ↔ Contains (door_script self.old).fails (door_calls self.old) }
        ensures pauses { NamesWait (door_script self.old) (door_calls self.old)
            → IfOk result (λ arrived. HadNone (Ok arrived)) }
        ensures only { HadNone result → NamesWait (door_script self.old) (door_calls self.old) }
        ensures made { door_calls self.new ≡ counted_on (door_calls self.old) }
        ensures script { door_script self.new ≡ door_script self.old }
        ensures returned { links_returned self.new ≡ links_returned self.old }
        ensures room { room_for_returns self.new ≡ room_for_returns self.old }
    {
        let pauses = self.calls.pauses();
        self.calls.enter()?;
        if pauses {
            self.waits = self.waits.saturating_add(1);
            return Ok(Arrived::NotYet);
        }
        let Some(link) = self.coming.pop_front() else {
            self.ends = self.ends.saturating_add(1);
            return Ok(Arrived::End);
        };
        let link = link.into_link();
        Ok(Arrived::Link(link.inlet, link.outlet))
    }

    fn give_back(&mut self, inward: MemoryInlet, outward: MemoryOutlet)
        ensures links { links_coming self.new ≡ links_coming self.old }
        ensures faults { door_faults self.new ≡ door_faults self.old }
        ensures waits { door_waits self.new ≡ door_waits self.old }
        ensures ends { door_ends self.new ≡ door_ends self.old }
        ensures made { door_calls self.new ≡ door_calls self.old }
        ensures script { door_script self.new ≡ door_script self.old }
        ensures returned { length (links_returned self.old) < room_for_returns self.old
            → links_returned self.new
            ≡ links_returned self.old ++ record { inlet = inward; outlet = outward } ∷ [] }
        ensures room { room_for_returns self.new ≡ room_for_returns self.old }
    {
        if self.returned.len() < self.returned.capacity() {
            self.returned.push_reserved(MemoryLink {
                inlet: inward,
                outlet: outward,
            });
        }
    }
}

/// The outlets of these links, under their numbers.
fn outlets_of(
    alloc: Global,
    server: &NewLink,
    links: &VecDeque<NewLink>,
) -> Result<Vec<Tie>, Memory> {
    let mut ties = Vec::new(alloc);
    ties.push(server.as_tie(0)?)?;
    let mut number = 0u32;
    for link in links.iter() {
        number = number.saturating_add(1);
        ties.push(link.as_tie(number)?)?;
    }
    Ok(ties)
}
