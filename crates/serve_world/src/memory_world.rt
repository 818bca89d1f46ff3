//! A world in memory, for tests.
ghost use Rattle.std.specs.Prelude.{◌≡◌, length, Some, None, IfOk, IsOk, IsSome, is_ok, option_map};
ghost use Rattle.std.specs.Option.{ForSome, option_copied};
ghost use Rattle.std.specs.Result.{result_ok};
ghost use Rattle.gate_outside.specs.Memories.{write_faults};
ghost use Rattle.gate_outside.specs.MemoryDoors.{door_faults, door_ends, links_coming};
ghost use Rattle.gate_outside.specs.MemoryLinks.{inlet_faults, inlet_ends, outlet_sink, IsUnused};
ghost use Rattle.gate_outside.specs.NewLinks.{halves_of};
ghost use Rattle.gate_transcript.specs.Recordings.{entries_recorded, note_faults};
ghost use Rattle.serve_world.specs.NewThings.{IsNewMemoryDoor, IsNewMemoryRecorder, unless};
ghost use Rattle.serve_world.specs.Tallies.{no_tally, after_listen, after_dial, after_record, after_refusal, after_door, after_link, after_recorder, CountsRecorder};
ghost use Rattle.serve_world.specs.Worlds.{IsNewDoor};

use crate::{ThreadRefusal, World, WorldTally};
use gate_bytes::Memory;
use gate_outside::{Failed, MemoryDoor, MemoryInlet, MemoryLink, MemoryOutlet, NewLink};
use gate_transcript::MemoryRecorder;
use std::alloc::Global;

/// A door, a link to the server and a recorder in memory, each handed out once; asked for again, each is a failure. What
/// comes back is kept.
#[derive(Drop)]
pub struct MemoryWorld {
    tally: WorldTally,
    next_door: Option<MemoryDoor>,
    next_link: Option<NewLink>,
    next_recorder: Option<MemoryRecorder>,
    door: Option<MemoryDoor>,
    upstream: Option<MemoryLink>,
    transcript: Option<MemoryRecorder>,
    ghost new_door: { ForSome next_door IsNewMemoryDoor },
    ghost new_recorder: { ForSome next_recorder IsNewMemoryRecorder },
}

impl MemoryWorld {
    ghost use Rattle.serve_world.specs.MemoryWorlds.{world_tally, world_recorded, door_ahead, link_ahead, recorder_ahead, door_back, link_back, recorder_back, KeepsBack};

    /// A world of these, to which nothing has happened. The parts of the server's inlet and of the inlets of the door's
    /// links may wait for outlets: 0 is the server's, and n that of the door's nth link, counted from 1.
    pub fn new(
        alloc: Global,
        door: MemoryDoor,
        upstream: NewLink,
        recorder: MemoryRecorder,
    ) -> Result<MemoryWorld, Memory>
        requires door { IsNewMemoryDoor door }
        requires recorder { IsNewMemoryRecorder recorder }
        ensures tally { IfOk result (λ world. world_tally world ≡ no_tally) }
        ensures door { IfOk result (λ world. IsSome (door_ahead world)) }
        ensures link { IfOk result (λ world. IsSome (link_ahead world)) }
        ensures recorder { IfOk result (λ world. recorder_ahead world ≡ Some recorder) }
        ensures back { IfOk result (λ world. (door_back world ≡ None) × (link_back world ≡ None)) }
        ensures recorded { IfOk result (λ world. world_recorded world ≡ None) }
    {
        let mut door = door;
        let mut upstream = upstream;
        door.tie(alloc, &mut upstream)?;
        Ok(MemoryWorld {
            tally: WorldTally::new(),
            next_door: Some(door),
            next_link: Some(upstream),
            next_recorder: Some(recorder),
            door: None,
            upstream: None,
            transcript: None,
        })
    }

    /// The same world, of which these calls fail: what they would have handed out is not there.
    pub fn failing(self, listen: bool, dial: bool, recorder: bool) -> MemoryWorld
        ensures door { door_ahead result ≡ unless listen (door_ahead self) }
        ensures link { link_ahead result ≡ unless dial (link_ahead self) }
        ensures recorder { recorder_ahead result ≡ unless recorder (recorder_ahead self) }
        ensures tally { world_tally result ≡ world_tally self }
        ensures back { KeepsBack self result }
    {
        MemoryWorld {
            tally: self.tally,
            next_door: kept_unless(listen, self.next_door),
            next_link: kept_unless(dial, self.next_link),
            next_recorder: kept_unless(recorder, self.next_recorder),
            door: self.door,
            upstream: self.upstream,
            transcript: self.transcript,
        }
    }

    /// What has happened to it.
    pub fn tally(&self) -> WorldTally
        ensures { result ≡ world_tally self.now }
    {
        self.tally
    }

    /// The door that came back last.
    pub fn door(&self) -> Option<&MemoryDoor>
        ensures { option_copied result ≡ door_back self.now }
    {
        self.door.as_ref()
    }

    /// The link to the server that came back last.
    pub fn upstream(&self) -> Option<&MemoryLink>
        ensures { option_copied result ≡ link_back self.now }
    {
        self.upstream.as_ref()
    }

    /// The recorder that came back last.
    pub fn transcript(&self) -> Option<&MemoryRecorder>
        ensures { option_copied result ≡ recorder_back self.now }
    {
        self.transcript.as_ref()
    }
}

/// This, or nothing where that is said.
fn kept_unless<T: Drop>(gone: bool, thing: Option<T>) -> Option<T>
    ensures { result ≡ unless gone thing }
{
    if gone { None } else { thing }
}

impl World for MemoryWorld {
    ghost use Rattle.serve_world.specs.MemoryWorlds.{world_tally, world_recorded, world_left, door_ahead, link_ahead, recorder_ahead, door_back, link_back, recorder_back, KeepsAhead, KeepsBack};

    type Door = MemoryDoor;

    type UpIn = MemoryInlet;

    type UpOut = MemoryOutlet;

    type Rec = MemoryRecorder;

    ghost tally = { λ world. world_tally world };

    ghost recorded = { λ world. world_recorded world };

    ghost links_left = { λ world. world_left world };

    fn listen(&mut self, _address: &[u8]) -> Result<MemoryDoor, Failed>
        ensures counts { world_tally self.new ≡ after_listen (is_ok result) (world_tally self.old) }
        ensures recorded { world_recorded self.new ≡ world_recorded self.old }
        ensures left { world_left self.new ≡ world_left self.old }
        ensures fresh { IfOk result (λ door. IsNewDoor (door_faults door) (door_ends door)) }
        ensures given { result_ok result ≡ door_ahead self.old }
        ensures door { door_ahead self.new ≡ None }
        ensures link { link_ahead self.new ≡ link_ahead self.old }
        ensures recorder { recorder_ahead self.new ≡ recorder_ahead self.old }
        ensures back { KeepsBack self.old self.new }
    {
        let door = self.next_door.take();
        self.tally.add_listen(door.is_some());
        door.ok_or(Failed)
    }

    fn dial(&mut self, _host: &[u8], _port: u16) -> Result<(MemoryInlet, MemoryOutlet), Failed>
        ensures counts { world_tally self.new ≡ after_dial (is_ok result) (world_tally self.old) }
        ensures recorded { world_recorded self.new ≡ world_recorded self.old }
        ensures left { world_left self.new ≡ world_left self.old }
        ensures fresh { IfOk result (λ link. IsUnused link.0 link.1) }
        ensures given { result_ok result ≡ option_map halves_of (link_ahead self.old) }
        ensures door { door_ahead self.new ≡ door_ahead self.old }
        ensures link { link_ahead self.new ≡ None }
        ensures recorder { recorder_ahead self.new ≡ recorder_ahead self.old }
        ensures back { KeepsBack self.old self.new }
    {
        let link = self.next_link.take();
        self.tally.add_dial(link.is_some());
        let link = link.ok_or(Failed)?.into_link();
        Ok((link.inlet, link.outlet))
    }

    fn recorder(&mut self, _name: &[u8]) -> Result<MemoryRecorder, Failed>
        ensures counts { world_tally self.new ≡ after_record (is_ok result) (world_tally self.old) }
        ensures recorded { world_recorded self.new ≡ world_recorded self.old }
        ensures left { world_left self.new ≡ world_left self.old }
        ensures fresh { IfOk result IsNewMemoryRecorder }
        ensures given { result_ok result ≡ recorder_ahead self.old }
        ensures door { door_ahead self.new ≡ door_ahead self.old }
        ensures link { link_ahead self.new ≡ link_ahead self.old }
        ensures recorder { recorder_ahead self.new ≡ None }
        ensures back { KeepsBack self.old self.new }
    {
        let recorder = self.next_recorder.take();
        self.tally.add_record(recorder.is_some());
        recorder.ok_or(Failed)
    }

    fn refuse(&mut self, _refusal: ThreadRefusal)
        ensures counts { world_tally self.new ≡ after_refusal (world_tally self.old) }
        ensures recorded { world_recorded self.new ≡ world_recorded self.old }
        ensures left { world_left self.new ≡ world_left self.old }
        ensures ahead { KeepsAhead self.old self.new }
        ensures back { KeepsBack self.old self.new }
    {
        self.tally.add_refusal();
    }

    fn close_door(&mut self, door: MemoryDoor)
        ensures counts { world_tally self.new
            ≡ after_door (door_faults door) (door_ends door) (world_tally self.old) }
        ensures recorded { world_recorded self.new ≡ world_recorded self.old }
        ensures left { world_left self.new ≡ Some (length (links_coming door)) }
        ensures ahead { KeepsAhead self.old self.new }
        ensures door { door_back self.new ≡ Some door }
        ensures link { link_back self.new ≡ link_back self.old }
        ensures recorder { recorder_back self.new ≡ recorder_back self.old }
    {
        self.tally.add_door(door.faults(), door.ends());
        self.door = Some(door);
    }

    fn close_link(&mut self, inward: MemoryInlet, outward: MemoryOutlet)
        ensures counts { world_tally self.new
            ≡ after_link (inlet_faults inward) (write_faults (outlet_sink outward)) (inlet_ends inward)
            (world_tally self.old) }
        ensures recorded { world_recorded self.new ≡ world_recorded self.old }
        ensures left { world_left self.new ≡ world_left self.old }
        ensures ahead { KeepsAhead self.old self.new }
        ensures door { door_back self.new ≡ door_back self.old }
        ensures link { link_back self.new ≡ Some (record { inlet = inward; outlet = outward }) }
        ensures recorder { recorder_back self.new ≡ recorder_back self.old }
    {
        self.tally
            .add_link(inward.faults(), outward.faults(), inward.ends());
        self.upstream = Some(MemoryLink {
            inlet: inward,
            outlet: outward,
        });
    }

    fn close_recorder(&mut self, recorder: MemoryRecorder) -> Result<(), Failed>
        ensures ok { IsOk result }
        ensures counts { CountsRecorder (note_faults recorder) (world_tally self.old) (world_tally self.new) }
        ensures exact { world_tally self.new ≡ after_recorder (note_faults recorder) (world_tally self.old) }
        ensures recorded { world_recorded self.new ≡ Some (entries_recorded recorder) }
        ensures left { world_left self.new ≡ world_left self.old }
        ensures ahead { KeepsAhead self.old self.new }
        ensures door { door_back self.new ≡ door_back self.old }
        ensures link { link_back self.new ≡ link_back self.old }
        ensures recorder { recorder_back self.new ≡ Some recorder }
    {
        self.tally.add_recorder(recorder.faults());
        self.transcript = Some(recorder);
        Ok(())
    }
}
