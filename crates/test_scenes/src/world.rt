//! The world of a scene: one in memory, whose links wait for what is due.
ghost use Rattle.std.specs.Prelude.{◌≡◌, None, Some, IfOk};
ghost use Rattle.gate_transcript.specs.Recordings.{entries_recorded, note_faults};
ghost use Rattle.serve_world.specs.MemoryWorlds.{world_recorded};

use crate::waiting_links::{Manner, SceneWatch, WaitingInlet, WaitingOutlet, waiting_link};
use gate_bytes::Memory;
use gate_outside::{Arrived, Door, Failed, MemoryDoor};
use gate_transcript::{EntryKind, MemoryRecorder, NoteFault, Recorder};
use rtsp_uri::DEFAULT_PORT;
use serve_world::{MemoryWorld, ThreadRefusal, World, WorldTally};
use std::alloc::Global;
use std::mem;
use std::sync::Arc;

/// The host of the server, whose address names no port.
const SERVER_HOST: &[u8] = b"media.example";

/// The place of the first player among all links.
const FIRST_PLAYER: usize = 1;

/// A door whose links wait for what is due.
#[derive(Drop)]
pub struct SceneDoor {
    host: HostRuntime,
    alloc: Global,
    door: MemoryDoor,
    /// How the server's link and then the players' behave.
    manners: Vec<Manner>,
    watch: Arc<SceneWatch>,
    /// The place of the next one among them.
    next: usize,
    faults: u64,
    waits: u64,
    ends: u64,
}

impl Door for SceneDoor {
    type Inward = WaitingInlet;

    type Outward = WaitingOutlet;

    ghost links = { λ d. None };

    ghost faults = { λ d. d.faults };

    ghost waits = { λ d. d.waits };

    ghost ends = { λ d. d.ends };

    fn accept(&mut self) -> Result<Arrived<WaitingInlet, WaitingOutlet>, Failed> {
        let halves = match self.door.accept() {
            Ok(Arrived::Link(inlet, outlet)) => (inlet, outlet),
            Ok(Arrived::NotYet) => {
                self.waits = self.waits.saturating_add(1);
                return Ok(Arrived::NotYet);
            }
            Ok(Arrived::End) => {
                self.ends = self.ends.saturating_add(1);
                return Ok(Arrived::End);
            }
            Err(Failed) => {
                self.faults = self.faults.saturating_add(1);
                return Err(Failed);
            }
        };
        let manner = manner_at(self.manners.as_slice(), self.next);
        self.next = self.next.saturating_add(1);
        match waiting_link(self.host, self.alloc, &self.watch, manner, false, halves) {
            Ok((inlet, outlet)) => Ok(Arrived::Link(inlet, outlet)),
            Err(Memory) => {
                self.faults = self.faults.saturating_add(1);
                Err(Failed)
            }
        }
    }

    fn give_back(&mut self, inward: WaitingInlet, outward: WaitingOutlet) {
        self.door.give_back(inward.inlet, outward.outlet);
    }
}

/// How the link at this place behaves. One that is not told waits.
fn manner_at(manners: &[Manner], place: usize) -> Manner {
    match manners.get(place) {
        Some(manner) => *manner,
        None => Manner {
            waits: true,
            stuck: 0,
        },
    }
}

/// A recorder in memory, for one of whose notes memory may be wanting.
#[derive(Drop)]
pub struct SceneRecorder {
    recorder: MemoryRecorder,
    wanting: Option<u64>,
    notes: u64,
}

impl Recorder for SceneRecorder {
    ghost entries = { λ s. Some (entries_recorded s.recorder) };

    ghost faults = { λ s. note_faults s.recorder };

    fn note(&mut self, kind: EntryKind, conn: u32, body: &[u8]) -> Result<(), NoteFault> {
        let number = self.notes;
        self.notes = self.notes.saturating_add(1);
        if self.wanting == Some(number) {
            return Err(NoteFault::Memory);
        }
        self.recorder.note(kind, conn, body)
    }
}

/// What a scene's world is made of, beside the world in memory.
#[derive(Drop)]
pub struct Props {
    /// How the server's link and then the players' behave.
    pub manners: Vec<Manner>,
    /// The number of the note for which memory is wanting.
    pub wanting: Option<u64>,
}

/// The world of a scene.
#[derive(Drop)]
pub struct SceneWorld {
    host: HostRuntime,
    alloc: Global,
    /// The world in memory, to which all comes back.
    pub world: MemoryWorld,
    /// How the server's link behaves.
    server: Manner,
    /// How the server's link and then the players' behave, until the door has it.
    manners: Vec<Manner>,
    wanting: Option<u64>,
    watch: Arc<SceneWatch>,
    tally: WorldTally,
}

impl SceneWorld {
    /// A world to which nothing has happened, as is this one in memory.
    pub fn new(
        host: HostRuntime,
        alloc: Global,
        world: MemoryWorld,
        props: Props,
    ) -> Result<SceneWorld, Memory> {
        let watch = Arc::new(alloc, SceneWatch::new())?;
        let server = manner_at(props.manners.as_slice(), 0);
        Ok(SceneWorld {
            host,
            alloc,
            world,
            server,
            manners: props.manners,
            wanting: props.wanting,
            watch,
            tally: WorldTally::new(),
        })
    }

    /// Whether somebody waited in vain.
    pub fn was_in_vain(&self) -> bool {
        self.watch.was_in_vain()
    }

    /// The door of the world in memory, where it can be opened.
    fn open_door(&mut self) -> Result<SceneDoor, Failed>
        ensures tally { self.new.tally ≡ self.old.tally }
        ensures recorded { world_recorded self.new.world ≡ world_recorded self.old.world }
        ensures faults { IfOk result (λ door. door.faults ≡ 0) }
        ensures ends { IfOk result (λ door. door.ends ≡ 0) }
    {
        let door = self.world.listen(b"")?;
        let manners = mem::replace(&mut self.manners, Vec::new(self.alloc));
        let Ok(watch) = Arc::try_clone(&self.watch) else {
            return Err(Failed);
        };
        Ok(SceneDoor {
            host: self.host,
            alloc: self.alloc,
            door,
            manners,
            watch,
            next: FIRST_PLAYER,
            faults: 0,
            waits: 0,
            ends: 0,
        })
    }

    /// The link to the server, where it can be opened.
    fn open_link(&mut self, host: &[u8], port: u16) -> Result<(WaitingInlet, WaitingOutlet), Failed>
        ensures tally { self.new.tally ≡ self.old.tally }
        ensures recorded { world_recorded self.new.world ≡ world_recorded self.old.world }
        ensures faults { IfOk result (λ link. link.0.faults ≡ 0) }
        ensures ends { IfOk result (λ link. link.0.ends ≡ 0) }
        ensures refusals { IfOk result (λ link. link.1.faults ≡ 0) }
    {
        if host != SERVER_HOST || port != DEFAULT_PORT {
            return Err(Failed);
        }
        let halves = self.world.dial(host, port)?;
        match waiting_link(
            self.host,
            self.alloc,
            &self.watch,
            self.server,
            true,
            halves,
        ) {
            Ok(link) => Ok(link),
            Err(Memory) => Err(Failed),
        }
    }
}

impl World for SceneWorld {
    type Door = SceneDoor;

    type UpIn = WaitingInlet;

    type UpOut = WaitingOutlet;

    type Rec = SceneRecorder;

    ghost tally = { λ world. world.tally };

    ghost recorded = { λ world. world_recorded world.world };

    ghost links_left = { λ world. None };

    fn listen(&mut self, _address: &[u8]) -> Result<SceneDoor, Failed> {
        let door = self.open_door();
        self.tally.add_listen(door.is_ok());
        door
    }

    fn dial(&mut self, host: &[u8], port: u16) -> Result<(WaitingInlet, WaitingOutlet), Failed> {
        let link = self.open_link(host, port);
        self.tally.add_dial(link.is_ok());
        link
    }

    fn recorder(&mut self, name: &[u8]) -> Result<SceneRecorder, Failed> {
        let recorder = self.world.recorder(name);
        self.tally.add_record(recorder.is_ok());
        match recorder {
            Ok(recorder) => Ok(SceneRecorder {
                recorder,
                wanting: self.wanting,
                notes: 0,
            }),
            Err(Failed) => Err(Failed),
        }
    }

    fn refuse(&mut self, _refusal: ThreadRefusal) {
        self.tally.add_refusal();
    }

    fn close_door(&mut self, door: SceneDoor) {
        self.tally.add_door(door.faults, door.ends);
        self.world.close_door(door.door);
    }

    fn close_link(&mut self, inward: WaitingInlet, outward: WaitingOutlet) {
        self.tally
            .add_link(inward.faults(), outward.faults(), inward.ends());
        self.world.close_link(inward.inlet, outward.outlet);
    }

    fn close_recorder(&mut self, recorder: SceneRecorder) -> Result<(), Failed> {
        self.tally.add_recorder(recorder.recorder.faults());
        self.world.close_recorder(recorder.recorder)
    }
}
