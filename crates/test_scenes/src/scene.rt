//! Scenes: what everybody says in a run.
ghost use Rattle.std.specs.Prelude.{◌≡◌, ◌<◌, ◌≤◌, IfOk};
ghost use Rattle.gate_outside.specs.MemoryDoors.{door_faults, door_ends};
ghost use Rattle.command_line.specs.declared.options.TheConstants.{MOST_STATIONS};

use crate::waiting_links::Manner;
use crate::world::{Props, SceneWorld};
use gate_bytes::{Memory, Text};
use gate_outside::{
    Links, MemoryDoor, MemoryInlet, MemoryOutlet, NewLink, Numbers, Part, Parts, Script,
};
use gate_transcript::MemoryRecorder;
use serve_world::MemoryWorld;
use std::alloc::Global;

/// The most bytes that one call moves.
const PIECE: usize = 65_536;

/// A script by which no call fails, and nothing is ever waited for.
pub fn calm(alloc: Global) -> Script {
    Script {
        fails: Numbers::new(alloc),
        waits: Numbers::new(alloc),
        idle: None,
        piece: PIECE,
    }
}

/// What comes by a link.
#[derive(Drop)]
pub struct Role {
    /// What is said.
    pub parts: Parts,
    /// How the link's inlet behaves.
    pub script: Script,
    /// How the link's outlet behaves.
    pub writing: Script,
    /// So many bytes the server has to have been handed before the link's outlet takes any.
    pub stuck: u64,
    /// The outlet for which what is said next waits.
    outlet: u32,
    /// How many bytes it has to have been handed.
    after: u64,
}

impl Role {
    /// Nothing is said.
    pub fn new(alloc: Global) -> Role {
        Role {
            parts: Parts::new(alloc),
            script: calm(alloc),
            writing: calm(alloc),
            stuck: 0,
            outlet: 0,
            after: 0,
        }
    }

    /// What is said next waits until this outlet was handed so many bytes: more than before, where the same outlet was
    /// waited for.
    pub fn wait_for(&mut self, outlet: u32, bytes: u64) {
        if outlet != self.outlet {
            self.outlet = outlet;
            self.after = 0;
        }
        self.after = self.after.saturating_add(bytes);
    }

    /// What is said next never comes.
    pub fn wait_for_ever(&mut self) {
        self.after = u64::MAX;
    }

    /// Something more is said.
    pub fn say(&mut self, bytes: Text) -> Result<(), Memory> {
        let part = Part {
            bytes,
            outlet: self.outlet,
            after: self.after,
        };
        match self.parts.push(part) {
            Ok(()) => Ok(()),
            Err((_, memory)) => Err(memory),
        }
    }

    /// Has this call of the outlet fail.
    pub fn fail_write(&mut self, call: u64) -> Result<(), Memory> {
        add(&mut self.writing, call)
    }

    /// How the link behaves: a read waits, unless nothing comes from some call on.
    fn manner(&self) -> Manner {
        Manner {
            waits: self.script.idle.is_none(),
            stuck: self.stuck,
        }
    }

    /// The link by which all that comes.
    fn into_link(self, alloc: Global) -> Result<NewLink, Memory> {
        let inlet = MemoryInlet::new(alloc, self.parts, self.script, u64::MAX)?;
        let outlet = MemoryOutlet::new(alloc, self.writing)?;
        Ok(NewLink::new(inlet, outlet))
    }
}

/// What a world may be asked to open.
#[derive(Clone, Copy)]
pub enum Opening {
    /// The door.
    Door,
    /// The recording.
    Recording,
    /// The link to the server.
    Link,
}

/// How the world of a scene behaves.
#[derive(Drop)]
pub struct SceneSetting {
    /// How the door behaves.
    pub door: Script,
    /// How the recorder behaves.
    pub recorder: Script,
    /// The number of the recorder's note for which memory is wanting.
    pub wanting: Option<u64>,
    /// What can't be opened.
    pub closed: Option<Opening>,
    /// What comes by each link: the server's, and then the players'.
    pub roles: Vec<Role>,
}

/// What everybody says in a run.
#[derive(Drop)]
pub struct Scene {
    /// Its name.
    pub name: Text,
    /// How many stations there are.
    pub stations: u8,
    /// Whether what was recorded is replayed.
    pub is_replayed: bool,
    /// Whether only the run's end is printed.
    pub is_brief: bool,
    /// How its world behaves.
    pub setting: SceneSetting,
    pub ghost some: { (0 < stations) × (stations ≤ MOST_STATIONS) },
}

impl Scene {
    /// A scene with this name and one station, in which nothing is said.
    pub fn new(alloc: Global, name: Text) -> Scene {
        Scene {
            name,
            stations: 1,
            is_replayed: false,
            is_brief: false,
            setting: SceneSetting {
                door: calm(alloc),
                recorder: calm(alloc),
                wanting: None,
                closed: None,
                roles: Vec::new(alloc),
            },
        }
    }
}

impl SceneSetting {
    /// Has nothing more come from this call on: of the link that was begun last, or of the door where none was.
    pub fn idle_from(&mut self, call: u64) {
        match self.roles.last_mut() {
            Some(role) => role.script.idle = Some(call),
            None => self.door.idle = Some(call),
        }
    }

    /// Has this call fail: of the link that was begun last, or of the door where none was.
    pub fn fail_at(&mut self, call: u64) -> Result<(), Memory> {
        match self.roles.last_mut() {
            Some(role) => add(&mut role.script, call),
            None => add(&mut self.door, call),
        }
    }

    /// Has the recorder's note with this number fail.
    pub fn fail_note(&mut self, note: u64) -> Result<(), Memory> {
        add(&mut self.recorder, note)
    }
}

/// Has this call fail by a script.
fn add(script: &mut Script, call: u64) -> Result<(), Memory> {
    match script.fails.push(call) {
        Ok(()) => Ok(()),
        Err((_, memory)) => Err(memory),
    }
}

/// A world that behaves so. What is said first is the server's.
pub fn world_of(
    host: HostRuntime,
    alloc: Global,
    setting: SceneSetting,
) -> Result<SceneWorld, Memory> {
    let SceneSetting {
        door,
        recorder,
        wanting,
        closed,
        roles,
    } = setting;
    let manners = manners_of(alloc, roles.as_slice())?;
    let world = memory_world(alloc, door, recorder, roles)?.failing(
        matches!(closed, Some(Opening::Door)),
        matches!(closed, Some(Opening::Link)),
        matches!(closed, Some(Opening::Recording)),
    );
    SceneWorld::new(host, alloc, world, Props { manners, wanting })
}

/// How the links of these roles behave.
fn manners_of(alloc: Global, roles: &[Role]) -> Result<Vec<Manner>, Memory> {
    let mut manners = Vec::new(alloc);
    for role in roles {
        manners.push(role.manner())?;
    }
    Ok(manners)
}

/// The world in memory in which this is said.
fn memory_world(
    alloc: Global,
    door: Script,
    recorder: Script,
    mut roles: Vec<Role>,
) -> Result<MemoryWorld, Memory> {
    let server = server_link(alloc, &mut roles)?;
    let door = door_of(alloc, door, roles)?;
    let recorder = MemoryRecorder::new(alloc, recorder);
    MemoryWorld::new(alloc, door, server, recorder)
}

/// The server's link, whose role is taken out. Where there is no role it says nothing.
fn server_link(alloc: Global, roles: &mut Vec<Role>) -> Result<NewLink, Memory> {
    if roles.is_empty() {
        return Role::new(alloc).into_link(alloc);
    }
    roles.remove(0).into_link(alloc)
}

/// A door that behaves so, by which these players come.
fn door_of(alloc: Global, script: Script, roles: Vec<Role>) -> Result<MemoryDoor, Memory>
    ensures faults { IfOk result (λ door. door_faults door ≡ 0) }
    ensures ends { IfOk result (λ door. door_ends door ≡ 0) }
{
    let mut players = Links::new(alloc);
    match push_links(alloc, roles, &mut players) {
        Ok(()) => MemoryDoor::new(alloc, players, script),
        Err(memory) => Err(memory),
    }
}

/// Appends the links of players.
fn push_links(alloc: Global, roles: Vec<Role>, players: &mut Links) -> Result<(), Memory> {
    for role in roles {
        push_link(alloc, role, players)?;
    }
    Ok(())
}

/// Appends the link of a player.
fn push_link(alloc: Global, role: Role, players: &mut Links) -> Result<(), Memory> {
    match players.push(role.into_link(alloc)?) {
        Ok(()) => Ok(()),
        Err((_link, memory)) => Err(memory),
    }
}
