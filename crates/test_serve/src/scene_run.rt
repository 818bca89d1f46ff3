//! Scenes are run.
ghost use Rattle.std.specs.Prelude.{◌<◌, ◌≤◌, [], IfOk};
ghost use Rattle.command_line.specs.declared.options.TheConstants.{MOST_STATIONS};
ghost use Rattle.gateway_mux.specs.Stands.{Stands, bases_of};
ghost use Rattle.rtsp_uri.specs.Bases.{AreSameAddresses};

use crate::print::{tell_end, tell_name, tell_replay, tell_run};
use command_line::ServeOptions;
use gate_bytes::{Memory, Text};
use gate_outside::MemorySink;
use gateway_mux::Mux;
use gateway_run::serve;
use rtsp_uri::{Base, Bases, read_base};
use serve_world::MemoryWorld;
use std::alloc::Global;
use std::sync::Wait;
use std::thread::Threads;
use std::time::Clock;
use test_scenes::{Scene, SceneWorld, calm, read_scenes, world_of};
use test_text::{CaseAnswer, CaseFault, CasesFault};

/// Runs all scenes, and tells of each what everybody was handed.
pub fn rehearse_all<R: Threads + Wait + Clock + Sync>(
    rt: &R,
    host: HostRuntime,
    alloc: Global,
    script: &[u8],
) -> Result<Text, CasesFault> {
    let scenes = read_scenes(alloc, script)?;
    let mut answer = CaseAnswer::new(alloc);
    for scene in scenes {
        rehearse(rt, host, alloc, scene, &mut answer);
        answer.push(b"\n");
    }
    match answer.done() {
        Ok(text) => Ok(text),
        Err(_fault) => Err(CasesFault::Memory),
    }
}

/// What is told of a run.
#[derive(Clone, Copy)]
struct Telling {
    /// Whether what was recorded is replayed.
    is_replayed: bool,
    /// Whether only the run's end is printed.
    is_brief: bool,
}

/// Runs a scene, and tells what everybody was handed.
fn rehearse<R: Threads + Wait + Clock + Sync>(
    rt: &R,
    host: HostRuntime,
    alloc: Global,
    scene: Scene,
    answer: &mut CaseAnswer,
) {
    let Scene {
        name,
        stations,
        is_replayed,
        is_brief,
        setting,
    } = scene;
    tell_name(name.as_bytes(), answer);
    let telling = Telling {
        is_replayed,
        is_brief,
    };
    match world_of(host, alloc, setting) {
        Ok(mut world) => perform(rt, alloc, stations, telling, &mut world, answer),
        Err(Memory) => answer.fail(CaseFault::Memory),
    }
}

/// Runs in a world with so many stations, and tells what everybody was handed.
fn perform<R: Threads + Wait + Clock + Sync>(
    rt: &R,
    alloc: Global,
    stations: u8,
    telling: Telling,
    world: &mut SceneWorld,
    answer: &mut CaseAnswer,
)
    requires { (0 < stations) × (stations ≤ MOST_STATIONS) }
{
    match options(alloc, stations) {
        Ok(options) => run(rt, alloc, &options, telling, world, answer),
        Err(Memory) => answer.fail(CaseFault::Memory),
    }
}

/// Runs with these options, and tells what everybody was handed, and what comes where that is replayed.
fn run<R: Threads + Wait + Clock + Sync>(
    rt: &R,
    alloc: Global,
    options: &ServeOptions,
    telling: Telling,
    world: &mut SceneWorld,
    answer: &mut CaseAnswer,
) {
    run_once(rt, alloc, options, telling.is_brief, world, answer);
    if telling.is_replayed {
        replay_again(alloc, &options.bases, &world.world, answer);
    }
}

/// Runs in a world, and tells what everybody was handed.
fn run_once<R: Threads + Wait + Clock + Sync>(
    rt: &R,
    alloc: Global,
    options: &ServeOptions,
    is_brief: bool,
    world: &mut SceneWorld,
    answer: &mut CaseAnswer,
) {
    match core_between(alloc, &options.bases) {
        Ok(core) => serve_with(rt, alloc, core, options, is_brief, world, answer),
        Err(Memory) => answer.fail(CaseFault::Memory),
    }
}

/// Runs with a multiplexer to which nothing has happened, and tells what everybody was handed.
fn serve_with<R: Threads + Wait + Clock + Sync>(
    rt: &R,
    alloc: Global,
    core: Mux,
    options: &ServeOptions,
    is_brief: bool,
    world: &mut SceneWorld,
    answer: &mut CaseAnswer,
)
    requires stands { Stands core [] }
    requires bases { AreSameAddresses (bases_of core) options.now.bases }
{
    let mut report = MemorySink::new(alloc, calm(alloc));
    let status = serve(rt, alloc, core, options, world, &mut report);
    tell_end(alloc, status, world.was_in_vain(), answer);
    if !is_brief {
        tell_run(alloc, report.as_bytes(), &world.world, answer);
    }
}

/// Replays what was recorded through a new multiplexer, and tells what comes.
fn replay_again(alloc: Global, bases: &Bases, world: &MemoryWorld, answer: &mut CaseAnswer) {
    match core_between(alloc, bases) {
        Ok(core) => tell_replay(alloc, core, world, answer),
        Err(Memory) => answer.fail(CaseFault::Memory),
    }
}

/// The options of a run with so many stations.
fn options(alloc: Global, stations: u8) -> Result<ServeOptions, Memory>
    requires { (0 < stations) × (stations ≤ MOST_STATIONS) }
{
    Ok(ServeOptions {
        bases: bases(alloc)?,
        listen: Text::copy(alloc, b"127.0.0.1:554")?,
        stations,
        recorder: Text::copy(alloc, b"recording")?,
    })
}

/// The two addresses of all scenes.
fn bases(alloc: Global) -> Result<Bases, Memory> {
    Ok(Bases {
        front: base(alloc, "rtsp://gate.example")?,
        up: base(alloc, "rtsp://media.example")?,
    })
}

/// The base that a word names.
fn base(alloc: Global, word: &str) -> Result<Base, Memory> {
    read_base(alloc, word).map_err(|_| Memory)
}

/// A multiplexer between these bases, to which nothing has happened.
fn core_between(alloc: Global, bases: &Bases) -> Result<Mux, Memory>
    ensures stands { IfOk result (λ mux. Stands mux []) }
    ensures bases { IfOk result (λ mux. AreSameAddresses (bases_of mux) bases.now) }
{
    Mux::new(alloc, bases.try_clone(alloc)?)
}
