//! A whole run over real links.
ghost use Rattle.std.specs.Prelude.{◌≡◌, ◌≤◌, true, [], List, length, is_some, IfSome, OnErr};
ghost use Rattle.std.specs.Option.{ForSome, option_map};
ghost use Rattle.gateway_hub.specs.Close.{TellsOver};
ghost use Rattle.gateway_hub.specs.Keeps.{Keeps, StandsIdle};
ghost use Rattle.gateway_claim.specs.Happenings.{HistoryEntry};
ghost use Rattle.rtsp_uri.specs.Bases.{AreSameAddresses, IsSameAddress};
ghost use Rattle.gateway_run.specs.WholeRun.{RanSo, ServedSo, TakesBack, counted_refusal};
ghost use Rattle.gate_outside.specs.Causes.{Rose};

use crate::crew::work;
use command_line::ServeOptions;
use gate_bytes::Memory;
use gate_outside::{Door, Failed, Inlet, Outlet, Sink};
use gateway_claim::Core;
use gateway_hub::{Hub, Recorder};
use gateway_links::Crew;
use hub_workers::Common;
use player_stations::Gate;
use rtsp_uri::{Base, Bases, DEFAULT_PORT};
use run_report::{RunEnd, after_flush, after_report, write_report};
use run_status::Status;
use serve_world::{ThreadRefusal, World};
use server_link::{UpBack, Upstream};
use std::alloc::Global;
use std::sync::{Mutex, Wait};
use std::thread::Threads;
use std::time::Clock;
use text_pool::TextPool;
use worker_signals::{Signals, rest_for_ever};

/// Serves players at an address, over one connection to the server, until no player comes any more or the connection to the
/// server ends, and writes the report. The core stands for the history in which nothing happened,
/// and has these addresses.
pub fn serve<M: Core, W: World, K: Sink, R: Threads + Wait + Clock + Sync>(
    rt: &R,
    alloc: Global,
    core: M,
    options: &ServeOptions,
    world: &mut W,
    sink: &mut K,
) -> Status
where
    M::Plan: Send,
    requires core { M.stands core [] }
    requires bases { AreSameAddresses (M.bases core) options.now.bases }
    ensures served { ServedSo M.follows options.now.bases result (record {
      recorded = W.recorded world.new;
      left = W.links_left world.new;
      opened = W.tally world.old;
      closed = W.tally world.new;
      before = K.written sink.old;
      now = K.written sink.new;
      faults = K.faults sink.old;
      later = K.faults sink.new;
    }) }
    ensures sink_later { K.faults sink.old ≤ K.faults sink.new }
{
    let Ok(door) = world.listen(options.listen.as_bytes()) else {
        return Status::ListenFault;
    };
    let Ok(recorder) = world.recorder(options.recorder.as_bytes()) else {
        world.close_door(door);
        return Status::RecordFault;
    };
    let up = &options.bases.up;
    let Ok((inlet, outlet)) = world.dial(up.host.as_bytes(), up.port.unwrap_or(DEFAULT_PORT)) else {
        world.close_door(door);
        let _ = world.close_recorder(recorder);
        return Status::DialFault;
    };
    let opened = OpenedRun {
        door,
        inlet,
        outlet,
        recorder,
    };
    serve_opened(rt, alloc, core, options, opened, world, sink)
}

/// What the world opened for a run.
#[derive(Drop)]
struct OpenedRun<D, I, O, R> {
    door: D,
    inlet: I,
    outlet: O,
    recorder: R,
}

/// Gives back to the world what it opened, and the refusal where a thread was refused. What the recorder holds back is written
/// then, which may fail.
fn give_back<W: World>(
    world: &mut W,
    opened: OpenedRun<W::Door, W::UpIn, W::UpOut, W::Rec>,
    refused: Option<ThreadRefusal>,
) -> Result<(), Failed>
    ensures counts { TakesBack (is_some refused) (W.Door.faults opened.door) (W.Door.ends opened.door)
        (W.UpIn.faults opened.inlet) (W.UpOut.faults opened.outlet) (W.UpIn.ends opened.inlet)
        (W.Rec.faults opened.recorder) (W.tally world.old) (W.tally world.new) }
    ensures recorded { W.recorded world.new ≡ W.Rec.entries opened.recorder }
    ensures left { W.links_left world.new ≡ option_map length (W.Door.links opened.door) }
    ensures cause { OnErr result (Rose (W.tally world.old).record_faults (W.tally world.new).record_faults) }
{
    let OpenedRun {
        door,
        inlet,
        outlet,
        recorder,
    } = opened;
    count_refusal(world, refused);
    world.close_door(door);
    world.close_link(inlet, outlet);
    world.close_recorder(recorder)
}

/// Counts that a thread was refused, where one was.
fn count_refusal<W: World>(world: &mut W, refused: Option<ThreadRefusal>)
    ensures counts { W.tally world.new ≡ counted_refusal (is_some refused) (W.tally world.old) }
{
    if let Some(refusal) = refused {
        world.refuse(refusal);
    }
}

/// Serves players over what the world opened, and gives it back at the end.
fn serve_opened<M: Core, W: World, K: Sink, R: Threads + Wait + Clock + Sync>(
    rt: &R,
    alloc: Global,
    core: M,
    options: &ServeOptions,
    opened: OpenedRun<W::Door, W::UpIn, W::UpOut, W::Rec>,
    world: &mut W,
    sink: &mut K,
) -> Status
where
    M::Plan: Send,
    requires core { M.stands core [] }
    requires bases { AreSameAddresses (M.bases core) options.now.bases }
    requires recorder { ForSome (W.Rec.entries opened.recorder) (λ noted. noted ≡ []) }
    requires outlet { ForSome (W.UpOut.written opened.outlet) (λ written. written ≡ []) }
    ensures ran { RanSo M.follows options.now.bases result (record {
      recorded = W.recorded world.new;
      left = W.links_left world.new;
      opened = W.tally world.old;
      closed = W.tally world.new;
      before = K.written sink.old;
      now = K.written sink.new;
      faults = K.faults sink.old;
      later = K.faults sink.new;
    }) }
    ensures sink_later { K.faults sink.old ≤ K.faults sink.new }
{
    let Ok(crew) = Crew::new(alloc, options.stations) else {
        let _ = give_back(world, opened, None);
        return Status::Memory;
    };
    let (hub, gate, upstream) = match ready(alloc, core, opened, options.stations) {
        Ok(made) => made,
        Err(opened) => {
            let _ = give_back(world, opened, None);
            return Status::Memory;
        }
    };
    let ran = run(rt, alloc, hub, gate, crew, upstream);
    match report(&options.bases, ran, world, sink) {
        Some(status) => status,
        None => rest_for_ever(rt),
    }
}

/// The hub, the gate to the door, and the server's link with its ends of the hub's queues. Where memory is wanting, what was
/// opened comes back.
fn ready<M: Core, D: Door + Drop, I: Inlet, O: Outlet, R: Recorder>(
    alloc: Global,
    core: M,
    opened: OpenedRun<D, I, O, R>,
    stations: u8,
) -> Result<(Hub<M, R>, Gate<D>, Upstream<I, O>), OpenedRun<D, I, O, R>>
    requires core { M.stands core [] }
    requires recorder { ForSome (R.entries opened.recorder) (λ noted. noted ≡ []) }
    requires outlet { ForSome (O.written opened.outlet) (λ written. written ≡ []) }
{
    let OpenedRun {
        door,
        inlet,
        outlet,
        recorder,
    } = opened;
    let (hub, inward, outward) = match Hub::new(alloc, core, recorder) {
        Ok(made) => made,
        Err((_, recorder, Memory)) => {
            return Err(OpenedRun {
                door,
                inlet,
                outlet,
                recorder,
            });
        }
    };
    let upstream = Upstream {
        inlet,
        outlet,
        inward,
        outward,
    };
    Ok((hub, Gate::new(door, stations), upstream))
}

/// What is left of a run once all its workers have come back.
#[derive(Drop)]
struct Ran<D: Door + Drop, I: Inlet, O: Outlet, M: Core, R: Recorder> {
    hub: Hub<M, R>,
    gate: Gate<D>,
    back: UpBack<I, O>,
    refused: Option<ThreadRefusal>,
}

impl<D: Door + Drop, I: Inlet, O: Outlet, M: Core, R: Recorder> Ran<D, I, O, M, R> {
    /// What it tells of how the run ended.
    fn told(&self) -> RunEnd
        ensures ending { result.ending ≡ self.now.hub.state.desk.ending }
        ensures over { (T : List HistoryEntry)
            → Keeps (StandsIdle M.stands M.waits M.bases self.now.hub.state.core)
            (R.entries self.now.hub.state.recorder) (R.faults self.now.hub.state.recorder)
            self.now.hub.state.desk T
            → TellsOver result.over self.now.hub.state.desk.places.items T }
        ensures run { result.run ≡ self.now.back.run }
        ensures failed { result.failed ≡ self.now.gate.failed }
        ensures ended { result.ended ≡ self.now.gate.ended }
        ensures refused { result.refused ≡ is_some self.now.refused }
    {
        RunEnd {
            ending: self.hub.ending(),
            over: self.hub.all_closed(),
            run: self.back.run,
            failed: self.gate.failed,
            ended: self.gate.ended,
            refused: self.refused.is_some(),
        }
    }
}

/// Lets all workers work until each has ended.
fn run<
    D: Door + Drop,
    I: Inlet + Drop,
    O: Outlet + Drop,
    M: Core,
    R: Recorder,
    W: Threads + Wait + Clock + Sync,
>(
    rt: &W,
    alloc: Global,
    hub: Hub<M, R>,
    gate: Gate<D>,
    crew: Crew<D::Outward, O>,
    upstream: Upstream<I, O>,
) -> Ran<D, I, O, M, R>
where
    M::Plan: Send,
{
    let hub = Mutex::new(hub);
    let gate = Mutex::new(gate);
    let signals = Signals::new();
    let spent = Mutex::new(TextPool::new(alloc));
    let common = Common {
        rt,
        alloc,
        hub: &hub,
        signals: &signals,
        spent: &spent,
    };
    let (back, refused) = work(&common, &gate, crew, upstream);
    Ran {
        hub: hub.into_inner(),
        gate: gate.into_inner(),
        back,
        refused,
    }
}

/// Writes the report of a run, gives back what the world opened, and tells how the run ended.
fn report<M: Core, W: World, K: Sink>(
    bases: &Bases,
    ran: Ran<W::Door, W::UpIn, W::UpOut, M, W::Rec>,
    world: &mut W,
    sink: &mut K,
) -> Option<Status>
    ensures ran { IfSome result (λ status. RanSo M.follows bases.now status (record {
      recorded = W.recorded world.new;
      left = W.links_left world.new;
      opened = W.tally world.old;
      closed = W.tally world.new;
      before = K.written sink.old;
      now = K.written sink.new;
      faults = K.faults sink.old;
      later = K.faults sink.new;
    })) }
    ensures sink_later { K.faults sink.old ≤ K.faults sink.new }
{
    if !are_same_bases(ran.hub.bases(), bases) {
        return None;
    }
    let told = ran.told();
    let status = told.status()?;
    let Ran {
        hub,
        gate,
        back,
        refused,
    } = ran;
    let (recorder, receipts) = hub.close();
    let opened = OpenedRun {
        door: gate.door,
        inlet: back.inlet,
        outlet: back.outlet,
        recorder,
    };
    let flushed = give_back(world, opened, refused);
    let written = write_report(sink, &receipts);
    Some(after_report(after_flush(status, flushed), written))
}

/// Whether the bases are the same.
fn are_same_bases(one: &Bases, other: &Bases) -> bool
    ensures { result ≡ true → AreSameAddresses one.now other.now }
{
    is_same_base(&one.front, &other.front) && is_same_base(&one.up, &other.up)
}

/// Whether the base is the same.
fn is_same_base(one: &Base, other: &Base) -> bool
    ensures { result ≡ true → IsSameAddress one.now other.now }
{
    one.text.as_bytes() == other.text.as_bytes()
        && one.host.as_bytes() == other.host.as_bytes()
        && one.port == other.port
}
