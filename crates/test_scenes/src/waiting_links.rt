//! Links that wait for what is due, as real ones do.
ghost use Rattle.std.specs.Prelude.{◌≡◌, ◌<◌, ◌≤◌, None, length, IfOk};
ghost use Rattle.gate_outside.specs.Causes.{HasCause};
ghost use Rattle.gate_outside.specs.Links.{FitsIn};

use gate_bytes::Memory;
use gate_outside::{Failed, Got, Inlet, MemoryInlet, MemoryOutlet, Outlet, Sink};
use std::alloc::Global;
use std::sync::Arc;
use std::sync::atomic::{AtomicBool, AtomicU64, Ordering};
use std::thread;
use std::time::Duration;

/// How long a pause is of who waits, in microseconds.
const PAUSE_MICROS: u64 = 100;

/// How many pauses a half of a link may take before it is let go: some four seconds of a machine at rest, many times as long as
/// a scene takes, and less than one that goes on only since somebody looks again after a while. On a busy machine each pause
/// takes longer, as all else does.
const MOST_PAUSES: u64 = 25_000;

/// How a link behaves, beside its scripts.
#[derive(Clone, Copy)]
pub struct Manner {
    /// Whether a read waits for what is due, and until the link is shut. Else it tells that it has nothing for now.
    pub waits: bool,
    /// So many bytes the server has to have been handed before the outlet takes any. Its first offer tells that it takes none for
    /// now, and the next one waits.
    pub stuck: u64,
}

/// What the links of a scene share.
#[derive(Drop)]
pub struct SceneWatch {
    /// How many bytes the server was handed.
    asked: AtomicU64,
    /// Whether somebody waited in vain.
    in_vain: AtomicBool,
}

impl SceneWatch {
    /// Nobody was handed anything, or has waited.
    pub fn new() -> SceneWatch {
        SceneWatch {
            asked: AtomicU64::new(0),
            in_vain: AtomicBool::new(false),
        }
    }

    /// Whether somebody waited in vain.
    pub fn was_in_vain(&self) -> bool {
        self.in_vain.load(Ordering::SeqCst)
    }

    /// Has one pause that took so many pauses before. False where it has waited in vain.
    fn pause(&self, host: &HostRuntime, pauses: u64) -> bool {
        if pauses >= MOST_PAUSES {
            self.in_vain.store(true, Ordering::SeqCst);
            return false;
        }
        thread::sleep(host, Duration::from_micros(PAUSE_MICROS));
        true
    }
}

/// What comes in by a link.
#[derive(Drop)]
pub struct WaitingInlet {
    host: HostRuntime,
    /// The inlet in memory.
    pub inlet: MemoryInlet,
    waits: bool,
    shut: Arc<AtomicBool>,
    watch: Arc<SceneWatch>,
    pauses: u64,
    faults: u64,
    nothings: u64,
    ends: u64,
}

impl WaitingInlet {
    /// How often it has failed.
    pub fn faults(&self) -> u64
        ensures { result ≡ self.now.faults }
    {
        self.faults
    }

    /// How often it has told its end.
    pub fn ends(&self) -> u64
        ensures { result ≡ self.now.ends }
    {
        self.ends
    }

    /// Pauses once, and tells whether it is to wait on.
    fn pause(&mut self) -> bool
        ensures faults { self.new.faults ≡ self.old.faults }
        ensures nothings { self.new.nothings ≡ self.old.nothings }
        ensures ends { self.new.ends ≡ self.old.ends }
    {
        let paused = self.watch.pause(&self.host, self.pauses);
        self.pauses = self.pauses.saturating_add(1);
        paused && !(self.waits && self.shut.load(Ordering::SeqCst))
    }

    /// Reads, and waits until something is due, where it is to wait. Once the link is shut, or it has waited in vain, it tells
    /// the end.
    fn await_due(&mut self, into: &mut [u8]) -> Result<Got, Failed>
        requires { 0 < length into.old }
        ensures bound { IfOk result (λ got. FitsIn got (length into.new)) }
        ensures faults { self.new.faults ≡ self.old.faults }
        ensures nothings { self.new.nothings ≡ self.old.nothings }
        ensures ends { self.new.ends ≡ self.old.ends }
    {
        for _ in 0..=MOST_PAUSES {
            let got = self.inlet.read(into);
            if !matches!(got, Ok(Got::NotYet)) {
                return got;
            }
            if !self.pause() {
                break;
            }
            if !self.waits {
                return got;
            }
        }
        Ok(Got::End)
    }
}

impl Inlet for WaitingInlet {
    ghost rest = { λ s. None };

    ghost faults = { λ s. s.faults };

    ghost waits = { λ s. s.nothings };

    ghost ends = { λ s. s.ends };

    fn read(&mut self, into: &mut [u8]) -> Result<Got, Failed> {
        let got = self.await_due(into);
        match got {
            Ok(Got::Bytes(_)) => {}
            Ok(Got::NotYet) => self.nothings = self.nothings.saturating_add(1),
            Ok(Got::End) => self.ends = self.ends.saturating_add(1),
            Err(Failed) => self.faults = self.faults.saturating_add(1),
        }
        got
    }

    fn shut(&mut self) {
        self.shut.store(true, Ordering::SeqCst);
    }
}

/// What goes out by a link. It fails once the link is shut.
#[derive(Drop)]
pub struct WaitingOutlet {
    host: HostRuntime,
    /// The outlet in memory.
    pub outlet: MemoryOutlet,
    is_server: bool,
    stuck: u64,
    shut: Arc<AtomicBool>,
    watch: Arc<SceneWatch>,
    pauses: u64,
    faults: u64,
}

impl WaitingOutlet {
    /// How often it has failed.
    pub fn faults(&self) -> u64
        ensures { result ≡ self.now.faults }
    {
        self.faults
    }

    /// Whether it takes nothing for now.
    fn is_stuck(&self) -> bool {
        self.watch.asked.load(Ordering::SeqCst) < self.stuck
    }

    /// Offers bytes to the outlet in memory.
    fn hand(&mut self, piece: &[u8]) -> Result<usize, Failed>
        requires { 0 < length piece.now }
        ensures bound { IfOk result (λ count. count ≤ length piece.now) }
        ensures faults { self.new.faults ≡ self.old.faults }
    {
        // Whoever offers first may be another than its writer, who is to see too that nothing is taken.
        if self.is_stuck() && self.pauses < 2 {
            self.pauses += 1;
            return Ok(0);
        }
        if !self.await_room() {
            return Err(Failed);
        }
        let count = self.outlet.offer(piece)?;
        if self.is_server {
            self.watch.asked.fetch_add(count as u64, Ordering::SeqCst);
        }
        Ok(count)
    }

    /// Waits until it takes something. False where it is shut, or has waited in vain.
    fn await_room(&mut self) -> bool
        ensures faults { self.new.faults ≡ self.old.faults }
    {
        for _ in 0..=MOST_PAUSES {
            if self.shut.load(Ordering::SeqCst) {
                return false;
            }
            if !self.is_stuck() {
                return true;
            }
            if !self.watch.pause(&self.host, self.pauses) {
                return false;
            }
            self.pauses = self.pauses.saturating_add(1);
        }
        false
    }
}

impl Sink for WaitingOutlet {
    ghost written = { λ s. None };

    ghost faults = { λ s. s.faults };

    fn write(&mut self, piece: &[u8]) -> Result<usize, Failed> {
        for _ in 0..=MOST_PAUSES {
            let count = self.offer(piece)?;
            if count > 0 {
                return Ok(count);
            }
        }
        self.faults = self.faults.saturating_add(1);
        Err(Failed)
    }
}

impl Outlet for WaitingOutlet {
    fn offer(&mut self, piece: &[u8]) -> Result<usize, Failed>
        requires { 0 < length piece.now }
        ensures within { IfOk result (λ count. count ≤ length piece.now) }
        ensures cause { HasCause self.old.faults self.new.faults result }
    {
        let handed = self.hand(piece);
        if handed.is_err() {
            self.faults = self.faults.saturating_add(1);
        }
        handed
    }

    /// Lets the link's inlet go too.
    fn shut(&mut self) {
        self.outlet.shut();
        self.shut.store(true, Ordering::SeqCst);
    }
}

/// The two halves of a link that behaves so, over those in memory, which were not used.
pub fn waiting_link(
    host: HostRuntime,
    alloc: Global,
    watch: &Arc<SceneWatch>,
    manner: Manner,
    is_server: bool,
    halves: (MemoryInlet, MemoryOutlet),
) -> Result<(WaitingInlet, WaitingOutlet), Memory>
    ensures faults { IfOk result (λ link. link.0.faults ≡ 0) }
    ensures ends { IfOk result (λ link. link.0.ends ≡ 0) }
    ensures refusals { IfOk result (λ link. link.1.faults ≡ 0) }
{
    let shut = Arc::new(alloc, AtomicBool::new(false))?;
    let (inlet, outlet) = halves;
    let reading = WaitingInlet {
        host,
        inlet,
        waits: manner.waits,
        shut: Arc::try_clone(&shut)?,
        watch: Arc::try_clone(watch)?,
        pauses: 0,
        faults: 0,
        nothings: 0,
        ends: 0,
    };
    let writing = WaitingOutlet {
        host,
        outlet,
        is_server,
        stuck: manner.stuck,
        shut,
        watch: Arc::try_clone(watch)?,
        pauses: 0,
        faults: 0,
    };
    Ok((reading, writing))
}
