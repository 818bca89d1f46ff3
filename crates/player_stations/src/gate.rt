//! The door under its lock, with the number of stations that have not ended.
ghost use Rattle.std.specs.Prelude.{◌≡◌, ◌<◌, ◌-◌, ◌==◌, ◌&&◌, true, false};
ghost use Rattle.player_stations.specs.Gates.{GivesNew, NoneLeft};

use crate::next::Next;
use gate_outside::{Arrived, Door, Failed};
use gateway_claim::Core;
use gateway_hub::Recorder;
use hub_workers::Common;
use std::sync::{Mutex, Wait};
use std::time::Clock;

/// The door, and how many stations have not ended. It keeps that the door has failed where that is told, and that it has told
/// its end, with no link left, where that is told.
#[derive(Drop)]
pub struct Gate<D: Door + Drop> {
    /// The door.
    pub door: D,
    /// How many stations have not ended.
    pub stations: u8,
    /// Whether accepting a link has failed.
    pub failed: bool,
    /// Whether no link comes any more.
    pub ended: bool,
    ghost fault: { failed ≡ true → 0 < D.faults door },
    ghost end: { ended ≡ true → 0 < D.ends door },
    ghost none_left: { ended ≡ true → NoneLeft (D.links door) },
}

impl<D: Door + Drop> Gate<D> {
    /// A door that has not failed or ended, and so many stations.
    pub fn new(door: D, stations: u8) -> Gate<D>
        ensures door { result.door ≡ door }
        ensures stations { result.stations ≡ stations }
        ensures failed { result.failed ≡ false }
        ensures ended { result.ended ≡ false }
    {
        Gate {
            door,
            stations,
            failed: false,
            ended: false,
        }
    }

    /// Waits for the next link.
    fn accept(&mut self) -> Next<D::Inward, D::Outward>
        ensures { GivesNew D.Inward.faults D.Inward.ends D.Outward.faults D.Outward.written result }
    {
        match self.door.accept() {
            Ok(Arrived::Link(inlet, outlet)) => Next::Link(inlet, outlet),
            Ok(Arrived::NotYet) => Next::NotYet,
            Ok(Arrived::End) => {
                self.ended = true;
                Next::Over
            }
            Err(Failed) => {
                self.failed = true;
                Next::Failed
            }
        }
    }

    /// A station ends. True where it was the last one, and no link comes any more.
    pub fn leave(&mut self) -> bool
        ensures last { result ≡ (self.new.stations == 0 && self.old.ended) }
        ensures stations { self.new.stations ≡ self.old.stations - 1 }
        ensures door { self.new.door ≡ self.old.door }
        ensures failed { self.new.failed ≡ self.old.failed }
        ensures ended { self.new.ended ≡ self.old.ended }
    {
        self.stations = self.stations.saturating_sub(1);
        self.stations == 0 && self.ended
    }
}

/// Waits for the next link, unless an ending was kept.
pub fn next_link<D: Door + Drop, M: Core, R: Recorder, W: Wait + Clock>(
    common: &Common<'_, M, R, W>,
    gate: &Mutex<Gate<D>>,
) -> Next<D::Inward, D::Outward>
    ensures { GivesNew D.Inward.faults D.Inward.ends D.Outward.faults D.Outward.written result }
{
    let _turn = common.signals.turnstile.enter(common.rt);
    let mut gate = gate.lock(common.rt);
    // Asked once it is its turn, so that stations that wait for theirs end one after another at once.
    if common.ending().is_some() {
        return Next::Over;
    }
    gate.accept()
}
