//! A hub over a multiplexer and a recorder in memory, and who speaks to it.
ghost use Rattle.std.specs.Prelude.{[], IfOk};
ghost use Rattle.gateway_mux.specs.Stands.{Stands};

use crate::over::Over;
use client_ports::{Putter, Taker};
use gate_outside::{Numbers, Script};
use gate_transcript::MemoryRecorder;
use gateway_hub::{Entered, Hub};
use gateway_mux::Mux;
use rtsp_uri::{Base, Bases, read_base};
use std::alloc::Global;
use test_text::CaseFault;

/// The hub of all scenes.
pub type SceneHub = Hub<Mux, MemoryRecorder>;

/// A hub, and who speaks to it.
#[derive(Drop)]
pub struct HubStage {
    /// The hub.
    pub hub: SceneHub,
    /// The end that puts what the server says.
    pub says: Putter,
    /// The end that takes what the server is handed.
    pub hears: Taker,
    /// Those who entered, by their numbers, until they are retired.
    pub players: Vec<Option<Entered>>,
}

impl HubStage {
    /// A hub to which nothing happened, whose recorder fails as this script says.
    pub fn new(alloc: Global, script: Script) -> Result<Box<HubStage>, CaseFault> {
        let mux = new_mux(alloc)?;
        match Hub::new(alloc, mux, MemoryRecorder::new(alloc, script)) {
            Ok((hub, says, hears)) => {
                let players = Vec::new(alloc);
                Ok(Box::new(
                    alloc,
                    HubStage {
                        hub,
                        says,
                        hears,
                        players,
                    },
                )?)
            }
            Err(_) => Err(CaseFault::Memory),
        }
    }

    /// Closes the hub.
    pub fn close(self, alloc: Global) -> Result<Box<Over>, CaseFault> {
        let (recorder, receipts) = self.hub.close();
        Ok(Box::new(alloc, Over { recorder, receipts })?)
    }
}

/// A script by which no call fails, and a call moves 100 bytes at most.
pub fn calm(alloc: Global) -> Script {
    Script {
        fails: Numbers::new(alloc),
        waits: Numbers::new(alloc),
        idle: None,
        piece: 100,
    }
}

/// A multiplexer to which nothing happened, between the two addresses of all scenes.
pub fn new_mux(alloc: Global) -> Result<Mux, CaseFault>
    ensures { IfOk result (λ mux. Stands mux []) }
{
    let front = base(alloc, "rtsp://gate.example")?;
    let up = base(alloc, "rtsp://media.example")?;
    match Mux::new(alloc, Bases { front, up }) {
        Ok(mux) => Ok(mux),
        Err(_) => Err(CaseFault::Memory),
    }
}

/// The base that a word names.
fn base(alloc: Global, word: &str) -> Result<Base, CaseFault> {
    read_base(alloc, word).map_err(|_| CaseFault::Memory)
}
