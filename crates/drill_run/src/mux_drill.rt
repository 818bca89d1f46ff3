//! A drill of the multiplexer.
ghost use Rattle.std.specs.Prelude.{◌≡◌, ◌≤◌, [], IfOk};
ghost use Rattle.gateway_mux.specs.Stands.{Stands, bases_of};
ghost use Rattle.gate_outside.specs.Causes.{Rose};
ghost use Rattle.run_status.specs.declared.status.Status.TheVariants.{SinkFault};
ghost use Rattle.drill_run.specs.Reports.{DrillSays, IsDrilledHistory, drilled_front, drilled_up};

use crate::whole_drill::drill_on;
use gate_bytes::{Memory, Text};
use gate_outside::Sink;
use gateway_mux::Mux;
use rtsp_uri::{Base, Bases};
use run_status::Status;
use std::alloc::Global;

/// What the players call the gateway.
fn front(alloc: Global) -> Result<Base, Memory>
    ensures { IfOk result (λ base. base.text ≡ drilled_front) }
{
    let text = Text::copy(alloc, b"gate.example")?;
    let host = Text::copy(alloc, b"gate.example")?;
    Ok(Base {
        text,
        host,
        port: None,
    })
}

/// What the gateway calls the server.
fn up(alloc: Global) -> Result<Base, Memory>
    ensures { IfOk result (λ base. base.text ≡ drilled_up) }
{
    let text = Text::copy(alloc, b"media.example")?;
    let host = Text::copy(alloc, b"media.example")?;
    Ok(Base {
        text,
        host,
        port: None,
    })
}

/// A multiplexer between these addresses, to which nothing happened.
fn new_mux(alloc: Global) -> Result<Mux, Memory>
    ensures stands { IfOk result (λ mux. Stands mux []) }
    ensures front { IfOk result (λ mux. (bases_of mux).front.text ≡ drilled_front) }
    ensures up { IfOk result (λ mux. (bases_of mux).up.text ≡ drilled_up) }
{
    let bases = Bases {
        front: front(alloc)?,
        up: up(alloc)?,
    };
    Ok(Mux::new(alloc, bases)?)
}

/// Plays a drill with so many players, from this number, between `rtsp://gate.example` and `rtsp://media.example`, and
/// writes eight lines with its counts: of players, of their requests, of replies to them, of frames to them and to the
/// server, of answers to notifies, of requests to the server, of turns, and of all bytes to the server. Where memory runs
/// out nothing was written.
pub fn drill<K: Sink>(alloc: Global, clients: u32, number: u64, sink: &mut K) -> Status
    ensures says { DrillSays IsDrilledHistory clients number result (K.written sink.old)
        (K.written sink.new) }
    ensures rose { result ≡ SinkFault → Rose (K.faults sink.old) (K.faults sink.new) }
    ensures sink_later { K.faults sink.old ≤ K.faults sink.new }
{
    match new_mux(alloc) {
        Ok(mux) => drill_on(alloc, mux, clients, number, sink),
        Err(Memory) => Status::Memory,
    }
}
