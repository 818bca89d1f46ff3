//! A gateway that two connections have entered.
ghost use Rattle.std.specs.Prelude.{[], ◌∷◌, IfOk};
ghost use Rattle.gateway_claim.specs.Happenings.{entering};
ghost use Rattle.gateway_mux.specs.Stands.{Stands};

use gate_bytes::Memory;
use gateway_mux::Mux;
use rtsp_uri::{Base, Bases, read_base};
use std::alloc::Global;

/// The two addresses of all cases.
pub fn bases(alloc: Global) -> Result<Bases, Memory> {
    Ok(Bases {
        front: base(alloc, "rtsp://gate.example")?,
        up: base(alloc, "rtsp://media.example")?,
    })
}

/// The base that a word names.
fn base(alloc: Global, word: &str) -> Result<Base, Memory> {
    match read_base(alloc, word) {
        Ok(base) => Ok(base),
        Err(_fault) => Err(Memory),
    }
}

/// A gateway to which nothing has happened.
pub fn gateway(alloc: Global) -> Result<Mux, Memory>
    ensures { IfOk result (λ mux. Stands mux []) }
{
    Mux::new(alloc, bases(alloc)?)
}

/// One that a connection entered.
fn entered(alloc: Global, conn: u32) -> Result<Mux, Memory>
    ensures { IfOk result (λ mux. Stands mux (entering conn ∷ [])) }
{
    let mut mux = gateway(alloc)?;
    mux.enter(alloc, conn)?;
    Ok(mux)
}

/// One that the connections 7 and 4 entered, in this order.
pub fn with_two_players(alloc: Global) -> Result<Box<Mux>, Memory> {
    let mut mux = entered(alloc, 7)?;
    match enter_fourth(alloc, &mut mux) {
        Ok(()) => Ok(Box::new(alloc, mux)?),
        Err(memory) => Err(memory),
    }
}

/// The connection 4 enters, behind 7.
fn enter_fourth(alloc: Global, mux: &mut Mux) -> Result<(), Memory>
    requires { Stands mux.old (entering 7 ∷ []) }
{
    mux.prepare(alloc)?;
    mux.enter(alloc, 4)
}
