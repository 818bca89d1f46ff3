//! A station: it serves one player after another.
ghost use Rattle.std.specs.Prelude.{◌≡◌, ◌<◌, [], length, IfSome};
ghost use Rattle.client_ports.specs.Ends.{put_of, taken_of};

use crate::client::{Retired, run_client};
use crate::gate::{Gate, next_link};
use crate::next::Next;
use gate_outside::{Door, Inlet, Outlet};
use gateway_claim::Core;
use gateway_hub::{Entered, HubFault, Recorder, StopWhy};
use gateway_links::WriterDesk;
use hub_workers::Common;
use std::sync::{Mutex, Wait};
use std::thread;
use std::time::Clock;

/// Serves one player after another, until no link comes any more or an ending is kept. At its end its writer's thread ends
/// too, and the last station to end stops the hub, where the door has told its end.
pub fn station<D: Door + Drop, M: Core, R: Recorder, W: Wait + Clock>(
    common: &Common<'_, M, R, W>,
    gate: &Mutex<Gate<D>>,
    desk: &WriterDesk<D::Outward>,
    buffer: &mut [u8],
)
    requires { 0 < length buffer.old }
{
    for _ in common.rt.forever() {
        match next_link(common, gate) {
            Next::Link(inlet, outlet) => serve_link(common, gate, desk, inlet, outlet, buffer),
            Next::NotYet => thread::yield_now(),
            Next::Over => break,
            Next::Failed => {
                common.stop(StopWhy::Accept);
                break;
            }
        }
    }
    desk.close(common.rt);
    if gate.lock(common.rt).leave() {
        common.stop(StopWhy::DoorEnd);
    }
}

/// Serves the player at the other end of a link, and gives both halves of the link back to the door.
fn serve_link<D: Door + Drop, M: Core, R: Recorder, W: Wait + Clock>(
    common: &Common<'_, M, R, W>,
    gate: &Mutex<Gate<D>>,
    desk: &WriterDesk<D::Outward>,
    inlet: D::Inward,
    outlet: D::Outward,
    buffer: &mut [u8],
)
    requires none_written { IfSome (D.Outward.written outlet) (λ written. written ≡ []) }
    requires room { 0 < length buffer.old }
{
    let (inlet, outlet) = match enter(common) {
        Some(entered) => {
            let Retired { inlet, outlet, .. } = run_client(
                common, desk, entered, inlet, outlet, buffer,
            );
            (inlet, outlet)
        }
        None => (inlet, outlet),
    };
    common.signals.turnstile.begin_return();
    gate.lock(common.rt).door.give_back(inlet, outlet);
    common.signals.turnstile.end_return();
}

/// A connection enters. Where it can't, the hub is stopped or was, and all workers are woken.
fn enter<M: Core, R: Recorder, W: Wait>(common: &Common<'_, M, R, W>) -> Option<Entered>
    ensures put { IfSome result (λ entered. put_of entered.inward ≡ []) }
    ensures taken { IfSome result (λ entered. taken_of entered.outward ≡ []) }
{
    let entered = enter_hub(common);
    if entered.is_none() {
        common.tell_over();
    }
    entered
}

/// A connection enters, under the hub's lock. Where it can't, the hub is stopped or was.
fn enter_hub<M: Core, R: Recorder, W: Wait>(common: &Common<'_, M, R, W>) -> Option<Entered>
    ensures put { IfSome result (λ entered. put_of entered.inward ≡ []) }
    ensures taken { IfSome result (λ entered. taken_of entered.outward ≡ []) }
{
    let mut hub = common.hub.lock(common.rt);
    match hub.enter(common.alloc) {
        Ok(entered) => Some(entered),
        Err(HubFault::Memory) => {
            hub.stop(StopWhy::Memory);
            None
        }
        Err(HubFault::Ended(_) | HubFault::Stopped(_) | HubFault::RecordFault) => None,
    }
}
