//! A player's connection, from its entering to its receipt.
ghost use Rattle.std.specs.Prelude.{◌≡◌, ℕ, ◌<◌, List, [], Option, true, length, IfSome};
ghost use Rattle.gateway_links.specs.ReadItems.{ReadsItems, PutAll};
ghost use Rattle.gate_outside.specs.Causes.{Rose};
ghost use Rattle.client_ports.specs.Ends.{put_of, taken_of};
ghost use Rattle.client_ports.specs.PortTakes.{taken_in};
ghost use Rattle.player_stations.specs.declared.client.ClientWhy.TheVariants as whys;
ghost use Rattle.gateway_links.specs.declared.link_read.ReadEnd.TheVariants as ends;
ghost use Rattle.player_stations.specs.Clients.{GoesWithReceipt, IfGoesWithReceipt, CountsAll, WroteTaken};

use crate::read_loop::read_on;
use client_machine::CloseWhy;
use client_ports::{Putter, TakenParcels, Taker};
use gate_outside::{Inlet, Outlet};
use gateway_claim::{Core, UpCause};
use gateway_hub::{Ending, Entered, HubFault, Receipt, Recorder, Seat, StopWhy};
use gateway_links::{ReadEnd, Reader, Writer, WriterDesk, collect};
use hub_workers::Common;
use std::sync::Wait;
use std::time::Clock;

/// Why a player's connection ended.
#[derive(Clone, Copy)]
pub enum ClientWhy {
    /// The player ended it.
    ClientEnd,
    /// Reading from the player failed.
    ReadFault,
    /// Writing to the player failed.
    WriteFault,
    /// The player took its bytes too slowly.
    Slow,
    /// An item of the player can't be taken.
    Refused,
    /// An item of the server closed it.
    Closed,
    /// The connection to the server ended.
    Ended(UpCause),
    /// The hub was stopped.
    Stopped(StopWhy),
    /// No thread writes to it.
    CrewRefused,
    /// Memory was wanting.
    Memory,
}

/// What is left of a player's connection: the two halves of its link, what its writer had taken, its receipt, and why it ended.
#[derive(Drop)]
pub struct Retired<I, O> {
    /// What came in by it.
    pub inlet: I,
    /// What went out by it.
    pub outlet: O,
    /// What its writer had taken of its port.
    pub taken: TakenParcels,
    /// The receipt that the hub gave.
    pub receipt: Receipt,
    /// Why it ended.
    pub why: ClientWhy,
}

/// Serves a player whose connection has entered, until it is over: reads what it sends and has it taken, while the writer of
/// this desk writes what it is handed. Nothing was read from the inlet or written to the outlet before.
pub fn run_client<I: Inlet + Drop, O: Outlet + Drop, M: Core, R: Recorder, W: Wait + Clock>(
    common: &Common<'_, M, R, W>,
    desk: &WriterDesk<O>,
    entered: Entered,
    inlet: I,
    outlet: O,
    buffer: &mut [u8],
) -> Retired<I, O>
    requires none_put { put_of entered.inward ≡ [] }
    requires none_taken { taken_of entered.outward ≡ [] }
    requires none_written { IfSome (O.written outlet) (λ written. written ≡ []) }
    requires room { 0 < length buffer.old }
    ensures told { GoesWithReceipt result.why result.receipt }
    ensures end { result.why ≡ whys.ClientEnd → Rose (I.ends inlet) (I.ends result.inlet) }
    ensures all { result.why ≡ whys.ClientEnd
        → CountsAll (I.rest inlet) (I.rest result.inlet) result.receipt.pushed }
    ensures read { result.why ≡ whys.ReadFault → Rose (I.faults inlet) (I.faults result.inlet) }
    ensures write { result.why ≡ whys.WriteFault → 0 < O.faults result.outlet }
    ensures wrote { WroteTaken (O.written result.outlet) (O.faults result.outlet) (taken_in result.taken) }
    ensures taken { result.receipt.taken ≡ length (taken_in result.taken) }
{
    let Entered {
        seat,
        inward,
        outward,
    } = entered;
    let mut reader = Reader::new(common.alloc, inlet, inward);
    let writer = Writer::new(common.alloc, Some(seat.number()), outlet, outward);
    let (end, writer) = read_link(common, desk, &seat, &mut reader, writer, buffer);
    let (inlet, inward) = reader.into_ends();
    let (outlet, mut outward, failed) = writer.into_ends();
    let taken = outward.taken();
    let receipt = retire(common, seat, inward, outward);
    let why = why_of(end, failed, &receipt);
    Retired {
        inlet,
        outlet,
        taken,
        receipt,
        why,
    }
}

/// Hands the writer to its thread, reads the link to its end, and waits until the writer comes back.
fn read_link<I: Inlet + Drop, O: Outlet + Drop, M: Core, R: Recorder, W: Wait + Clock>(
    common: &Common<'_, M, R, W>,
    desk: &WriterDesk<O>,
    seat: &Seat,
    reader: &mut Reader<I>,
    writer: Writer<O>,
    buffer: &mut [u8],
) -> (ReadEnd, Writer<O>)
    requires { 0 < length buffer.old }
    ensures end { result.0 ≡ ends.Ended → Rose (I.ends reader.old.inlet) (I.ends reader.new.inlet) }
    ensures all { result.0 ≡ ends.Ended
        → (first : Option (List ℕ))
        → ReadsItems I.rest first reader.old
        → PutAll I.rest first reader.new }
    ensures failed { result.0 ≡ ends.Failed → Rose (I.faults reader.old.inlet) (I.faults reader.new.inlet) }
{
    match desk.hand(common.rt, writer) {
        Ok(()) => {}
        // Nobody writes any more.
        Err(writer) => return (ReadEnd::Over, writer),
    }
    let end = read_on(common, desk, seat, reader, buffer);
    shut_connection(common, seat, end);
    (end, collect(common.rt, desk, reader))
}

/// Tells the hub that the connection ended, unless it is over, and wakes its writer.
fn shut_connection<M: Core, R: Recorder, W: Wait>(
    common: &Common<'_, M, R, W>,
    seat: &Seat,
    end: ReadEnd,
) {
    let mut hub = common.hub.lock(common.rt);
    if end == ReadEnd::Memory {
        hub.stop(StopWhy::Memory);
    }
    if let Err(HubFault::Memory) = hub.shut(common.alloc, common.rt, seat) {
        hub.stop(StopWhy::Memory);
    }
    drop(hub);
    common.tell_over();
}

/// Retires the connection, and wakes whoever waits for what that changed.
fn retire<M: Core, R: Recorder, W: Wait>(
    common: &Common<'_, M, R, W>,
    seat: Seat,
    inward: Putter,
    outward: Taker,
) -> Receipt
    ensures pushed { result.pushed ≡ length (put_of inward) }
    ensures taken { result.taken ≡ length (taken_of outward) }
{
    let receipt = common
        .hub
        .lock(common.rt)
        .retire(common.alloc, common.rt, seat, inward, outward);
    common.tell_over();
    receipt
}

/// Why the connection ended, as its reading, its writing and its receipt tell.
fn why_of(end: ReadEnd, failed: bool, receipt: &Receipt) -> ClientWhy
    ensures told { GoesWithReceipt result receipt.now }
    ensures end { result ≡ whys.ClientEnd → end ≡ ends.Ended }
    ensures read { result ≡ whys.ReadFault → end ≡ ends.Failed }
    ensures write { result ≡ whys.WriteFault → failed ≡ true }
{
    match end {
        ReadEnd::Memory => ClientWhy::Memory,
        ReadEnd::Failed => ClientWhy::ReadFault,
        ReadEnd::Over if failed => ClientWhy::WriteFault,
        ReadEnd::Ended => ClientWhy::ClientEnd,
        ReadEnd::Over => match told_by(receipt) {
            Some(why) => why,
            None => ClientWhy::CrewRefused,
        },
    }
}

/// Why a connection ended that was not ended by its player, as its receipt tells.
fn told_by(receipt: &Receipt) -> Option<ClientWhy>
    ensures { IfGoesWithReceipt result receipt.now }
{
    match (receipt.ending, receipt.why, receipt.by_upstream) {
        (Some(Ending::Upstream(cause)), _, _) => Some(ClientWhy::Ended(cause)),
        (Some(Ending::Stopped(why)), _, _) => Some(ClientWhy::Stopped(why)),
        (None, CloseWhy::Slow, _) => Some(ClientWhy::Slow),
        (None, CloseWhy::BadItem, _) => Some(ClientWhy::Refused),
        (None, CloseWhy::Ended, true) => Some(ClientWhy::Closed),
        (None, _, _) => None,
    }
}
