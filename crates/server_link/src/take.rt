//! How what the server said is taken: under the hub's lock, some items at a time, and at a pace that leaves the players' writers
//! time.

use crate::pace::Pace;
use gateway_claim::Core;
use gateway_hub::{Hub, HubFault, Recorder, StopWhy};
use gateway_links::Gather;
use hub_workers::Common;
use std::sync::Wait;
use std::time::Clock;
use text_pool::TextPool;

/// How many items are taken under one lock.
const ITEMS_AT_ONCE: u32 = 16;

/// How often items are taken under one lock before something of it is written.
const LOCKS_A_ROUND: u32 = 12;

/// How many items are put before they are taken: as many as a round takes, which the port has room for.
pub const ITEMS_A_ROUND: u32 = LOCKS_A_ROUND * ITEMS_AT_ONCE;

/// What came of taking what the server said.
#[derive(Clone, Copy)]
pub enum TakingEnd {
    /// Nothing is left in line.
    Empty,
    /// An ending was kept.
    Kept,
    /// Memory was wanting.
    Memory,
}

/// Takes all that is in line, and has it written as the pace says, at the desks of the players.
pub fn take_all<
    F: Fn(u32, &mut TextPool, &mut Gather) -> bool,
    M: Core,
    R: Recorder,
    W: Wait + Clock,
>(common: &Common<'_, M, R, W>, serve: &F, pace: &mut Pace) -> TakingEnd
    requires callable { F.IsAlwaysCallable serve.now }
{
    for _ in common.rt.forever() {
        let heard = take_round(common, serve, pace);
        pace.hand_on(common, serve);
        if let Some(heard) = heard {
            return heard;
        }
    }
    unreachable!()
}

/// Takes what is in line, as many items as are taken before something of it is written. None where more may be in line.
fn take_round<
    F: Fn(u32, &mut TextPool, &mut Gather) -> bool,
    M: Core,
    R: Recorder,
    W: Wait + Clock,
>(common: &Common<'_, M, R, W>, serve: &F, pace: &mut Pace) -> Option<TakingEnd>
    requires callable { F.IsAlwaysCallable serve.now }
{
    for _ in 0..LOCKS_A_ROUND {
        let heard = take_some(common, pace);
        pace.tell_over(common);
        if heard.is_some() {
            return heard;
        }
        pace.wait(common, serve);
    }
    None
}

/// Takes what is in line under one lock. None where more may be in line.
fn take_some<M: Core, R: Recorder, W: Wait + Clock>(
    common: &Common<'_, M, R, W>,
    pace: &mut Pace,
) -> Option<TakingEnd> {
    let mut hub = common.hub.lock(common.rt);
    let mut heard = None;
    for _ in 0..ITEMS_AT_ONCE {
        heard = take_one(common, &mut hub);
        if heard.is_some() {
            break;
        }
        pace.note(common, &mut hub);
    }
    pace.look(common, &mut hub);
    pace.look_up(&hub);
    heard
}

/// Takes the first item in line. None where one was taken.
fn take_one<M: Core, R: Recorder, W: Wait>(
    common: &Common<'_, M, R, W>,
    hub: &mut Hub<M, R>,
) -> Option<TakingEnd> {
    match hub.take_up(common.alloc, common.rt) {
        Ok(true) => None,
        Ok(false) => Some(TakingEnd::Empty),
        Err(HubFault::Memory) => {
            hub.stop(StopWhy::Memory);
            Some(TakingEnd::Memory)
        }
        Err(HubFault::Ended(_) | HubFault::Stopped(_) | HubFault::RecordFault) => Some(
            TakingEnd::Kept,
        ),
    }
}
