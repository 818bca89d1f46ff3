//! The threads of the stations, which are all made before the first player comes.
ghost use Rattle.std.specs.Prelude.{◌<◌, length};
ghost use denote.Param.Send.{IsSend, IsSync};

use crate::gate::Gate;
use crate::stations::station;
use gate_outside::Door;
use gateway_claim::Core;
use gateway_hub::{Recorder, StopWhy};
use gateway_links::{ReadBuffer, WriterDesk};
use hub_workers::{Common, write_from};
use serve_world::{ThreadRefusal, start};
use std::sync::{Mutex, Wait};
use std::thread;
use std::thread::Threads;
use std::time::Clock;

/// What the threads of the stations work on: the gate, a desk for each of them, and their buffers.
#[derive(Drop)]
pub struct StationPost<'a, D: Door + Drop> {
    /// The door under its lock.
    pub gate: &'a Mutex<Gate<D>>,
    /// A desk for each station.
    pub desks: &'a [WriterDesk<D::Outward>],
    /// The buffer of each station.
    pub buffers: Vec<ReadBuffer>,
}

/// Starts two threads for each station, and waits until all have ended. Where one was refused no more are started, the hub is
/// stopped, and that is told.
pub fn work_stations<D: Door + Drop, M: Core, R: Recorder, W: Threads + Wait + Clock + Sync>(
    common: &Common<'_, M, R, W>,
    post: StationPost<'_, D>,
) -> Option<ThreadRefusal>
where
    M::Plan: Send,
{
    thread::scope(
        thread::scope_env(),
        common.rt,
        move |scope| -> Option<ThreadRefusal>
            requires { IsSync W.row
                × IsSend D.row
                × IsSend D.Inward.row
                × IsSend D.Outward.row
                × IsSend M.row
                × IsSend M.Plan.row
                × IsSend R.row }
        {
            let StationPost {
                gate,
                desks,
                mut buffers,
            } = post;
            let mut refused = None;
            for desk in desks {
                let Some(ReadBuffer { mut bytes }) = buffers.pop() else {
                    break;
                };
                if let Err(refusal) = start(scope, move || write_from(common, desk)) {
                    refused = Some(refusal);
                    break;
                }
                let at_station = move ||
                    requires { 0 < length bytes.items }
                {
                    common.signals.meeting.wait(common.rt);
                    station(common, gate, desk, bytes.as_mut_slice())
                };
                if let Err(refusal) = start(scope, at_station) {
                    refused = Some(refusal);
                    desk.close(common.rt);
                    break;
                }
            }
            if refused.is_some() {
                common.stop(StopWhy::Crew);
            }
            common.signals.meeting.arrive(common.rt);
            refused
        },
    )
}
