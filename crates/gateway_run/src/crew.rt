//! The threads of a run, which are all made before the first player comes.
ghost use denote.Param.Send.{IsSend, IsSync};

use gate_outside::{Door, Inlet, Outlet};
use gateway_claim::Core;
use gateway_hub::{Recorder, StopWhy};
use gateway_links::Crew;
use hub_workers::Common;
use player_stations::{Gate, StationPost, work_stations};
use serve_world::{NotBegun, ThreadRefusal, beside};
use server_link::{ServerPost, UpBack, Upstream, work_server};
use std::sync::{Mutex, Wait};
use std::thread::Threads;
use std::time::Clock;

/// Serves players and the server beside each other until all threads have ended. Nobody is served before all have begun. Where
/// one is refused the hub is stopped; the refusal is told beside what is left of the server's connection.
pub fn work<
    D: Door + Drop,
    I: Inlet + Drop,
    P: Outlet + Drop,
    M: Core,
    R: Recorder,
    W: Threads + Wait + Clock + Sync,
>(
    common: &Common<'_, M, R, W>,
    gate: &Mutex<Gate<D>>,
    crew: Crew<D::Outward, P>,
    upstream: Upstream<I, P>,
) -> (UpBack<I, P>, Option<ThreadRefusal>)
where
    M::Plan: Send,
{
    let Crew {
        desks,
        server_desk,
        buffers,
        server_buffer,
    } = crew;
    let stations = StationPost {
        gate,
        desks: desks.as_slice(),
        buffers,
    };
    let server = ServerPost {
        desk: &server_desk,
        players: desks.as_slice(),
        buffer: server_buffer,
        upstream,
    };
    work_beside(common, stations, server)
}

/// The stations' threads and the server's, beside each other.
fn work_beside<
    D: Door + Drop,
    I: Inlet + Drop,
    P: Outlet + Drop,
    M: Core,
    R: Recorder,
    W: Threads + Wait + Clock + Sync,
>(
    common: &Common<'_, M, R, W>,
    stations: StationPost<'_, D>,
    server: ServerPost<'_, I, P, D::Outward>,
) -> (UpBack<I, P>, Option<ThreadRefusal>)
where
    M::Plan: Send,
{
    let there = move || -> (UpBack<I, P>, Option<ThreadRefusal>)
        requires { IsSync W.row
            × IsSend I.row
            × IsSend P.row
            × IsSend D.Outward.row
            × IsSend M.row
            × IsSend M.Plan.row
            × IsSend R.row }
    { work_server(common, server) };
    let here = move || -> Option<ThreadRefusal>
        requires { IsSync W.row
            × IsSend D.row
            × IsSend D.Inward.row
            × IsSend D.Outward.row
            × IsSend M.row
            × IsSend M.Plan.row
            × IsSend R.row }
    { work_stations(common, stations) };
    match beside(common.rt, there, here) {
        Ok(((back, refused_there), refused_here)) => (back, refused_there.or(refused_here)),
        Err(
            NotBegun {
                refusal,
                there,
                here: _here,
            },
        ) => {
            common.stop(StopWhy::Crew);
            let (back, _also_refused) = there();
            (back, Some(refusal))
        }
    }
}
