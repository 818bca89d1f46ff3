//! The threads of the server's link.
ghost use Rattle.std.specs.Prelude.{◌<◌, length};
ghost use denote.Param.Send.{IsSend, IsSync};

use crate::player_desks::serve_at;
use crate::upstream::{UpBack, Upstream, run_upstream};
use gate_outside::{Inlet, Outlet};
use gateway_claim::Core;
use gateway_hub::{Recorder, StopWhy};
use gateway_links::{Gather, ReadBuffer, WriterDesk};
use hub_workers::{Common, write_from};
use serve_world::{ThreadRefusal, start};
use std::sync::Wait;
use std::thread;
use std::thread::Threads;
use std::time::Clock;
use text_pool::TextPool;

/// What the threads of the server's link work on: their desk, those of the players, their buffer, and the link.
#[derive(Drop)]
pub struct ServerPost<'a, I: Inlet + Drop, P: Outlet + Drop, Q: Outlet + Drop> {
    /// The desk.
    pub desk: &'a WriterDesk<P>,
    /// The desks of the players.
    pub players: &'a [WriterDesk<Q>],
    /// The buffer.
    pub buffer: ReadBuffer,
    /// The link.
    pub upstream: Upstream<I, P>,
}

/// Starts the writer of the server's link, and serves the server's connection in this thread until it is over. Where the thread
/// was refused the hub is stopped, and that is told.
pub fn work_server<
    I: Inlet + Drop,
    P: Outlet + Drop,
    Q: Outlet + Drop,
    M: Core,
    R: Recorder,
    W: Threads + Wait + Clock + Sync,
>(
    common: &Common<'_, M, R, W>,
    post: ServerPost<'_, I, P, Q>,
) -> (UpBack<I, P>, Option<ThreadRefusal>)
where
    M::Plan: Send,
{
    thread::scope(
        thread::scope_env(),
        common.rt,
        move |scope| -> (UpBack<I, P>, Option<ThreadRefusal>)
            requires { IsSync W.row
                × IsSend I.row
                × IsSend P.row
                × IsSend Q.row
                × IsSend M.row
                × IsSend M.Plan.row
                × IsSend R.row }
        {
            let ServerPost {
                desk,
                players,
                buffer,
                upstream,
            } = post;
            let ReadBuffer { mut bytes } = buffer;
            let mut refused = None;
            if let Err(refusal) = start(scope, move || write_from(common, desk)) {
                refused = Some(refusal);
                desk.close(common.rt);
                common.stop(StopWhy::Crew);
            }
            common.signals.meeting.arrive(common.rt);
            let back = hear_server(common, desk, players, upstream, bytes.as_mut_slice());
            desk.close(common.rt);
            (back, refused)
        },
    )
}

/// Serves the server's connection, and players at these desks.
fn hear_server<
    I: Inlet + Drop,
    P: Outlet + Drop,
    Q: Outlet + Drop,
    M: Core,
    R: Recorder,
    W: Wait + Clock,
>(
    common: &Common<'_, M, R, W>,
    desk: &WriterDesk<P>,
    players: &[WriterDesk<Q>],
    upstream: Upstream<I, P>,
    buffer: &mut [u8],
) -> UpBack<I, P>
    requires { 0 < length buffer.old }
{
    let rt = common.rt;
    let serve = |conn: u32, spent: &mut TextPool, buffer: &mut Gather| -> bool {
        serve_at(rt, players, conn, spent, buffer)
    };
    run_upstream(common, desk, &serve, upstream, buffer)
}
