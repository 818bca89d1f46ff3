//! The threads that write: each serves one link after another, as a desk hands them over.

use crate::common::Common;
use crate::life::Life;
use crate::lull::Lull;
use gate_outside::Outlet;
use gateway_claim::{Core, UpWhy};
use gateway_hub::Recorder;
use gateway_links::{Writer, WriterDesk, WriterTurn};
use std::sync::Wait;
use std::time::Clock;
use text_pool::TextPool;
use worker_signals::rest_for_ever;

/// Writes for one link after another, as the desk hands them over, until the desk is closed.
pub fn write_from<O: Outlet + Drop, M: Core, R: Recorder, W: Wait + Clock>(
    common: &Common<'_, M, R, W>,
    desk: &WriterDesk<O>,
) {
    let mut spent = TextPool::new(common.alloc);
    for _ in common.rt.forever() {
        let Some(writer) = desk.take(common.rt) else {
            return;
        };
        let bell = common.signals.of(writer.conn());
        let writer = write_out(common, desk, writer, &mut spent);
        desk.give_back(common.rt, writer);
        bell.ring();
    }
}

/// Writes what one link is handed, until the outlet fails, or the link is over and nothing is left to be written. Whoever
/// reads from the same link is let go then.
fn write_out<O: Outlet + Drop, M: Core, R: Recorder, W: Wait + Clock>(
    common: &Common<'_, M, R, W>,
    desk: &WriterDesk<O>,
    writer: Writer<O>,
    spent: &mut TextPool,
) -> Writer<O> {
    let mut writer = writer;
    let mut life = Life::new();
    let mut lull = Lull::new(common.signals.of(writer.conn()));
    for _ in common.rt.forever() {
        lull.look();
        let turn = writer.turn(common.rt, spent);
        tell_turn(common, &writer, turn);
        match turn {
            WriterTurn::Wrote => {
                desk.tell_move();
                common.spent.lock(common.rt).keep_all(spent);
            }
            WriterTurn::Stuck => {}
            WriterTurn::Failed => {
                tell_failure(common, writer.conn());
                break;
            }
            WriterTurn::Idle if life.over => break,
            WriterTurn::Idle => {
                // Where the link is over, the port is looked at once more: what was put before that is written.
                if !life.is_over(common, writer.conn()) {
                    writer = wait_apart(common, desk, writer, &mut lull);
                }
            }
        }
    }
    writer.shut();
    writer
}

/// Leaves the writer at its desk, where others may serve it, until there is more to write, and takes it again.
fn wait_apart<O: Outlet + Drop, M: Core, R: Recorder, W: Wait + Clock>(
    common: &Common<'_, M, R, W>,
    desk: &WriterDesk<O>,
    writer: Writer<O>,
    lull: &mut Lull<'_>,
) -> Writer<O> {
    let taken = writer.taken();
    desk.rest(common.rt, writer);
    lull.wait(common.rt, taken);
    match desk.take(common.rt) {
        Some(writer) => {
            lull.go_on(writer.taken());
            writer
        }
        // Nobody else takes it.
        None => rest_for_ever(common.rt),
    }
}

/// Tells what a turn shows of how a writer gets on: for the server how many parcels were taken, for a player whether its outlet
/// takes nothing for now.
fn tell_turn<O: Outlet + Drop, M: Core, R: Recorder, W: Wait>(
    common: &Common<'_, M, R, W>,
    writer: &Writer<O>,
    turn: WriterTurn,
) {
    match writer.conn() {
        Some(conn) => common
            .signals
            .flow
            .tell_stuck(conn, turn == WriterTurn::Stuck),
        None => common.signals.flow.tell_sent(writer.taken()),
    }
}

/// Tells the hub that what is written to the server fails, before its link is shut: its reader would tell the end of it.
fn tell_failure<M: Core, R: Recorder, W: Wait>(common: &Common<'_, M, R, W>, conn: Option<u32>) {
    if conn.is_none() {
        common.end_server(UpWhy::WriteFault);
    }
}
