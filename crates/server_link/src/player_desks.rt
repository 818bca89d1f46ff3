//! How what was put for a player is written without its writer's thread.

use gate_outside::Outlet;
use gateway_links::{Gather, WriterDesk};
use std::sync::Wait;
use text_pool::TextPool;

/// Has the writer of this connection, where it rests at one of these desks, write all that is there, by way of this buffer. Where
/// not all was written, its thread is to be woken. Texts that are done with go to the pool.
pub fn serve_at<Q: Outlet + Drop, W: Wait>(
    rt: &W,
    players: &[WriterDesk<Q>],
    conn: u32,
    spent: &mut TextPool,
    buffer: &mut Gather,
) -> bool {
    match players.iter().find(|desk| desk.is_for(conn)) {
        Some(desk) => desk.serve(rt, conn, spent, buffer),
        None => false,
    }
}
