//! The server's connection, from its first byte to its end.
ghost use Rattle.std.specs.Prelude.{◌≡◌, ℕ, ◌<◌, ◌≤◌, [], List, Option, Some, None, true, length};
ghost use Rattle.gate_outside.specs.Causes.{Rose};
ghost use Rattle.client_ports.specs.Ends.{put_of, taken_of};
ghost use Rattle.gateway_links.specs.ReadItems.{ReadsItems, ReadsFront, PutAll, PutAllSo};
ghost use Rattle.gateway_links.specs.WrittenParcels.{HasWritten};
ghost use Rattle.gateway_links.specs.declared.link_read.ReadEnd.TheVariants as ends;
ghost use Rattle.server_link.specs.declared.take.TakingEnd.TheVariants as heard;
ghost use Rattle.gateway_links.specs.Promise.{BeginsGiven};
ghost use Rattle.std.specs.Option.{option_map};

use crate::pace::Pace;
use crate::take::{ITEMS_A_ROUND, TakingEnd, take_all};
use client_ports::{Putter, Taker};
use gate_outside::{Inlet, Outlet};
use gateway_claim::{Core, UpWhy};
use gateway_hub::{Recorder, StopWhy};
use gateway_links::{
    Gather, Put, ReadEnd, Reader, Writer, WriterDesk, collect, put_some, read_once,
};
use hub_workers::Common;
use run_report::UpRun;
use std::sync::Wait;
use std::time::Clock;
use text_pool::TextPool;

/// The server's link, and its ends of the hub's ports. It keeps that nothing was put, taken or written.
#[derive(Drop)]
pub struct Upstream<I: Inlet, O: Outlet> {
    /// What comes in by it.
    pub inlet: I,
    /// What goes out by it.
    pub outlet: O,
    /// The end that puts what comes.
    pub inward: Putter,
    /// The end that takes what goes out.
    pub outward: Taker,
    ghost none_put: { length (put_of inward) ≡ 0 },
    ghost none_taken: { length (taken_of outward) ≡ 0 },
    ghost none_written: { O.written outlet ≡ option_map (λ _. []) (O.written outlet) },
}

/// What is left of the server's connection: the two halves of its link, its ends of the hub's ports, and what was met. It
/// keeps that what was met shows in the counts of the two halves.
#[derive(Drop)]
pub struct UpBack<I: Inlet, O: Outlet> {
    /// What came in by it.
    pub inlet: I,
    /// What went out by it.
    pub outlet: O,
    /// The end that put what came.
    pub inward: Putter,
    /// The end that took what went out.
    pub outward: Taker,
    /// What its reader and its writer met.
    pub run: UpRun,
    ghost read: { run.read_failed ≡ true → 0 < I.faults inlet },
    ghost write: { run.write_failed ≡ true → 0 < O.faults outlet },
    ghost end: { run.ended ≡ true → 0 < I.ends inlet },
}

/// Serves the server's connection until an ending is kept: reads what it says and has it taken, while the writer of this desk
/// writes what it is handed. What was put for players is written at their desks, where their writers rest. Nothing was read
/// from the inlet or written to the outlet before.
pub fn run_upstream<
    I: Inlet + Drop,
    O: Outlet + Drop,
    F: Fn(u32, &mut TextPool, &mut Gather) -> bool,
    M: Core,
    R: Recorder,
    W: Wait + Clock,
>(
    common: &Common<'_, M, R, W>,
    desk: &WriterDesk<O>,
    serve: &F,
    upstream: Upstream<I, O>,
    buffer: &mut [u8],
) -> UpBack<I, O>
    requires callable { F.IsAlwaysCallable serve.now }
    requires room { 0 < length buffer.old }
    ensures put { BeginsGiven (I.rest upstream.inlet) (I.rest result.inlet) (put_of result.inward) }
    ensures read { result.run.read_failed ≡ true → Rose (I.faults upstream.inlet) (I.faults result.inlet) }
    ensures end { result.run.ended ≡ true → Rose (I.ends upstream.inlet) (I.ends result.inlet) }
    ensures all { result.run.ended ≡ true
        → PutAllSo (I.rest upstream.inlet) (I.rest result.inlet) (put_of result.inward) }
    ensures wrote { HasWritten (O.written result.outlet) (taken_of result.outward) result.run.write_failed }
    ensures write { result.run.write_failed ≡ true → 0 < O.faults result.outlet }
{
    let Upstream {
        inlet,
        outlet,
        inward,
        outward,
    } = upstream;
    let mut reader = Reader::new(common.alloc, inlet, inward);
    let writer = Writer::new(common.alloc, None, outlet, outward);
    let (end, writer) = hear_link(common, desk, serve, &mut reader, writer, buffer);
    let (inlet, inward) = reader.into_ends();
    let (outlet, outward, failed) = writer.into_ends();
    let run = run_of(end, failed);
    UpBack {
        inlet,
        outlet,
        inward,
        outward,
        run,
    }
}

/// What was met, by how reading ended and whether writing has failed.
fn run_of(end: ReadEnd, write_failed: bool) -> UpRun
    ensures read { result.read_failed ≡ true → end ≡ ends.Failed }
    ensures end { result.ended ≡ true → end ≡ ends.Ended }
    ensures write { result.write_failed ≡ write_failed }
{
    UpRun {
        read_failed: matches!(end, ReadEnd::Failed),
        write_failed,
        ended: matches!(end, ReadEnd::Ended),
    }
}

/// Hands the writer to its thread, reads the server's link to its end, and waits until the writer comes back.
fn hear_link<
    I: Inlet + Drop,
    O: Outlet + Drop,
    F: Fn(u32, &mut TextPool, &mut Gather) -> bool,
    M: Core,
    R: Recorder,
    W: Wait + Clock,
>(
    common: &Common<'_, M, R, W>,
    desk: &WriterDesk<O>,
    serve: &F,
    reader: &mut Reader<I>,
    writer: Writer<O>,
    buffer: &mut [u8],
) -> (ReadEnd, Writer<O>)
    requires callable { F.IsAlwaysCallable serve.now }
    requires room { 0 < length buffer.old }
    ensures front { (first : Option (List ℕ)) → ReadsFront I.rest first reader.old
        → ReadsFront I.rest first reader.new }
    ensures end { result.0 ≡ ends.Ended → Rose (I.ends reader.old.inlet) (I.ends reader.new.inlet) }
    ensures all { result.0 ≡ ends.Ended
        → (first : Option (List ℕ))
        → ReadsItems I.rest first reader.old
        → PutAll I.rest first reader.new }
    ensures failed { result.0 ≡ ends.Failed → Rose (I.faults reader.old.inlet) (I.faults reader.new.inlet) }
{
    match desk.hand(common.rt, writer) {
        Ok(()) => {}
        // Nobody writes.
        Err(writer) => return (ReadEnd::Over, writer),
    }
    let end = hear_on(common, desk, serve, reader, buffer);
    tell_end(common, end);
    (end, collect(common.rt, desk, reader))
}

/// Tells the hub why the server's link is read no more, and wakes all workers.
fn tell_end<M: Core, R: Recorder, W: Wait>(common: &Common<'_, M, R, W>, end: ReadEnd) {
    match end {
        ReadEnd::Ended => common.end_server(UpWhy::Ended),
        ReadEnd::Failed => common.end_server(UpWhy::ReadFault),
        ReadEnd::Over => common.tell_over(),
        ReadEnd::Memory => common.stop(StopWhy::Memory),
    }
}

/// Reads what the server says, with texts that are done with to hold it, and has it taken, until its link ends or an ending is
/// kept.
fn hear_on<
    I: Inlet + Drop,
    O: Outlet + Drop,
    F: Fn(u32, &mut TextPool, &mut Gather) -> bool,
    M: Core,
    R: Recorder,
    W: Wait + Clock,
>(
    common: &Common<'_, M, R, W>,
    desk: &WriterDesk<O>,
    serve: &F,
    reader: &mut Reader<I>,
    buffer: &mut [u8],
) -> ReadEnd
    requires callable { F.IsAlwaysCallable serve.now }
    requires room { 0 < length buffer.old }
    ensures faults { I.faults reader.old.inlet ≤ I.faults reader.new.inlet }
    ensures ends { I.ends reader.old.inlet ≤ I.ends reader.new.inlet }
    ensures front { (first : Option (List ℕ)) → ReadsFront I.rest first reader.old
        → ReadsFront I.rest first reader.new }
    ensures end { result ≡ ends.Ended → Rose (I.ends reader.old.inlet) (I.ends reader.new.inlet) }
    ensures all { result ≡ ends.Ended
        → (first : Option (List ℕ))
        → ReadsItems I.rest first reader.old
        → PutAll I.rest first reader.new }
    ensures failed { result ≡ ends.Failed → Rose (I.faults reader.old.inlet) (I.faults reader.new.inlet) }
{
    let mut pace = Pace::new(common.alloc);
    for _ in common.rt.forever() {
        match put_all(common, serve, &mut pace, reader) {
            TakingEnd::Empty => {}
            TakingEnd::Kept => return ReadEnd::Over,
            TakingEnd::Memory => return ReadEnd::Memory,
        }
        if !reader.has_more() {
            pace.hand_all(common, serve);
        }
        common.spent.lock(common.rt).keep_all(pace.texts());
        reader.refill(&mut common.spent.lock(common.rt));
        if let Some(end) = read_once(common.rt, common.alloc, desk, reader, buffer) {
            return end_after_rest(common, serve, &mut pace, end);
        }
    }
    unreachable!()
}

/// Puts all that came of the server, and takes it.
fn put_all<
    I: Inlet + Drop,
    F: Fn(u32, &mut TextPool, &mut Gather) -> bool,
    M: Core,
    R: Recorder,
    W: Wait + Clock,
>(common: &Common<'_, M, R, W>, serve: &F, pace: &mut Pace, reader: &mut Reader<I>) -> TakingEnd
    requires callable { F.IsAlwaysCallable serve.now }
    ensures inlet { reader.new.inlet ≡ reader.old.inlet }
    ensures reads { (first : Option (List ℕ)) → ReadsItems I.rest first reader.old
        → ReadsItems I.rest first reader.new }
    ensures front { (first : Option (List ℕ)) → ReadsFront I.rest first reader.old
        → ReadsFront I.rest first reader.new }
    ensures all { result ≡ heard.Empty
        → (first : Option (List ℕ))
        → ReadsItems I.rest first reader.old
        → PutAll I.rest first reader.new }
{
    for _ in common.rt.forever() {
        let put = put_some(common.rt, reader, ITEMS_A_ROUND, false);
        pace.tell_said(reader.has_said());
        let heard = take_all(common, serve, pace);
        if put == Put::All || !matches!(heard, TakingEnd::Empty) {
            return heard;
        }
    }
    unreachable!()
}

/// Has all taken that was put, before it is told why the link is read no more.
fn end_after_rest<
    F: Fn(u32, &mut TextPool, &mut Gather) -> bool,
    M: Core,
    R: Recorder,
    W: Wait + Clock,
>(common: &Common<'_, M, R, W>, serve: &F, pace: &mut Pace, end: ReadEnd) -> ReadEnd
    requires callable { F.IsAlwaysCallable serve.now }
    ensures end { result ≡ ends.Ended → end ≡ ends.Ended }
    ensures failed { result ≡ ends.Failed → end ≡ ends.Failed }
{
    match take_all(common, serve, pace) {
        TakingEnd::Memory => ReadEnd::Memory,
        TakingEnd::Empty | TakingEnd::Kept => end,
    }
}
