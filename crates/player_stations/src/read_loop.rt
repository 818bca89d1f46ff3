//! The loop that reads a player's link.
ghost use Rattle.std.specs.Prelude.{◌≡◌, ℕ, ◌<◌, ◌≤◌, List, Option, Some, None, length};
ghost use Rattle.gate_outside.specs.Causes.{Rose};
ghost use Rattle.gateway_links.specs.ReadItems.{ReadsItems, PutAll};
ghost use Rattle.gateway_links.specs.declared.link_read.ReadEnd.TheVariants as ends;
ghost use Rattle.gateway_links.specs.declared.put.Put.TheVariants as puts;
ghost use Rattle.player_stations.specs.declared.read_loop.ReaderStep.TheVariants as steps;

use gate_outside::{Inlet, Outlet};
use gateway_claim::Core;
use gateway_hub::{Hub, HubFault, Recorder, Seat, StopWhy, Taken};
use gateway_links::{Put, ReadEnd, Reader, WriterDesk, put_some, read_once};
use hub_workers::Common;
use std::sync::Wait;
use std::time::{Clock, Duration};
use worker_signals::Stopwatch;

/// How many items are taken under one lock, and how many of a player are put before that.
const ITEMS_AT_ONCE: u32 = 16;

/// How long a player may say nothing after it connected, in milliseconds.
const SILENT_MILLIS: u64 = 30_000;

/// How long a reader whose connection is busy pauses at most, and how often it looks whether its player is still there, in
/// milliseconds.
const BUSY_MILLIS: u64 = 250;

/// How long the reply to a player that has ended what it sends is waited for, in milliseconds.
const REPLY_MILLIS: u64 = 10_000;

/// How long a reader pauses whose next item is a frame, while many parcels wait for the server, in milliseconds.
const CROWDED_MILLIS: u64 = 1;

/// What came of taking what was in line.
#[derive(Clone, Copy, PartialEq, Eq)]
enum LineLeft {
    /// An item was taken, and more may be in line.
    More,
    /// Nothing is left in line.
    Empty,
    /// A request is open, and what is behind it waits.
    Busy,
    /// The connection is over.
    Over,
    /// Memory was wanting.
    Memory,
}

/// Since when a player is waited for.
#[derive(Clone, Copy)]
struct PlayerWatch {
    /// Since it connected, while no whole item came.
    silent: Option<Stopwatch>,
    /// Since its reader looked last whether it is still there, while its connection was busy.
    looked: Stopwatch,
}

impl PlayerWatch {
    /// Of a player that has just connected.
    fn new<W: Clock>(rt: &W) -> PlayerWatch {
        let started = Stopwatch::start(rt);
        PlayerWatch {
            silent: Some(started),
            looked: started,
        }
    }

    /// Whether its player has said nothing for too long.
    fn is_silent_too_long<W: Clock>(&self, rt: &W) -> bool {
        match self.silent {
            Some(connected) => connected.has_passed(rt, SILENT_MILLIS),
            None => false,
        }
    }
}

/// Reads what a player sends, and has it taken, until the link ends or the connection is over.
pub fn read_on<I: Inlet + Drop, O: Outlet + Drop, M: Core, R: Recorder, W: Wait + Clock>(
    common: &Common<'_, M, R, W>,
    desk: &WriterDesk<O>,
    seat: &Seat,
    reader: &mut Reader<I>,
    buffer: &mut [u8],
) -> ReadEnd
    requires { 0 < length buffer.old }
    ensures faults { I.faults reader.old.inlet ≤ I.faults reader.new.inlet }
    ensures ends { I.ends reader.old.inlet ≤ I.ends reader.new.inlet }
    ensures end { result ≡ ends.Ended → Rose (I.ends reader.old.inlet) (I.ends reader.new.inlet) }
    ensures all { result ≡ ends.Ended
        → (first : Option (List ℕ))
        → ReadsItems I.rest first reader.old
        → PutAll I.rest first reader.new }
    ensures failed { result ≡ ends.Failed → Rose (I.faults reader.old.inlet) (I.faults reader.new.inlet) }
{
    let mut watch = PlayerWatch::new(common.rt);
    for _ in common.rt.forever() {
        if let Some(end) = read_turn(common, desk, seat, reader, buffer, &mut watch) {
            return finish(common, desk, seat, end);
        }
    }
    unreachable!()
}

/// Puts some of what came and has some taken, and reads once more or pauses where that is next. None where the link is to be
/// read on.
fn read_turn<I: Inlet + Drop, O: Outlet + Drop, M: Core, R: Recorder, W: Wait + Clock>(
    common: &Common<'_, M, R, W>,
    desk: &WriterDesk<O>,
    seat: &Seat,
    reader: &mut Reader<I>,
    buffer: &mut [u8],
    watch: &mut PlayerWatch,
) -> Option<ReadEnd>
    requires { 0 < length buffer.old }
    ensures faults { I.faults reader.old.inlet ≤ I.faults reader.new.inlet }
    ensures ends { I.ends reader.old.inlet ≤ I.ends reader.new.inlet }
    ensures on { result ≡ None
        → (first : Option (List ℕ))
        → ReadsItems I.rest first reader.old
        → ReadsItems I.rest first reader.new }
    ensures end { result ≡ Some ends.Ended → Rose (I.ends reader.old.inlet) (I.ends reader.new.inlet) }
    ensures all { result ≡ Some ends.Ended
        → (first : Option (List ℕ))
        → ReadsItems I.rest first reader.old
        → PutAll I.rest first reader.new }
    ensures failed { result ≡ Some ends.Failed
        → Rose (I.faults reader.old.inlet) (I.faults reader.new.inlet) }
{
    let bell = common.signals.of(Some(seat.number()));
    let seen = bell.rings();
    let put = put_some(
        common.rt,
        reader,
        ITEMS_AT_ONCE,
        common.signals.flow.is_crowded(),
    );
    let line = take_some(common, seat);
    match step_of(common, watch, line, put) {
        ReaderStep::Go => None,
        ReaderStep::Read => read_more(common, desk, reader, buffer, watch),
        ReaderStep::Pause(_) if desk.is_back(common.rt) => Some(ReadEnd::Over),
        ReaderStep::Pause(millis) => {
            bell.pause_within(common.rt, seen, Duration::from_millis(millis));
            None
        }
        ReaderStep::Over => Some(ReadEnd::Over),
        ReaderStep::Memory => Some(ReadEnd::Memory),
    }
}

/// What a reader does next.
#[derive(Clone, Copy)]
enum ReaderStep {
    /// It puts and takes more.
    Go,
    /// It reads, since all that came was put.
    Read,
    /// It pauses for so many milliseconds at most.
    Pause(u64),
    /// The connection is over.
    Over,
    /// Memory was wanting.
    Memory,
}

/// What a reader does next, by what came of putting and of taking. While its connection is busy it reads now and then, where
/// all was put: so it learns that its player has left.
fn step_of<M: Core, R: Recorder, W: Wait + Clock>(
    common: &Common<'_, M, R, W>,
    watch: &mut PlayerWatch,
    line: LineLeft,
    put: Put,
) -> ReaderStep
    ensures { result ≡ steps.Read → put ≡ puts.All }
{
    if line == LineLeft::More || line == LineLeft::Busy {
        watch.silent = None;
    }
    match (line, put) {
        (LineLeft::Over, _) => ReaderStep::Over,
        (LineLeft::Memory, _) => ReaderStep::Memory,
        (LineLeft::More, _) => ReaderStep::Go,
        (LineLeft::Empty, Put::More) => ReaderStep::Go,
        (LineLeft::Empty, Put::All) => ReaderStep::Read,
        (LineLeft::Empty, Put::Held) => ReaderStep::Pause(CROWDED_MILLIS),
        (LineLeft::Busy, Put::All) if watch.looked.has_passed(common.rt, BUSY_MILLIS) => {
            watch.looked = Stopwatch::start(common.rt);
            ReaderStep::Read
        }
        (LineLeft::Busy, _) => ReaderStep::Pause(BUSY_MILLIS),
    }
}

/// Before a link that told its end is given up, waits for the reply where a request is open, and has what is in line taken.
fn finish<O: Outlet + Drop, M: Core, R: Recorder, W: Wait + Clock>(
    common: &Common<'_, M, R, W>,
    desk: &WriterDesk<O>,
    seat: &Seat,
    end: ReadEnd,
) -> ReadEnd
    ensures { result ≡ end }
{
    if end == ReadEnd::Ended {
        wait_for_reply(common, desk, seat);
    }
    end
}

/// Has what is in line taken, and waits for the reply that this takes, but not for ever.
fn wait_for_reply<O: Outlet + Drop, M: Core, R: Recorder, W: Wait + Clock>(
    common: &Common<'_, M, R, W>,
    desk: &WriterDesk<O>,
    seat: &Seat,
) {
    let bell = common.signals.of(Some(seat.number()));
    let waiting = Stopwatch::start(common.rt);
    for _ in common.rt.forever() {
        let seen = bell.rings();
        match take_some(common, seat) {
            LineLeft::More => {}
            LineLeft::Busy if desk.is_back(common.rt) => return,
            LineLeft::Busy if waiting.has_passed(common.rt, REPLY_MILLIS) => return,
            LineLeft::Busy => bell.pause_within(
                common.rt,
                seen,
                Duration::from_millis(BUSY_MILLIS),
            ),
            LineLeft::Empty | LineLeft::Over | LineLeft::Memory => return,
        }
    }
}

/// Has what is in line taken, under one lock, and wakes whoever may wait for what came of it. Where the last item was
/// taken the answer is [`LineLeft::More`] too, so that the caller knows that the player said something.
fn take_some<M: Core, R: Recorder, W: Wait>(common: &Common<'_, M, R, W>, seat: &Seat) -> LineLeft {
    let mut hub = common.hub.lock(common.rt);
    let first = take_one(common, &mut hub, seat);
    let mut line = first;
    for _ in 1..ITEMS_AT_ONCE {
        if line != LineLeft::More {
            break;
        }
        line = take_one(common, &mut hub, seat);
    }
    common.signals.flow.tell_asked(hub.asked());
    drop(hub);
    if line == LineLeft::Over {
        common.tell_over();
    } else if first == LineLeft::More {
        common.signals.of(Some(seat.number())).ring();
        common.signals.of(None).ring();
    }
    if first == LineLeft::More && line == LineLeft::Empty {
        return LineLeft::More;
    }
    line
}

/// Has the first item in line taken.
fn take_one<M: Core, R: Recorder, W: Wait>(
    common: &Common<'_, M, R, W>,
    hub: &mut Hub<M, R>,
    seat: &Seat,
) -> LineLeft {
    match hub.take(common.alloc, common.rt, seat) {
        Ok(Taken::Done) => LineLeft::More,
        Ok(Taken::Empty) => LineLeft::Empty,
        Ok(Taken::Busy) => LineLeft::Busy,
        Ok(Taken::Closed) => LineLeft::Over,
        Err(HubFault::Memory) => {
            hub.stop(StopWhy::Memory);
            LineLeft::Memory
        }
        Err(HubFault::Ended(_) | HubFault::Stopped(_) | HubFault::RecordFault) => LineLeft::Over,
    }
}

/// Reads once more, where nothing that came is left. One whose player has said nothing for too long is shut before, and so it
/// tells its end. None where the link is to be read on.
fn read_more<I: Inlet + Drop, O: Outlet + Drop, M: Core, R: Recorder, W: Wait + Clock>(
    common: &Common<'_, M, R, W>,
    desk: &WriterDesk<O>,
    reader: &mut Reader<I>,
    buffer: &mut [u8],
    watch: &PlayerWatch,
) -> Option<ReadEnd>
    requires { 0 < length buffer.old }
    ensures faults { I.faults reader.old.inlet ≤ I.faults reader.new.inlet }
    ensures ends { I.ends reader.old.inlet ≤ I.ends reader.new.inlet }
    ensures on { result ≡ None
        → (first : Option (List ℕ))
        → ReadsItems I.rest first reader.old
        → ReadsItems I.rest first reader.new }
    ensures end { result ≡ Some ends.Ended → Rose (I.ends reader.old.inlet) (I.ends reader.new.inlet) }
    ensures all { result ≡ Some ends.Ended
        → (first : Option (List ℕ))
        → PutAll I.rest first reader.old
        → PutAll I.rest first reader.new }
    ensures failed { result ≡ Some ends.Failed
        → Rose (I.faults reader.old.inlet) (I.faults reader.new.inlet) }
{
    if watch.is_silent_too_long(common.rt) {
        reader.shut();
    }
    read_once(common.rt, common.alloc, desk, reader, buffer)
}
