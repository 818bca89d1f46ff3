//! How a connection is retired.
ghost use Rattle.std.specs.Prelude.{◌≡◌, ◌≤◌, length};
ghost use Rattle.std.specs.Option.{option_or, option_map};
ghost use Rattle.hub_queues.specs.Places.{line_at};
ghost use Rattle.client_ports.specs.Ends.{put_of, taken_of};
ghost use Rattle.hub_queues.specs.Closes.{fall_close};
ghost use Rattle.gateway_hub.specs.Endings.{ShowsFault};
ghost use Rattle.gateway_hub.specs.Ends.{KeepsEnds, KeepsOtherEnds};
ghost use Rattle.gateway_hub.specs.Keeps.{Keeps, StandsIdle, close_why, by_upstream_of};
ghost use Rattle.gateway_hub.specs.Retire.{EndsFirst, RetiresPlace, RetiresSo, receipt_for, stranger_receipt};

use crate::desk::fall_heard;
use crate::state::{HubState, stop_of};
use crate::{Close, Ending, Receipt, Recorder};
use client_ports::{Putter, Taker};
use gateway_claim::{CloseWhy, Core, Event};
use hub_queues::{HubConnection, Place};
use std::alloc::Global;
use std::sync::Wait;

/// How a connection was closed, by its own close and by how the connection to the server ended.
fn close_of(close: Option<Close>, fall: Option<bool>) -> Option<Close>
    ensures { result ≡ option_or close (fall_close fall) }
{
    match (close, fall) {
        (Some(close), _) => Some(close),
        (None, Some(by_upstream)) => Some(Close {
            why: CloseWhy::Upstream,
            by_upstream,
        }),
        (None, None) => None,
    }
}

/// Why a connection was closed; `Ended` where it was not.
fn why_of(close: Option<Close>) -> CloseWhy
    ensures { result ≡ close_why close }
{
    match close {
        Some(close) => close.why,
        None => CloseWhy::Ended,
    }
}

/// Whether an item of the server closed a connection.
fn by_upstream_of(close: Option<Close>) -> bool
    ensures { result ≡ by_upstream_of close }
{
    match close {
        Some(close) => close.by_upstream,
        None => false,
    }
}

/// What the ends of a connection came back with, and how the hub stands then.
#[derive(Clone, Copy)]
pub struct Back {
    /// The connection's number.
    pub conn: u32,
    /// How many parcels its reader put.
    pub pushed: u64,
    /// How many parcels its writer took.
    pub taken: u64,
    /// Whether an item of the server ended its connection, where that ended.
    pub fall: Option<bool>,
    /// Why the hub takes no more events.
    pub ending: Option<Ending>,
}

/// The receipt of a connection that has this line.
pub fn receipt_for(line: &HubConnection, back: Back) -> Receipt
    ensures { result ≡ receipt_for back.conn line.now back.pushed back.taken back.fall back.ending }
{
    let close = close_of(line.close, back.fall);
    Receipt {
        conn: back.conn,
        pushed: back.pushed,
        arrived: line.arrived,
        handed: line.outward.count(),
        taken: back.taken,
        why: why_of(close),
        by_upstream: by_upstream_of(close),
        ending: back.ending,
    }
}

/// The receipt of a connection that the hub does not know, or has retired.
fn stranger_receipt(back: Back) -> Receipt
    ensures { result ≡ stranger_receipt back.conn back.pushed back.taken back.ending }
{
    Receipt {
        conn: back.conn,
        pushed: back.pushed,
        arrived: 0,
        handed: 0,
        taken: back.taken,
        why: CloseWhy::Ended,
        by_upstream: false,
        ending: back.ending,
    }
}

/// The receipt of a connection, by its place.
fn receipt_in(places: &[Place], back: Back) -> Option<Receipt>
    ensures { result
        ≡ option_map (λ line. receipt_for back.conn line back.pushed back.taken back.fall back.ending)
        (line_at places.now back.conn) }
{
    match places.get(back.conn as usize) {
        Some(Place::Seated(line)) => Some(receipt_for(line, back)),
        Some(Place::Retired(_)) => None,
        None => None,
    }
}

/// Drops the line of a connection that has one, and keeps its receipt.
fn retire_of(places: &mut Vec<Place>, back: Back) -> Receipt
    ensures { RetiresPlace back.conn back.pushed back.taken back.fall back.ending result places.old.items
        places.new.items }
{
    let Some(receipt) = receipt_in(places, back) else {
        return stranger_receipt(back);
    };
    match places.get_mut(back.conn as usize) {
        Some(place) => {
            *place = Place::Retired(receipt);
            receipt
        }
        None => receipt,
    }
}

impl<M: Core, R: Recorder> HubState<M, R> {
    /// Ends a connection that is alive, unless an ending was kept. Where that can't be noted, the hub is stopped.
    fn end_first<W: Wait>(&mut self, alloc: Global, rt: &W, conn: u32)
        ensures ends { EndsFirst conn
            (Keeps (StandsIdle M.stands M.waits M.bases self.old.core) (R.entries self.old.recorder)
            (R.faults self.old.recorder) self.old.desk)
            (Keeps (StandsIdle M.stands M.waits M.bases self.new.core) (R.entries self.new.recorder)
            (R.faults self.new.recorder) self.new.desk)
            self.old.desk self.new.desk }
        ensures in_place { KeepsEnds self.old.desk self.new.desk }
        ensures last { self.new.last ≡ self.old.last }
        ensures bases { M.bases self.new.core ≡ M.bases self.old.core }
        ensures later { R.faults self.old.recorder ≤ R.faults self.new.recorder }
        ensures shown { ShowsFault self.old.desk.ending self.new.desk.ending (R.faults self.old.recorder)
            (R.faults self.new.recorder) }
    {
        if self.desk.ending.is_some() {
            return;
        }
        if !self.core.alive(conn) {
            return;
        }
        match self.take_event(alloc, rt, Event::End(conn), None) {
            Ok(_) => {}
            Err(refused) => self.desk.stop(stop_of(refused.fault)),
        }
    }

    /// Retires a connection: it is ended first where it is alive, then its line is dropped and its receipt kept.
    pub fn retire<W: Wait>(
        &mut self,
        alloc: Global,
        rt: &W,
        conn: u32,
        inward: Putter,
        outward: Taker,
    ) -> Receipt
        ensures retires { RetiresSo conn (length (put_of inward)) (length (taken_of outward)) result
            (Keeps (StandsIdle M.stands M.waits M.bases self.old.core) (R.entries self.old.recorder)
            (R.faults self.old.recorder) self.old.desk)
            (Keeps (StandsIdle M.stands M.waits M.bases self.new.core) (R.entries self.new.recorder)
            (R.faults self.new.recorder) self.new.desk)
            self.old.desk self.new.desk }
        ensures ends { KeepsOtherEnds conn self.old.desk self.new.desk }
        ensures last { self.new.last ≡ self.old.last }
        ensures bases { M.bases self.new.core ≡ M.bases self.old.core }
        ensures later { R.faults self.old.recorder ≤ R.faults self.new.recorder }
        ensures shown { ShowsFault self.old.desk.ending self.new.desk.ending (R.faults self.old.recorder)
            (R.faults self.new.recorder) }
    {
        self.end_first(alloc, rt, conn);
        let pushed = inward.count();
        let taken = outward.count();
        let back = Back {
            conn,
            pushed,
            taken,
            fall: fall_heard(self.desk.fall),
            ending: self.desk.ending,
        };
        retire_of(&mut self.desk.places, back)
    }
}
