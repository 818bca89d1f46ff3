//! The server of a drill.
ghost use Rattle.std.specs.Prelude.{◌≡◌, ◌<◌, ◌≤◌, ◌+◌, ◌++◌, ◌∷◌, ℕ, List, [], length, drop, IfOk, OnOk, OnErr};
ghost use Rattle.std.specs.Option.{option_to_list};
ghost use Rattle.std.specs.VecDeque.{deque_len, deque_capacity};
ghost use Rattle.rtsp_head.specs.Items.{Shape, items_of};
ghost use Rattle.rtsp_head.specs.Shapes.{shape_of, shapes};
ghost use Rattle.rtsp_frame.specs.FramerState.{Framed};
ghost use Rattle.drill_server.specs.ServerSteps.{IsDrained, is_request_kind, requests_among, counted};

use crate::answer::{DrillAnswer, answer_item};
use crate::track::DrillTrack;
use gate_bytes::{Memory, Text};
use rtsp_frame::{Framer, Item, ItemKind};
use std::alloc::Global;
use std::collections::VecDeque;
use std::marker::Model;

/// A plain server of RTSP 2.0. It answers its requests one after another, at each turn the oldest.
///
/// Contracts see what it has; `Serves` says what that is for what came and for the turns so far.
#[derive(Drop)]
pub struct DrillServer {
    framer: Framer,
    waiting: VecDeque<Item>,
    sessions: u32,
    tracks: Vec<DrillTrack>,
    notifies: u32,
}

impl Model for DrillServer {
    ghost use Rattle.rtsp_head.specs.Shapes.{shape_of, shapes};
    ghost use Rattle.drill_server.specs.ServerSteps.{ServerDesk, IsDrained};

    ghost Value = { ServerDesk };

    ghost view = { λ s. record { framer = s.framer; waiting = shapes s.waiting.items; sessions = s.sessions; tracks = s.tracks.items; notifies = s.notifies } };

    ghost invariant = { λ s. ∥ IsDrained s.framer ∥₁ };
}

impl DrillServer {
    ghost use Rattle.drill_server.specs.ServerSteps.{Serving, Serves, idle_server, serving_fed, next_answer, serving_answered};

    /// A server to which nothing came. It takes no memory.
    pub fn new(alloc: Global) -> DrillServer
        ensures { Serves result idle_server }
    {
        DrillServer {
            framer: Framer::new(alloc),
            waiting: VecDeque::new(alloc),
            sessions: 0,
            tracks: Vec::new(alloc),
            notifies: 0,
        }
    }

    /// Takes the next piece of what the gateway sends: the requests in it wait for an answer, and its other items are
    /// passed over. After `Memory` nothing has changed.
    pub fn feed(&mut self, alloc: Global, piece: &[u8]) -> Result<(), Memory>
        ensures ok { OnOk result
            ((serving : Serving) → Serves self.old serving → Serves self.new (serving_fed serving piece.now)) }
        ensures err { OnErr result (self.new ≡ self.old) }
    {
        feed_requests(alloc, &mut self.framer, &mut self.waiting, piece)
    }

    /// How many requests wait for an answer.
    pub fn pending(&self) -> usize
        ensures { result ≡ length self.now.waiting }
    {
        self.waiting.len()
    }

    /// Answers the oldest request. After `Memory` nothing has changed.
    pub fn turn(&mut self, alloc: Global) -> Result<Text, Memory>
        requires { 0 < length self.old.waiting }
        ensures ok { IfOk result (λ text.
            (serving : Serving) → Serves self.old serving → text ≡ (next_answer serving).text) }
        ensures after { OnOk result
            ((serving : Serving) → Serves self.old serving → Serves self.new (serving_answered serving)) }
        ensures err { OnErr result (self.new ≡ self.old) }
    {
        let Some(item) = self.waiting.front() else {
            return Ok(Text::new(alloc));
        };
        let tracks = self.tracks.as_slice();
        let answer = answer_item(alloc, self.sessions, tracks, self.notifies, item)?;
        let DrillAnswer {
            text,
            track,
            session,
            notify,
        } = answer;
        let sessions = counted(session, self.sessions)?;
        let notifies = counted(notify, self.notifies)?;
        push_track(&mut self.tracks, track)?;
        self.sessions = sessions;
        self.notifies = notifies;
        let _answered = self.waiting.pop_front();
        Ok(text)
    }
}

/// A count, with one more where there is one.
fn counted(more: bool, count: u32) -> Result<u32, Memory>
    ensures { IfOk result (λ new. new ≡ counted more count) }
{
    if more {
        count.checked_add(1).ok_or(Memory)
    } else {
        Ok(count)
    }
}

/// Appends a track, where there is one.
fn push_track(tracks: &mut Vec<DrillTrack>, track: Option<DrillTrack>) -> Result<(), Memory>
    ensures ok { OnOk result (tracks.new.items ≡ tracks.old.items ++ option_to_list track) }
    ensures err { OnErr result (tracks.new.items ≡ tracks.old.items) }
{
    match track {
        Some(track) => Ok(tracks.push(track)?),
        None => Ok(()),
    }
}

/// Whether an item is a request.
fn is_request(item: &Item) -> bool
    ensures { result ≡ is_request_kind item.now.kind }
{
    item.kind == ItemKind::Request
}

/// Moves an item behind those that wait, where it is a request.
fn take_request(waiting: &mut VecDeque<Item>, item: Item)
    requires { deque_len waiting.old < deque_capacity waiting.old }
    ensures waits { shapes waiting.new.items
        ≡ shapes waiting.old.items ++ requests_among (shape_of item ∷ []) }
    ensures len { deque_len waiting.new ≤ deque_len waiting.old + 1 }
    ensures capacity { deque_capacity waiting.new ≡ deque_capacity waiting.old }
{
    if is_request(&item) {
        waiting.push_back_reserved(item);
    }
}

/// Moves all requests among the items that the framer can give behind those that wait, which has room for all items.
fn take_requests(framer: &mut Framer, waiting: &mut VecDeque<Item>)
    requires { deque_len waiting.old + length framer.old.waiting ≤ deque_capacity waiting.old }
    ensures { (stream : List ℕ) (given : List Shape) → Framed framer.old stream given
        → Framed framer.new stream (items_of stream)
        × (shapes waiting.new.items
        ≡ shapes waiting.old.items ++ requests_among (drop (length given) (items_of stream))) }
{
    while let Some(item) = framer.next() {
        take_request(waiting, item);
    }
}

/// Feeds a framer that gave all its items, and moves the requests of the piece behind those that wait. The room for them is
/// made before: a piece ends no more items than it has bytes.
fn feed_requests(
    alloc: Global,
    framer: &mut Framer,
    waiting: &mut VecDeque<Item>,
    piece: &[u8],
) -> Result<(), Memory>
    requires { ∥ IsDrained framer.old ∥₁ }
    ensures drained { ∥ IsDrained framer.new ∥₁ }
    ensures ok { OnOk result
        ((stream : List ℕ) (given : List Shape) → Framed framer.old stream given
        → Framed framer.new (stream ++ piece.now) (items_of (stream ++ piece.now))
        × (shapes waiting.new.items
        ≡ shapes waiting.old.items
        ++ requests_among (drop (length given) (items_of (stream ++ piece.now))))) }
    ensures framer { OnErr result (framer.new ≡ framer.old) }
    ensures waiting { OnErr result (waiting.new.items ≡ waiting.old.items) }
{
    waiting.reserve(piece.len())?;
    framer.feed(alloc, piece)?;
    take_requests(framer, waiting);
    Ok(())
}
