//! How the server's reader waits for players that are behind.
//!
//! A port holds far less than a server may send at once. So where a port is nearly full, the server's reader
//! waits a little for its writer, before more are taken. Each player may have some pauses; once it had them, nobody waits for
//! it until all that it was handed has been written. So a player that takes nothing delays the others only once, and is then
//! found too slow. One that goes on taking has its pauses back: a burst is no reason to close it. Only time counts in which its
//! socket took nothing: a writer that does not come to write, since the machine is busy, is no fault of its player.
//!
//! What was put for a player is written by the server's reader itself, where the player's writer rests at its desk: so no other
//! thread is woken, and what is written is still in this processor's cache. Frames wait for others behind them as long as more
//! of the server is at hand, but no longer than a millisecond.

use gateway_claim::Core;
use gateway_hub::{Hub, OUTWARD_CAPACITY, Recorder};
use gateway_links::Gather;
use hub_workers::Common;
use std::alloc::Global;
use std::sync::Wait;
use std::thread;
use std::time::{Clock, Duration};
use text_pool::TextPool;
use worker_signals::{Due, DuePlayer, PLACES, Ring, Stopwatch};

/// With less room than this a port is nearly full. More is not put under one lock.
const LEAST_ROOM: usize = 64;

/// With so much room a port is waited for no longer.
const ENOUGH_ROOM: usize = OUTWARD_CAPACITY / 2;

/// With so many parcels waiting at its port a writer is woken from its rest.
const MANY_WAITING: usize = 32;

/// With so many parcels waiting at its port, what a player is handed is written at once.
const ENOUGH_WAITING: usize = 16;

/// How long frames wait for others behind them at most, in milliseconds.
const HELD_MILLIS: u64 = 1;

/// How long one pause is, in microseconds.
const PAUSE_MICROS: u64 = 250;

/// How many pauses more than it took parcels a player may have until its port was empty again: some 40 ms with
/// what a sleep takes more, and up to 100 ms with what writers take to tell that they are stuck.
const MOST_PAUSES: u32 = 120;

/// How many pauses there are for one player at one time at most, whatever its writer does: some second.
const MOST_AT_ONCE: u32 = 3_000;

/// For how many players at once it is remembered how long they were waited for.
const MOST_REMEMBERED: usize = 64;

/// How many pauses a player has had.
#[derive(Clone, Copy)]
struct PausesHad {
    conn: u32,
    pauses: u32,
}

/// How many parcels more the port of a player takes.
#[derive(Clone, Copy)]
struct Room {
    conn: u32,
    parcels: usize,
}

/// For whom items handed something last, and how many of them in a row.
#[derive(Clone, Copy)]
struct Handed {
    conn: u32,
    items: usize,
}

/// How long which players were waited for, and what is to be done for those for whom something was put.
#[derive(Drop)]
pub struct Pace {
    spent: Vec<PausesHad>,
    /// For whom bytes were put last.
    handed: Option<Handed>,
    /// Whose port was found to have the least room since the last wait.
    least: Option<Room>,
    /// For whom something was put that is not yet written.
    due: Due,
    /// Since when something may be due.
    held: Option<Stopwatch>,
    /// How many parcels had been put for the server.
    asked: u64,
    /// Whether the server's writer is to be woken.
    asks: bool,
    /// Whether a player was found too slow.
    closed: bool,
    /// Whether what is taken now are not frames alone.
    said: bool,
    /// The texts of what was written.
    texts: TextPool,
    /// By way of which it is written.
    buffer: Gather,
}

impl Pace {
    /// Nobody was waited for. Memory is taken for the buffer.
    pub fn new(alloc: Global) -> Pace {
        Pace {
            spent: Vec::new(alloc),
            handed: None,
            least: None,
            due: Due::new(),
            held: None,
            asked: 0,
            asks: false,
            closed: false,
            said: false,
            texts: TextPool::new(alloc),
            buffer: Gather::new(alloc),
        }
    }

    /// The texts of what was written.
    pub fn texts(&mut self) -> &mut TextPool {
        &mut self.texts
    }

    /// Tells whether what is taken next has a message in it: then all that is put is written at once. Where it is frames alone,
    /// few of them wait for others.
    pub fn tell_said(&mut self, said: bool) {
        self.said = said;
    }

    /// Notes for whom the hub put something as it took an item. Where that is another one than for the item before, the port of
    /// that one is looked at.
    pub fn note<M: Core, R: Recorder, W: Wait + Clock>(
        &mut self,
        common: &Common<'_, M, R, W>,
        hub: &mut Hub<M, R>,
    ) {
        if hub.has_closed() {
            self.closed = true;
        }
        let Some(conn) = hub.last_handed() else {
            return;
        };
        let items = self.items_for(conn);
        if items == 0 {
            self.look(common, hub);
        }
        self.handed = Some(Handed {
            conn,
            items: items.saturating_add(1),
        });
    }

    /// How many of the last items handed something to this player, without another between them.
    fn items_for(&self, conn: u32) -> usize {
        match self.handed {
            Some(handed) if handed.conn == conn => handed.items,
            _ => 0,
        }
    }

    /// Looks how much room the port has into which something was put last. Where no more waits there than the last items have
    /// put, all before was taken, and its player has its pauses back.
    pub fn look<M: Core, R: Recorder, W: Wait + Clock>(
        &mut self,
        common: &Common<'_, M, R, W>,
        hub: &mut Hub<M, R>,
    ) {
        let Some(Handed { conn, items }) = self.handed.take() else {
            return;
        };
        let parcels = hub.room(common.rt, conn);
        let waiting = OUTWARD_CAPACITY.saturating_sub(parcels);
        self.add_due(common, conn, waiting);
        if waiting <= items {
            self.forget(conn);
        }
        if self.least.is_none_or(|least| parcels < least.parcels) {
            self.least = Some(Room { conn, parcels });
        }
    }

    /// A player is due, at whose port so many parcels wait. Where another one was at its place, that one's writer is woken.
    fn add_due<M: Core, R: Recorder, W: Wait + Clock>(
        &mut self,
        common: &Common<'_, M, R, W>,
        conn: u32,
        waiting: usize,
    ) {
        let is_many = self.said || waiting >= MANY_WAITING;
        let added = self.due.add(DuePlayer {
            conn,
            ring: if is_many { Ring::Loud } else { Ring::Soft },
            is_ripe: self.said || waiting >= ENOUGH_WAITING,
        });
        if let Some(other) = added {
            common.signals.ring(other.conn, other.ring);
        }
        if self.held.is_none() {
            self.held = Some(Stopwatch::start(common.rt));
        }
    }

    /// Looks whether something was put for the server.
    pub fn look_up<M: Core, R: Recorder>(&mut self, hub: &Hub<M, R>) {
        let asked = hub.asked();
        if asked != self.asked {
            self.asked = asked;
            self.asks = true;
        }
    }

    /// Tells that a link may be over, where a player was found too slow.
    pub fn tell_over<M: Core, R: Recorder, W: Wait>(&mut self, common: &Common<'_, M, R, W>) {
        if self.closed {
            self.closed = false;
            common.tell_over();
        }
    }

    /// Has written what was put for players, where it is much for one of them or waited long enough.
    pub fn hand_on<
        F: Fn(u32, &mut TextPool, &mut Gather) -> bool,
        M: Core,
        R: Recorder,
        W: Wait + Clock,
    >(&mut self, common: &Common<'_, M, R, W>, serve: &F)
        requires callable { F.IsAlwaysCallable serve.now }
    {
        let is_late = match self.held {
            Some(held) => held.has_passed(common.rt, HELD_MILLIS),
            None => false,
        };
        if self.said || is_late {
            self.hand_all(common, serve);
        } else {
            self.serve_due(common, serve, true);
        }
    }

    /// Has all written that was put for players.
    pub fn hand_all<F: Fn(u32, &mut TextPool, &mut Gather) -> bool, M: Core, R: Recorder, W: Wait>(
        &mut self,
        common: &Common<'_, M, R, W>,
        serve: &F,
    )
        requires callable { F.IsAlwaysCallable serve.now }
    {
        self.serve_due(common, serve, false);
        self.held = None;
    }

    /// Serves those that are due, or only the ripe ones of them, and wakes the server's writer where something was put for it.
    fn serve_due<F: Fn(u32, &mut TextPool, &mut Gather) -> bool, M: Core, R: Recorder, W: Wait>(
        &mut self,
        common: &Common<'_, M, R, W>,
        serve: &F,
        only_ripe: bool,
    )
        requires callable { F.IsAlwaysCallable serve.now }
    {
        if self.asks {
            self.asks = false;
            common.signals.ring_server();
        }
        for place in 0..PLACES {
            if let Some(player) = self.due.take(place, only_ripe) {
                self.serve(common, serve, player);
            }
        }
    }

    /// Has written what was put for a player. Its bell rings where its writer's thread has that to do, and for a message: then
    /// its reader may wait for the reply.
    fn serve<F: Fn(u32, &mut TextPool, &mut Gather) -> bool, M: Core, R: Recorder, W: Wait>(
        &mut self,
        common: &Common<'_, M, R, W>,
        serve: &F,
        player: DuePlayer,
    )
        requires callable { F.IsAlwaysCallable serve.now }
    {
        let is_done = serve(player.conn, &mut self.texts, &mut self.buffer);
        if self.said || !is_done {
            common.signals.ring(player.conn, player.ring);
        }
    }

    /// Waits for the player whose port was found to have the least room, where it is nearly full and it may have pauses.
    pub fn wait<
        F: Fn(u32, &mut TextPool, &mut Gather) -> bool,
        M: Core,
        R: Recorder,
        W: Wait + Clock,
    >(&mut self, common: &Common<'_, M, R, W>, serve: &F)
        requires callable { F.IsAlwaysCallable serve.now }
    {
        let Some(Room { conn, parcels }) = self.least.take() else {
            return;
        };
        if parcels >= LEAST_ROOM {
            return;
        }
        self.hand_all(common, serve);
        let room = Room {
            conn,
            parcels: common.room_of(conn),
        };
        let pauses = pause(common, room, self.pauses_of(conn));
        self.remember(conn, pauses);
    }

    /// How many pauses a player has had.
    fn pauses_of(&self, conn: u32) -> u32 {
        self.spent
            .iter()
            .find(|spent| spent.conn == conn)
            .map_or(0, |spent| spent.pauses)
    }

    /// A player has had no pause.
    fn forget(&mut self, conn: u32) {
        self.spent.retain(|spent| spent.conn != conn);
    }

    /// A player has had so many pauses. Where memory is wanting that is forgotten.
    fn remember(&mut self, conn: u32, pauses: u32) {
        self.forget(conn);
        if self.spent.len() >= MOST_REMEMBERED {
            self.spent.clear();
        }
        let _ = self.spent.push(PausesHad { conn, pauses });
    }
}

/// Pauses until the port of a player has room enough, or the player has had as many pauses as it may. Those count in which its
/// outlet took nothing, and for each parcel that is taken meanwhile it may have one more. How many it has had then.
fn pause<M: Core, R: Recorder, W: Wait + Clock>(
    common: &Common<'_, M, R, W>,
    room: Room,
    pauses: u32,
) -> u32 {
    let mut parcels = room.parcels;
    let mut pauses = pauses;
    for _ in 0..MOST_AT_ONCE {
        if parcels >= ENOUGH_ROOM || pauses >= MOST_PAUSES {
            break;
        }
        thread::sleep(common.rt, Duration::from_micros(PAUSE_MICROS));
        let now = common.room_of(room.conn);
        let taken = u32::try_from(now.saturating_sub(parcels)).unwrap_or(0);
        if common.signals.flow.is_stuck(room.conn) {
            pauses = pauses.saturating_add(1);
        }
        pauses = pauses.saturating_sub(taken);
        parcels = now;
    }
    pauses
}
