//! What a hub keeps of its connections and of the server, and those who speak to them.

use crate::over::{connection_in, word_in};
use crate::parcels::{tell_item, tell_next, tell_put};
use client_ports::{Putter, Taker, port};
use gateway_claim::{CloseWhy, Closed, ToClient, ToUp, UpMessage};
use hub_queues::{
    HubConnection, Place, Server, count_arrival, hand_out, is_seated, next_of, note_close,
    put_first, room_of,
};
use rtsp_head::Item;
use std::alloc::Global;
use std::sync::Wait;
use test_text::{CaseAnswer, CaseFault, first_word, meant};

/// How many parcels each port holds.
const CAPACITY: usize = 2;

/// The ends of a client or of the server.
#[derive(Drop)]
struct PlaceEnds {
    /// The end that puts its items.
    inward: Putter,
    /// The end that takes what it is handed.
    outward: Taker,
}

/// Connections that have their places, and the server.
#[derive(Drop)]
pub struct PlacesPlay {
    /// The places, by the connections' numbers.
    places: Vec<Place>,
    /// The ends of the clients, by the same numbers.
    clients: Vec<PlaceEnds>,
    /// What is kept of the server.
    server: Server,
    /// The ends of the server.
    up: PlaceEnds,
    /// The item that was taken last.
    taken: Option<Item>,
}

impl PlacesPlay {
    /// No connections, and a server that has said nothing.
    pub fn new(alloc: Global) -> Result<Box<PlacesPlay>, CaseFault> {
        let (up, inward, outward) = ends(alloc)?;
        let server = Server {
            inward,
            outward,
            first: None,
        };
        let play = PlacesPlay {
            places: Vec::new(alloc),
            clients: Vec::new(alloc),
            server,
            up,
            taken: None,
        };
        Ok(Box::new(alloc, play)?)
    }

    /// A connection takes its place.
    fn seat(&mut self, alloc: Global, answer: &mut CaseAnswer) {
        match new_place(alloc) {
            Ok((client, place)) => {
                let is_seated = self.places.push(place).is_ok();
                let has_ends = self.clients.push(client).is_ok();
                if !is_seated || !has_ends {
                    answer.fail(CaseFault::Memory);
                }
            }
            Err(fault) => answer.fail(fault),
        }
    }

    /// Makes the call of a line, and tells what came.
    pub fn call<W: Wait>(&mut self, rt: &W, alloc: Global, line: &[u8], answer: &mut CaseAnswer) {
        let (word, more) = word_in(line);
        match word {
            "seat" => self.seat(alloc, answer),
            "put-up" => tell_put(rt, alloc, &mut self.up.inward, more, answer),
            "next-up" => {
                let item = self.server.next(rt);
                self.keep(item, answer);
            }
            "put-first-up" => match self.taken.take() {
                Some(item) => self.server.put_first(item),
                None => answer.unreadable(),
            },
            "hand-up" => self.hand_up(rt, alloc, more, answer),
            "heard-up" => tell_next(rt, &mut self.up.outward, answer),
            _ => match connection_in(more) {
                Some((conn, more)) => self.call_at(rt, alloc, word, conn, more, answer),
                None => answer.unreadable(),
            },
        }
    }

    /// Tells an item that was taken, and keeps it.
    fn keep(&mut self, item: Option<Item>, answer: &mut CaseAnswer) {
        tell_item(&item, answer);
        self.taken = item;
    }

    /// The server is handed an answer and a request. Whether its port was full is told.
    fn hand_up<W: Wait>(&mut self, rt: &W, alloc: Global, more: &[u8], answer: &mut CaseAnswer) {
        match to_up(alloc, more) {
            Ok(up) => answer.push_debug(alloc, &self.server.hand_out(rt, up)),
            Err(fault) => answer.fail(fault),
        }
    }

    /// Makes the call that a word is, of the connection with this number, and tells what came.
    fn call_at<W: Wait>(
        &mut self,
        rt: &W,
        alloc: Global,
        word: &str,
        conn: u32,
        more: &[u8],
        answer: &mut CaseAnswer,
    ) {
        let places = &mut self.places;
        match word {
            "next" => {
                let item = next_of(places, rt, conn);
                self.keep(item, answer);
            }
            "put-first" => match self.taken.take() {
                Some(item) => put_first(places, conn, item),
                None => answer.unreadable(),
            },
            "room" => answer.push_debug(alloc, &room_of(places, rt, conn)),
            "arrive" => count_arrival(places, conn),
            "close-slow" => note_close(places, Closed::One(conn, CloseWhy::Slow), true),
            "is-seated" => answer.push_debug(alloc, &is_seated(places.as_slice(), conn)),
            "line" => tell_line(alloc, places.as_slice(), conn, answer),
            "hand-out" => tell_handed(rt, alloc, places, conn, more, answer),
            _ => match self.clients.get_mut(conn as usize) {
                Some(ends) => call_client(rt, alloc, ends, word, more, answer),
                None => answer.unreadable(),
            },
        }
    }
}

/// The ends of a new connection, and those that the hub keeps of it.
fn ends(alloc: Global) -> Result<(PlaceEnds, Taker, Putter), CaseFault> {
    let (inward, items) = port(alloc, CAPACITY)?;
    let (pieces, outward) = port(alloc, CAPACITY)?;
    Ok((PlaceEnds { inward, outward }, items, pieces))
}

/// The place of a new connection, and its client's ends.
fn new_place(alloc: Global) -> Result<(PlaceEnds, Place), CaseFault> {
    let (client, inward, outward) = ends(alloc)?;
    let line = Box::new(alloc, HubConnection::new(inward, outward))?;
    Ok((client, Place::Seated(line)))
}

/// The answer and the request that the words of a line mean.
fn to_up(alloc: Global, more: &[u8]) -> Result<ToUp, CaseFault> {
    let (answer, request) = first_word(more);
    let request = meant(alloc, request)?;
    Ok(ToUp {
        answer: Some(meant(alloc, answer)?),
        message: Some(UpMessage::Request(request)),
    })
}

/// A client is handed bytes. Whose port was full is told.
fn tell_handed<W: Wait>(
    rt: &W,
    alloc: Global,
    places: &mut Vec<Place>,
    conn: u32,
    body: &[u8],
    answer: &mut CaseAnswer,
) {
    match meant(alloc, body) {
        Ok(bytes) => {
            let full = hand_out(places, rt, Some(ToClient { conn, bytes }));
            answer.push_debug(alloc, &full);
        }
        Err(fault) => answer.fail(fault),
    }
}

/// What is kept of a connection that is not retired is told.
fn tell_line(alloc: Global, places: &[Place], conn: u32, answer: &mut CaseAnswer) {
    match places.get(conn as usize) {
        Some(Place::Seated(line)) => {
            answer.push(b"arrived ");
            answer.push_number(line.arrived);
            answer.push(b", close ");
            answer.push_debug(alloc, &line.close);
        }
        _ => answer.unreadable(),
    }
}

/// Makes the call that a word is, at the ends of a client, and tells what came.
fn call_client<W: Wait>(
    rt: &W,
    alloc: Global,
    ends: &mut PlaceEnds,
    word: &str,
    more: &[u8],
    answer: &mut CaseAnswer,
) {
    match word {
        "put" => tell_put(rt, alloc, &mut ends.inward, more, answer),
        "heard" => tell_next(rt, &mut ends.outward, answer),
        _ => answer.unreadable(),
    }
}
