//! The connection to the server: the hub's ends of its two ports.
ghost use Rattle.hub_queues.specs.Parcels.{answer_parcels, message_parcels};
ghost use Rattle.hub_queues.specs.Places.{PutsAll};
ghost use Rattle.hub_queues.specs.Servers.{HandsUp, FetchesUp, PutsFirstUp};

use crate::line::{next_item, put_bytes};
use client_ports::{Putter, Taker};
use gate_bytes::Text;
use gateway_claim::{ToUp, UpMessage};
use rtsp_head::Item;
use std::sync::Wait;

/// What the hub keeps of the connection to the server.
#[derive(Drop)]
pub struct Server {
    /// The end that takes the server's items.
    pub inward: Taker,
    /// The end that puts what the server is handed.
    pub outward: Putter,
    /// The item that was taken, and is first in line since an event of it was refused.
    pub first: Option<Item>,
}

/// Puts an answer to the server, where there is one, and tells whether the port was full.
#[tactic(auto, using(crate::proofs::FrontLemmas::into_front, crate::proofs::FrontLemmas::begins_same))]
fn put_answer<W: Wait>(rt: &W, outward: &mut Putter, answer: Option<Text>) -> bool
    ensures { PutsAll (answer_parcels answer) result outward.old outward.new }
{
    match answer {
        Some(text) => put_bytes(rt, outward, text),
        None => false,
    }
}

/// Puts a message for the server, where there is one, and tells whether the port was full.
#[tactic(auto, using(crate::proofs::FrontLemmas::into_front, crate::proofs::FrontLemmas::begins_same))]
fn put_message<W: Wait>(rt: &W, outward: &mut Putter, message: Option<UpMessage>) -> bool
    ensures { PutsAll (message_parcels message) result outward.old outward.new }
{
    match message {
        Some(UpMessage::Request(text)) => put_bytes(rt, outward, text),
        Some(UpMessage::Frame(text)) => put_bytes(rt, outward, text),
        None => false,
    }
}

impl Server {
    /// Takes the first item in line.
    pub fn next<W: Wait>(&mut self, rt: &W) -> Option<Item>
        ensures { FetchesUp result self.old self.new }
    {
        next_item(rt, &mut self.inward, &mut self.first)
    }

    /// Puts an item first in line.
    pub fn put_first(&mut self, item: Item)
        ensures { PutsFirstUp item self.old self.new }
    {
        self.first = Some(item);
    }

    /// Puts all that the server is handed: the answer, and then the message. Where the port is full, what is left is
    /// dropped, which is told.
    #[tactic(auto, using(crate::proofs::FrontLemmas::begins_twice))]
    pub fn hand_out<W: Wait>(&mut self, rt: &W, up: ToUp) -> bool
        ensures { HandsUp up result self.old self.new }
    {
        let ToUp { answer, message } = up;
        let full = put_answer(rt, &mut self.outward, answer);
        if full {
            return true;
        }
        put_message(rt, &mut self.outward, message)
    }
}
