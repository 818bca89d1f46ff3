//! All that the hub keeps beside its core and its recorder.
ghost use Rattle.std.specs.Prelude.{◌≡◌, Option};
ghost use Rattle.gateway_hub.specs.Desks.{CountsOne, KeepsEnding, HandsAll, LeavesOut, addressee_of, landed_for, fall_heard, left_for};
ghost use Rattle.gateway_hub.specs.Endings.{is_stopped};
ghost use Rattle.gateway_hub.specs.Calls.{GivesBack, Refuses};
ghost use Rattle.gateway_hub.specs.Take.{Stops};

use crate::{Ending, HubFault, NoteFault, StopWhy};
use gateway_claim::{Event, Outcome, ToClient, UpCause};
use hub_queues::{Place, Server, count_arrival, hand_out, note_close, put_first};
use std::sync::Wait;

/// How the connection to the server ended.
#[derive(Clone, Copy)]
pub struct Fall {
    /// Whether an item of the server ended it.
    pub heard: bool,
    /// Why a client that was too slow was not found so any more, where its note failed.
    pub unnoted: Option<NoteFault>,
}

/// All that the hub keeps beside its core and its recorder.
#[derive(Drop)]
pub struct Desk {
    /// The connection to the server.
    pub server: Server,
    /// The connections, by their numbers.
    pub places: Vec<Place>,
    /// How the connection to the server ended, where it did.
    pub fall: Option<Fall>,
    /// Why no more events are taken.
    pub ending: Option<Ending>,
}

/// What became of what one event handed out.
#[derive(Clone, Copy, Debug, PartialEq, Eq)]
pub struct Delivery {
    /// The client for whom bytes were put.
    pub landed: Option<u32>,
    /// The client whose port was full.
    pub client: Option<u32>,
    /// Whether the server's port was.
    pub server: bool,
}

/// Counts an arrival more of a connection, where there was one.
fn count_one(places: &mut Vec<Place>, asker: Option<u32>)
    ensures { CountsOne asker places.old.items places.new.items }
{
    if let Some(conn) = asker {
        count_arrival(places, conn);
    }
}

/// The client that an outcome hands bytes to.
fn addressee(piece: &Option<ToClient>) -> Option<u32>
    ensures { result ≡ addressee_of piece.now }
{
    match piece {
        Some(piece) => Some(piece.conn),
        None => None,
    }
}

/// The client for whom bytes were put: the one that was handed some, unless its port was full.
fn landed_for(addressee: Option<u32>, full: Option<u32>) -> Option<u32>
    ensures { result ≡ landed_for addressee full }
{
    if full.is_some() { None } else { addressee }
}

/// Whether an item of the server ended its connection, where that ended.
pub fn fall_heard(fall: Option<Fall>) -> Option<bool>
    ensures { result ≡ fall_heard fall }
{
    match fall {
        Some(fall) => Some(fall.heard),
        None => None,
    }
}

/// How the connection to the server ended, with why a client was left out since then.
fn left_for(fault: NoteFault, fall: Option<Fall>) -> Option<Fall>
    ensures { result ≡ left_for fault fall }
{
    match fall {
        Some(fall) => Some(Fall {
            heard: fall.heard,
            unnoted: Some(fault),
        }),
        None => None,
    }
}

impl Desk {
    /// Keeps the end of the connection to the server.
    fn keep_end(&mut self, fault: Option<UpCause>, heard: bool)
        ensures ending { KeepsEnding fault heard self.old self.new }
    {
        let Some(cause) = fault else { return };
        if self.fall.is_none() {
            self.fall = Some(Fall {
                heard,
                unnoted: None,
            });
        }
        if self.ending.is_none() {
            self.ending = Some(Ending::Upstream(cause));
        }
    }

    /// Does what the outcome of an event asks for: counts the arrival of the asker, notes who is closed, puts what the
    /// client is handed, and then what the server is handed. Tells for whom bytes were put, and whose ports were full.
    pub fn take_outcome<W: Wait>(
        &mut self,
        rt: &W,
        asker: Option<u32>,
        heard: bool,
        outcome: Outcome,
    ) -> Delivery
        ensures { HandsAll asker heard outcome result self.old self.new }
    {
        let Outcome {
            to_client,
            to_up,
            closed,
            fault,
        } = outcome;
        count_one(&mut self.places, asker);
        note_close(&mut self.places, closed, heard);
        self.keep_end(fault, heard);
        let addressee = addressee(&to_client);
        let client = hand_out(&mut self.places, rt, to_client);
        let landed = landed_for(addressee, client);
        let server = self.server.hand_out(rt, to_up);
        Delivery {
            landed,
            client,
            server,
        }
    }

    /// Whether the hub was stopped.
    pub fn is_stopped(&self) -> bool
        ensures { result ≡ is_stopped self.now.ending }
    {
        matches!(self.ending, Some(Ending::Stopped(_)))
    }

    /// Keeps that the hub was stopped, where no ending was kept.
    pub fn stop(&mut self, why: StopWhy)
        ensures { Stops why self.old self.new }
    {
        self.ending = self.ending.or(Some(Ending::Stopped(why)));
    }

    /// Keeps why a client that is too slow is not found so, where the connection to the server has ended.
    pub fn leave_out(&mut self, fault: NoteFault)
        ensures { LeavesOut fault self.old self.new }
    {
        self.fall = left_for(fault, self.fall);
    }

    /// Puts the item of an event that was not taken first in line again.
    pub fn give_back(&mut self, event: Event)
        ensures { GivesBack event self.old self.new }
    {
        match event {
            Event::Client(conn, item) => put_first(&mut self.places, conn, item),
            Event::Up(item) => self.server.put_first(item),
            Event::End(_) | Event::Slow(_) | Event::UpEnd(_) => {}
        }
    }

    /// What a call answers whose event was not taken. Where the note failed, the hub is stopped.
    pub fn fault_of(&mut self, fault: NoteFault) -> HubFault
        ensures { Refuses fault result self.old self.new }
    {
        match fault {
            NoteFault::Memory => HubFault::Memory,
            NoteFault::Failed => {
                self.stop(StopWhy::Record);
                HubFault::RecordFault
            }
        }
    }
}
