//! A player.
ghost use Rattle.std.specs.Prelude.{◌≡◌, IfOk, OnOk};
ghost use Rattle.rtsp_head.specs.Shapes.{shape_of, shapes};
ghost use Rattle.drill_run.specs.Players.{is_response_kind, session_in_head, session_replied};

use crate::script::{PlayerWords, said_at};
use crate::step::PlayerStep;
use gate_bytes::{Memory, Text};
use rtsp_head::{Head, HeadFault, Item, ItemKind};
use rtsp_small::read_session;
use std::alloc::Global;

/// A player: what it does next, how many replies it is owed, and the session that it is in.
#[derive(Drop)]
pub struct Player {
    /// Its next step; none after the last.
    pub next: Option<PlayerStep>,
    /// How many of its requests have no reply yet.
    pub owed: u64,
    /// The id of its session; nothing before there is one.
    pub session: Text,
}

impl Player {
    ghost use Rattle.drill_run.specs.Players.{new_player, is_ready_player, replied_player, heard_kind, heard_player, player_said, stepped_player};

    /// A player that has sent nothing. It takes no memory.
    pub fn new(alloc: Global) -> Player
        ensures { result ≡ new_player }
    {
        Player {
            next: Some(PlayerStep::Options),
            owed: 0,
            session: Text::new(alloc),
        }
    }

    /// Whether it has a step left, and a reply to each request that it sent.
    pub fn is_ready(&self) -> bool
        ensures { result ≡ is_ready_player self.now }
    {
        self.next.is_some() && self.owed == 0
    }

    /// Says what it says at its next step; it has this number.
    pub fn say(&mut self, alloc: Global, number: u32) -> Result<PlayerWords, Memory>
        ensures said { IfOk result (λ said. said ≡ player_said number self.old) }
        ensures after { OnOk result (self.new ≡ stepped_player self.old) }
    {
        let said = said_at(alloc, self.next, number, self.session.as_bytes())?;
        if let Some(step) = self.next {
            self.owed = self.owed.checked_add(step.requests()).ok_or(Memory)?;
            self.next = step.following();
        }
        Ok(said)
    }

    /// Takes a reply.
    fn take_reply(&mut self, alloc: Global, reply: &Item) -> Result<(), Memory>
        ensures { OnOk result (self.new ≡ replied_player self.old (shape_of reply.now)) }
    {
        if let Some(session) = session_told(alloc, reply)? {
            self.session = session;
        }
        self.owed = self.owed.saturating_sub(1);
        Ok(())
    }

    /// Takes an item. Only replies matter to it.
    fn take(&mut self, alloc: Global, item: &Item) -> Result<(), Memory>
        ensures { OnOk result
            (self.new ≡ heard_kind (is_response_kind item.now.kind) self.old (shape_of item.now)) }
    {
        if is_response(item) {
            self.take_reply(alloc, item)
        } else {
            Ok(())
        }
    }

    /// Takes items in their order.
    pub fn hear(&mut self, alloc: Global, items: &[Item]) -> Result<(), Memory>
        ensures { OnOk result (self.new ≡ heard_player self.old (shapes items.now)) }
    {
        for item in items {
            self.take(alloc, item)?;
        }
        Ok(())
    }
}

/// Whether an item is a reply.
pub fn is_response(item: &Item) -> bool
    ensures { result ≡ is_response_kind item.now.kind }
{
    item.kind == ItemKind::Response
}

/// The session that a reply names.
fn session_told(alloc: Global, reply: &Item) -> Result<Option<Text>, Memory>
    ensures { IfOk result (λ session. session ≡ session_replied (shape_of reply.now)) }
{
    match reply.head(alloc) {
        Ok(head) => session_in_head(alloc, &head),
        Err(HeadFault::Memory) => Err(Memory),
        Err(_) => Ok(None),
    }
}

/// The session that a head names.
fn session_in_head(alloc: Global, head: &Head<'_>) -> Result<Option<Text>, Memory>
    ensures { IfOk result (λ session. session ≡ session_in_head (Ok head.now)) }
{
    let Some(value) = head.field(b"Session") else {
        return Ok(None);
    };
    match read_session(value) {
        Some(session) => Ok(Some(Text::copy(alloc, session.id)?)),
        None => Ok(None),
    }
}
