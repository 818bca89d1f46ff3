//! The players and the server of a drill, around the gateway.
ghost use Rattle.std.specs.Prelude.{◌≡◌, ◌++◌, ◌+◌, IfOk, OnOk, replicate, slice_set};
ghost use Rattle.rtsp_head.specs.Shapes.{shapes};
ghost use Rattle.gateway_claim.specs.Happenings.{Happening};
ghost use Rattle.drill_server.specs.ServerSteps.{Serving, Serves};
ghost use Rattle.drill_run.specs.Players.{new_player, player_at, handed_players, player_said, stepped_player};
ghost use Rattle.drill_run.specs.CountSteps.{requests_told, piece_items};
ghost use Rattle.drill_run.specs.Turns.{Drilled, started, ready_one, ready_from, server_ready, candidates_among, fed_answer, fed_message, fed_up};

use crate::counts::{Counts, add, counts_with, none};
use crate::player::Player;
use crate::script::PlayerWords;
use crate::turn::Who;
use drill_server::{Draw, DrillServer};
use gate_bytes::{Memory, Text};
use gateway_claim::{Outcome, ToClient, ToUp, UpMessage};
use rtsp_head::Item;
use std::alloc::Global;

/// All that takes part in a drill but the gateway, and what was counted.
#[derive(Drop)]
pub struct DrillStage {
    /// The players, by their numbers.
    pub players: Vec<Player>,
    /// The draws.
    pub draw: Draw,
    /// The server.
    pub server: DrillServer,
    /// What was counted so far.
    pub counts: Counts,
    /// How many turns there were.
    pub turns: u64,
}

/// So many players that have sent nothing.
fn new_players(alloc: Global, count: u32) -> Result<Vec<Player>, Memory>
    ensures { IfOk result (λ players. players.items ≡ replicate count new_player) }
{
    let mut players = Vec::new(alloc);
    for _ in 0..count {
        players.push(Player::new(alloc))?;
    }
    Ok(players)
}

/// Appends a player to those that are ready, where it is.
fn push_ready(ready: &mut Vec<Who>, conn: u32, player: &Player) -> Result<(), Memory>
    ensures { OnOk result (ready.new.items ≡ ready.old.items ++ ready_one conn player.now) }
{
    if player.is_ready() {
        ready.push(Who::Client(conn))?;
    }
    Ok(())
}

/// The number after this one.
fn next_number(conn: u32) -> Result<u32, Memory>
    ensures { IfOk result (λ next. next ≡ conn + 1) }
{
    conn.checked_add(1).ok_or(Memory)
}

/// The players that are ready, by rising number.
fn ready_players(alloc: Global, players: &[Player]) -> Result<Vec<Who>, Memory>
    ensures { IfOk result (λ ready. ready.items ≡ ready_from 0 players.now) }
{
    let mut ready = Vec::new(alloc);
    let mut conn: u32 = 0;
    for player in players {
        push_ready(&mut ready, conn, player)?;
        conn = next_number(conn)?;
    }
    Ok(ready)
}

/// Appends the server, where a request waits for its answer.
fn push_server(ready: &mut Vec<Who>, server: &DrillServer) -> Result<(), Memory>
    ensures { OnOk result (ready.new.items ≡ ready.old.items ++ server_ready server.now.waiting) }
{
    if server.pending() > 0 {
        ready.push(Who::Server)?;
    }
    Ok(())
}

/// Who can have the next turn.
fn candidates(alloc: Global, players: &[Player], server: &DrillServer) -> Result<Vec<Who>, Memory>
    ensures { IfOk result (λ whos. whos.items ≡ candidates_among players.now server.now.waiting) }
{
    let mut whos = ready_players(alloc, players)?;
    push_server(&mut whos, server)?;
    Ok(whos)
}

/// A player hears the items of its piece.
fn hand_down(
    alloc: Global,
    players: &mut Vec<Player>,
    piece: &Option<ToClient>,
    items: &[Item],
) -> Result<(), Memory>
    ensures { OnOk result
        (shapes items.now ≡ piece_items piece.now
        → players.new.items ≡ handed_players piece.now players.old.items) }
{
    let Some(piece) = piece else {
        return Ok(());
    };
    match players.get_mut(piece.conn as usize) {
        Some(player) => player.hear(alloc, items),
        None => Ok(()),
    }
}

/// The server takes an answer.
fn feed_answer(alloc: Global, server: &mut DrillServer, answer: &Option<Text>) -> Result<(), Memory>
    ensures { OnOk result
        ((serving : Serving) → Serves server.old serving → Serves server.new (fed_answer answer.now serving)) }
{
    match answer {
        Some(text) => server.feed(alloc, text.as_bytes()),
        None => Ok(()),
    }
}

/// The server takes a message.
fn feed_message(
    alloc: Global,
    server: &mut DrillServer,
    message: &Option<UpMessage>,
) -> Result<(), Memory>
    ensures { OnOk result
        ((serving : Serving) → Serves server.old serving
        → Serves server.new (fed_message message.now serving)) }
{
    match message {
        Some(UpMessage::Request(text)) => server.feed(alloc, text.as_bytes()),
        Some(UpMessage::Frame(text)) => server.feed(alloc, text.as_bytes()),
        None => Ok(()),
    }
}

/// The server takes all that it is handed.
fn hand_up(alloc: Global, server: &mut DrillServer, up: &ToUp) -> Result<(), Memory>
    ensures { OnOk result
        ((serving : Serving) → Serves server.old serving → Serves server.new (fed_up up.now serving)) }
{
    feed_answer(alloc, server, &up.answer)?;
    feed_message(alloc, server, &up.message)?;
    Ok(())
}

impl DrillStage {
    ghost use Rattle.drill_run.specs.Stages.{IsStage, Picks};
    ghost use Rattle.drill_run.specs.Turns.{after_entry, after_saying};
    ghost use Rattle.drill_run.specs.declared.turn.Who.TheVariants.{Client, Server};
    ghost use Rattle.drill_server.specs.ServerSteps.{next_answer};

    /// The beginning of a drill with so many players, from this number.
    pub fn new(alloc: Global, players: u32, number: u64) -> Result<DrillStage, Memory>
        ensures { IfOk result (λ stage. IsStage stage (started players number)) }
    {
        Ok(DrillStage {
            players: new_players(alloc, players)?,
            draw: Draw::new(number),
            server: DrillServer::new(alloc),
            counts: none(),
            turns: 0,
        })
    }

    /// Draws who has the next turn; nobody where there is no candidate.
    pub fn pick(&mut self, alloc: Global) -> Result<Option<Who>, Memory>
        ensures { IfOk result (λ who.
            (drilled : Drilled) → IsStage self.old drilled → Picks who self.new drilled) }
    {
        let whos = candidates(alloc, self.players.as_slice(), &self.server)?;
        if whos.is_empty() {
            return Ok(None);
        }
        let turns = self.turns.checked_add(1).ok_or(Memory)?;
        let at = self.draw.below(whos.len() as u64);
        self.turns = turns;
        Ok(Some(whos[at as usize]))
    }

    /// A player says what it says at its next step.
    pub fn say(&mut self, alloc: Global, conn: u32) -> Result<PlayerWords, Memory>
        ensures said { IfOk result (λ said.
            (drilled : Drilled) → IsStage self.old drilled
            → said ≡ player_said conn (player_at conn drilled.players)) }
        ensures after { OnOk result
            ((drilled : Drilled) → IsStage self.old drilled
            → IsStage self.new (after_saying (Client conn) drilled)) }
    {
        say_next(alloc, &mut self.players, conn)
    }

    /// The server answers its oldest request: an empty text where none waits.
    pub fn answer(&mut self, alloc: Global) -> Result<Text, Memory>
        ensures said { IfOk result (λ text.
            (drilled : Drilled) → IsStage self.old drilled → text ≡ (next_answer drilled.server).text) }
        ensures after { OnOk result
            ((drilled : Drilled) → IsStage self.old drilled → IsStage self.new (after_saying Server drilled)) }
    {
        if self.server.pending() == 0 {
            return Ok(Text::new(alloc));
        }
        self.server.turn(alloc)
    }

    /// What an event handed out reaches a player and the server. So many requests of players came with the event, and
    /// these are the items of the player's piece.
    pub fn take(
        &mut self,
        alloc: Global,
        requests: u64,
        outcome: &Outcome,
        items: &[Item],
    ) -> Result<(), Memory>
        ensures { OnOk result
            ((happening : Happening) (drilled : Drilled) → requests ≡ requests_told happening
            → shapes items.now ≡ piece_items outcome.now.to_client
            → IsStage self.old drilled
            → IsStage self.new
            (after_entry drilled (record { happening = happening; outcome = outcome.now }))) }
    {
        let more = counts_with(requests, items, outcome)?;
        self.counts = add(&self.counts, &more)?;
        hand_down(alloc, &mut self.players, &outcome.to_client, items)?;
        hand_up(alloc, &mut self.server, &outcome.to_up)?;
        Ok(())
    }
}

/// A player says what it says at its next step.
fn say_next(alloc: Global, players: &mut Vec<Player>, conn: u32) -> Result<PlayerWords, Memory>
    ensures said { IfOk result (λ said. said ≡ player_said conn (player_at conn players.old.items)) }
    ensures after { OnOk result
        (players.new.items
        ≡ slice_set players.old.items conn (stepped_player (player_at conn players.old.items))) }
{
    match players.get_mut(conn as usize) {
        Some(player) => player.say(alloc, conn),
        None => Player::new(alloc).say(alloc, conn),
    }
}
