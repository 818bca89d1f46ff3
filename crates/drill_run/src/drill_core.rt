//! A core, and the players and the server of a drill around it.
ghost use Rattle.std.specs.Prelude.{◌≡◌, ◌∷◌, List, [], IfOk, OnOk};
ghost use Rattle.rtsp_head.specs.Shapes.{shape_of, shapes};
ghost use Rattle.rtsp_uri.specs.declared.base.Bases.{Bases};
ghost use Rattle.gateway_claim.specs.Happenings.{HistoryEntry, entry_of, happening_of};
ghost use Rattle.drill_run.specs.declared.turn.Who.TheVariants.{Client as Player, Server as ByServer};
ghost use Rattle.drill_run.specs.Steps.{end_told};
ghost use Rattle.drill_run.specs.Plays.{Plays, Drives, TurnTaken, TurnMade, item_told, items_told};

use crate::counts::requests;
use crate::items::{handed_items, items_in_pieces};
use crate::stage::DrillStage;
use crate::turn::Who;
use gate_bytes::Memory;
use gateway_claim::{Core, Event, Outcome};
use rtsp_head::Item;
use std::alloc::Global;

/// The bytes of the pieces in which a player's bytes come.
const PLAYER_SIZE: usize = 5;

/// The bytes of the pieces in which the server's bytes come.
const SERVER_SIZE: usize = 7;

/// The event that an item is, by who said it.
fn event_of(who: Who, item: Item) -> Event
    ensures { happening_of result ≡ item_told who (shape_of item) }
{
    match who {
        Who::Client(conn) => Event::Client(conn, item),
        Who::Server => Event::Up(item),
    }
}

/// The core takes an event.
fn step<M: Core>(alloc: Global, core: &mut M, event: Event) -> Result<Outcome, Memory>
    ensures stands { IfOk result (λ outcome.
        (T : List HistoryEntry) → M.stands core.old T → M.stands core.new (entry_of event outcome ∷ T)) }
    ensures bases { M.bases core.new ≡ M.bases core.old }
{
    match core.step(alloc, event) {
        Ok(outcome) => Ok(outcome),
        Err((_, memory)) => Err(memory),
    }
}

/// A core on which a drill is played.
#[derive(Drop)]
pub struct Drill<M: Core> {
    /// The gateway.
    pub core: M,
    /// All that stands around it.
    pub stage: DrillStage,
}

impl<M: Core> Drill<M> {
    /// The core takes an event, and what it hands out reaches a player and the server.
    fn take(&mut self, alloc: Global, event: Event) -> Result<(), Memory>
        ensures { OnOk result
            ((between : Bases)
            → Drives (Plays M.stands M.bases self.old.core self.old.stage between)
            (Plays M.stands M.bases self.new.core self.new.stage between) (happening_of event ∷ [])) }
    {
        let requests = requests(&event);
        let outcome = step(alloc, &mut self.core, event)?;
        let items = handed_items(alloc, &outcome.to_client)?;
        self.stage
            .take(alloc, requests, &outcome, items.as_slice())?;
        Ok(())
    }

    /// Items are taken, one after another.
    fn take_items(&mut self, alloc: Global, who: Who, items: Vec<Item>) -> Result<(), Memory>
        ensures { OnOk result
            ((between : Bases)
            → Drives (Plays M.stands M.bases self.old.core self.old.stage between)
            (Plays M.stands M.bases self.new.core self.new.stage between)
            (items_told who (shapes items.items))) }
    {
        for item in items {
            self.take(alloc, event_of(who, item))?;
        }
        Ok(())
    }

    /// The end of a player's connection is taken, where it ends.
    fn take_end(&mut self, alloc: Global, conn: u32, last: bool) -> Result<(), Memory>
        ensures { OnOk result
            ((between : Bases)
            → Drives (Plays M.stands M.bases self.old.core self.old.stage between)
            (Plays M.stands M.bases self.new.core self.new.stage between) (end_told last conn)) }
    {
        if last {
            self.take(alloc, Event::End(conn))
        } else {
            Ok(())
        }
    }

    /// A player says what it says at its next step.
    fn play(&mut self, alloc: Global, conn: u32) -> Result<(), Memory>
        ensures { OnOk result
            ((between : Bases)
            → TurnTaken (Player conn) (Plays M.stands M.bases self.old.core self.old.stage between)
            (Plays M.stands M.bases self.new.core self.new.stage between)) }
    {
        let said = self.stage.say(alloc, conn)?;
        let items = items_in_pieces(alloc, said.text.as_bytes(), PLAYER_SIZE)?;
        self.take_items(alloc, Who::Client(conn), items)?;
        self.take_end(alloc, conn, said.last)?;
        Ok(())
    }

    /// The server answers its oldest request.
    fn answer(&mut self, alloc: Global) -> Result<(), Memory>
        ensures { OnOk result
            ((between : Bases)
            → TurnTaken ByServer (Plays M.stands M.bases self.old.core self.old.stage between)
            (Plays M.stands M.bases self.new.core self.new.stage between)) }
    {
        let text = self.stage.answer(alloc)?;
        let items = items_in_pieces(alloc, text.as_bytes(), SERVER_SIZE)?;
        self.take_items(alloc, Who::Server, items)?;
        Ok(())
    }

    /// Who has the turn says what it says.
    fn speak(&mut self, alloc: Global, who: Who) -> Result<(), Memory>
        ensures { OnOk result
            ((between : Bases)
            → TurnTaken who (Plays M.stands M.bases self.old.core self.old.stage between)
            (Plays M.stands M.bases self.new.core self.new.stage between)) }
    {
        match who {
            Who::Client(conn) => self.play(alloc, conn),
            Who::Server => self.answer(alloc),
        }
    }

    /// One turn. Whether there was one: there is none where nobody can have it, and then nothing changes.
    pub fn turn(&mut self, alloc: Global) -> Result<bool, Memory>
        ensures { IfOk result (λ made.
            (between : Bases)
            → TurnMade made (Plays M.stands M.bases self.old.core self.old.stage between)
            (Plays M.stands M.bases self.new.core self.new.stage between)) }
    {
        match self.stage.pick(alloc)? {
            Some(who) => {
                self.speak(alloc, who)?;
                Ok(true)
            }
            None => Ok(false),
        }
    }
}
