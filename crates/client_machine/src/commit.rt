//! Plans are carried out.
ghost use Rattle.std.specs.Prelude.{◌≡◌, ◌<◌, ◌^◌, ℕ, Option, is_some, length, IfSome};
ghost use Rattle.rtsp_uri.specs.declared.base.Bases.{Bases};
ghost use Rattle.client_slot.specs.Client.{Client};
ghost use Rattle.client_machine.specs.Step.{after_plays};
ghost use Rattle.client_machine.specs.Plans.{Comes, effect_by, changed, shut_by, without, risen, risen_text, is_up, IsReadyChange, ArePlaced, IsReadyUp, IsReady, IsPlan, Does, IsShortUp, IsShortPlan, IsShortDone};

use crate::parts::{Change, Done, PlannedStep, Up};
use crate::why::CloseWhy;
use client_slot::{Slot, WaitingPlay};
use gate_bytes::Text;
use std::alloc::Global;
use std::collections::LinkedList;
use std::mem;

impl PlannedStep {
    /// Whether a request goes up.
    pub fn asks(&self) -> bool
        ensures { (bases : Bases) (number next : ℕ) (pair : Option ℕ) (client : Client) (comes : Comes)
            → IsPlan bases next pair client comes self.now
            → result ≡ is_some (effect_by bases number pair client comes).message }
    {
        self.up.is_up()
    }

    /// Carries the plan out, by the number of the open request and that of the next one. It takes no
    /// memory, and can't be refused. What is handed out is moved out of the plan, which is not to be used again.
    pub fn commit(&mut self, alloc: Global, slot: &mut Slot, number: u32, next: u32) -> Done
        requires { IsReady slot.old self.old }
        ensures does { (bases : Bases) (pair : Option ℕ) (comes : Comes)
            → IsPlan bases next pair slot.old comes self.old
            → Does next pair slot.new result (effect_by bases number pair slot.old comes) }
        ensures short { IsShortPlan self.old → IsShortDone result }
    {
        let close = self.change.take().make(slot, number);
        take_out(slot, self.treated);
        queue_all(slot, &mut self.plays);
        let request = self.up.take().rise(slot, next);
        Done {
            hand: mem::replace(&mut self.hand, Text::new(alloc)),
            request,
            close,
        }
    }
}

impl Change {
    ghost use Rattle.std.specs.Prelude.{◌≡◌};
    ghost use Rattle.client_machine.specs.declared.parts.Change.TheVariants as changes;

    /// Nothing is left in its place.
    fn take(&mut self) -> Change
        ensures taken { result ≡ self.old }
        ensures left { self.new ≡ changes.Nothing }
    {
        mem::replace(self, Change::Nothing)
    }

    /// Changes the connection, whose open request has this number: why it was closed, where it was.
    fn make(self, slot: &mut Slot, number: u32) -> Option<CloseWhy>
        requires { IsReadyChange slot.old self }
        ensures client { slot.new ≡ changed number self slot.old }
        ensures close { result ≡ shut_by self }
    {
        match self {
            Change::Nothing => None,
            Change::Waits(waiting) => {
                slot.wait(waiting);
                None
            }
            Change::Settles(code, made) => {
                let _ = slot.settle(number, code, made);
                None
            }
            Change::Ends(place, names) => {
                if let Some(place) = place {
                    let _ = slot.noted(place, names);
                }
                None
            }
            Change::Closes(why) => {
                slot.close();
                Some(why)
            }
        }
    }
}

impl Up {
    ghost use Rattle.std.specs.Prelude.{◌≡◌};
    ghost use Rattle.client_machine.specs.declared.parts.Up.TheVariants as ups;

    /// Nothing is left in its place.
    fn take(&mut self) -> Up
        ensures taken { result ≡ self.old }
        ensures left { self.new ≡ ups.Nothing }
    {
        mem::replace(self, Up::Nothing)
    }

    /// Whether it is a request.
    pub(crate) fn is_up(&self) -> bool
        ensures { result ≡ is_up self.now }
    {
        !matches!(self, Up::Nothing)
    }

    /// It goes up, with the next number: its text.
    fn rise(self, slot: &mut Slot, next: u32) -> Option<Text>
        requires { IsReadyUp slot.old self }
        ensures client { slot.new ≡ risen self slot.old }
        ensures text { result ≡ risen_text next self slot.old }
        ensures short { IsShortUp self → IfSome result (λ text. length text < 2 ^ 31) }
    {
        match self {
            Up::Nothing => None,
            Up::Due(text) => {
                slot.release();
                Some(text)
            }
            Up::Leave => slot.closing(next),
            Up::Ask(text, asked, track) => {
                slot.asked(asked, track);
                Some(text)
            }
        }
    }
}

/// The oldest requests that wait are taken out.
fn take_out(slot: &mut Slot, count: usize)
    ensures { slot.new ≡ without count slot.old }
{
    for _at in 0..count {
        let _ = slot.next_waiting();
    }
}

/// PLAYs wait, in their order.
fn queue_all(slot: &mut Slot, plays: &mut LinkedList<WaitingPlay>)
    requires { ArePlaced slot.old.sessions plays.old }
    ensures { slot.new ≡ after_plays plays.old slot.old }
{
    while let Some(play) = plays.pop_front() {
        slot.queue(play);
    }
}
