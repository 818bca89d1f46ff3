//! Requests that wait are treated.
ghost use Rattle.std.specs.Prelude.{◌≡◌, ◌≤◌, ◌<◌, length, map, is_none, IfSome, IfOk, OnOk};
ghost use Rattle.std.specs.Option.{option_copied};
ghost use Rattle.session_one.specs.declared.parts.TheConstants.{MOST_SESSIONS};
ghost use Rattle.client_slot.specs.declared.limits.TheConstants.{LONGEST_URI};
ghost use Rattle.rtsp_head.specs.Shapes.{shape_of};
ghost use Rattle.translate_up.specs.Views.{session_shown, session_or_none};
ghost use Rattle.translate_up.specs.DecisionPlaces.{NamesSession, IsDecidedIn};
ghost use Rattle.translate_up.specs.UriLengths.{AreGivenWithin};
ghost use Rattle.client_machine.specs.Treatment.{queued_more_where, decision_on, given_shown};
ghost use Rattle.play_queue.specs.declared.queue.TheConstants.{MOST_PLAYS};
ghost use Rattle.channel_map.specs.declared.map.TheConstants.{PAIRS};
ghost use Rattle.client_machine.specs.Progresses.{begun, sessions_then};
ghost use Rattle.client_machine.specs.Onward.{IsFinished, IsTreatedBy};

use crate::onward::ask;
use crate::parts::PlannedStep;
use client_slot::{Slot, WaitingPlay};
use gate_bytes::{Memory, Text};
use rtsp_head::Item;
use rtsp_uri::Bases;
use session_one::Play;
use std::alloc::Global;
use translate_up::{Decision, SessionView, View, decide};

/// By what requests in a row are treated.
#[derive(Clone, Copy)]
pub(crate) struct Course<'v> {
    /// The addresses.
    pub bases: &'v Bases,
    /// The URI that was described last.
    pub described: Option<&'v [u8]>,
    /// The number of the next request.
    pub next: u32,
    /// The lowest pair of channels that is free.
    pub pair: Option<u8>,
}

impl PlannedStep {
    ghost use Rattle.std.specs.Prelude.{◌≡◌, ◌≤◌, ◌∷◌, ◌++◌, [], map, length, is_none, OnOk};
    ghost use Rattle.std.specs.Option.{option_copied};
    ghost use Rattle.rtsp_head.specs.Shapes.{shape_of};
    ghost use Rattle.session_one.specs.declared.parts.TheConstants.{MOST_SESSIONS};
    ghost use Rattle.translate_up.specs.Views.{session_shown};
    ghost use Rattle.client_machine.specs.declared.parts.Change.{Change};
    ghost use Rattle.client_machine.specs.Treatment.{given_shown};
    ghost use Rattle.client_machine.specs.Progresses.{Progress, progressed};
    ghost use Rattle.client_machine.specs.Onward.{IsFinished, IsNextTreated};

    /// One request more is treated, and a PLAY that waits is counted.
    pub(crate) fn then<'a, 'v>(
        &mut self,
        alloc: Global,
        sessions: &mut [Option<SessionView<'a, 'v>>],
        course: Course<'a>,
        item: &'a Item,
    ) -> Result<(), Memory>
        requires few { length sessions.old ≤ MOST_SESSIONS }
        requires pair { IfSome course.pair (λ one. one < PAIRS) }
        ensures { OnOk result (IsNextTreated course.entry.next course.entry.pair
            (given_shown course.entry.bases.now (is_none course.entry.pair) (map session_shown sessions.old)
            (option_copied course.entry.described))
            (shape_of item.entry.now) self.old self.new (map session_shown sessions.new)) }
    {
        let decision = judge(alloc, sessions, course, course.pair.is_none(), item)?;
        count(sessions, &decision);
        self.decided(alloc, course, decision)
    }

    /// This becomes of one request more.
    fn decided(
        &mut self,
        alloc: Global,
        course: Course<'_>,
        decision: Decision<'_>,
    ) -> Result<(), Memory>
        requires { IfSome course.pair (λ one. one < PAIRS) }
        ensures { OnOk result ((change : Change) (before : Progress)
            → IsFinished course.entry.next course.entry.pair change before self.old
            → IsFinished course.entry.next course.entry.pair change (progressed decision.entry before) self.new) }
    {
        match decision {
            Decision::Answer(text) => self.answered(text),
            Decision::Queue(play, text) => self.put(alloc, play, text),
            Decision::Forward(request, asked) => {
                self.up = ask(alloc, course, request, asked, None)?;
                Ok(())
            }
            Decision::Setup(request, asked, channels) => {
                self.up = ask(alloc, course, request, asked, Some(channels))?;
                Ok(())
            }
        }
    }

    /// One request is answered. The first answer is handed out as it is.
    fn answered(&mut self, text: Text) -> Result<(), Memory>
        ensures { OnOk result (self.new ≡ record self.old { hand = self.old.hand ++ text }) }
    {
        if self.hand.is_empty() {
            self.hand = text;
            return Ok(());
        }
        self.hand.push_slice(text.as_bytes())
    }

    /// A PLAY waits, and is answered.
    fn put(&mut self, alloc: Global, play: Play, text: Text) -> Result<(), Memory>
        ensures { OnOk result
            (self.new ≡ record self.old { hand = self.old.hand ++ text; plays = self.old.plays ++ play ∷ [] }) }
    {
        self.plays.push_back(WaitingPlay::new(alloc, play)?)?;
        self.answered(text)
    }
}

/// What becomes of a request of a player with these sessions, where all pairs of channels are held or not.
fn judge<'a, 'v>(
    alloc: Global,
    sessions: &'v [Option<SessionView<'a, 'v>>],
    course: Course<'a>,
    full: bool,
    item: &'a Item,
) -> Result<Decision<'a>, Memory>
    requires few { length sessions.now ≤ MOST_SESSIONS }
    ensures { IfOk result (λ decision.
        decision
        ≡ decision_on
        (given_shown course.entry.bases.now full (map session_shown sessions.entry.now)
        (option_copied course.entry.described))
        (shape_of item.entry.now)) }
{
    let view = View {
        sessions,
        described: course.described,
        full,
        bases: course.bases,
    };
    let decision = decide(alloc, &view, item)?;
    prove!(item.bytes.len() <= usize::MAX);
    Ok(decision)
}

/// A PLAY that waits by this decision is counted.
fn count(sessions: &mut [Option<SessionView<'_, '_>>], decision: &Decision<'_>)
    requires { IsDecidedIn (map session_shown sessions.old) decision.now }
    ensures { map session_shown sessions.new ≡ sessions_then decision.now (map session_shown sessions.old) }
{
    if let Decision::Queue(play, _) = decision {
        count_play(sessions, play.place);
    }
}

/// One PLAY more waits in the session at a place.
fn count_play(sessions: &mut [Option<SessionView<'_, '_>>], place: Option<u8>)
    requires named { NamesSession place (map session_shown sessions.old) }
    requires room { (session_or_none place (map session_shown sessions.old)).queued < MOST_PLAYS }
    ensures { map session_shown sessions.new ≡ queued_more_where place (map session_shown sessions.old) }
{
    if let Some(place) = place {
        if let Some(session) = &mut sessions[usize::from(place)] {
            session.queued += 1;
        }
    }
}

/// Treats the requests that wait in order, until one of them goes up: the plan says so. Their answers follow the bytes that
/// it hands out already. The URIs that are known are short enough, and so is each one that goes up.
pub(crate) fn treat_waiting<'a, 'v>(
    alloc: Global,
    sessions: &mut [Option<SessionView<'a, 'v>>],
    course: Course<'a>,
    slot: &'a Slot,
    plan: &mut PlannedStep,
) -> Result<(), Memory>
    requires few { length sessions.old ≤ MOST_SESSIONS }
    requires known { AreGivenWithin LONGEST_URI
        (given_shown course.bases.now (is_none course.pair) (map session_shown sessions.old)
        (option_copied course.described)) }
    requires pair { IfSome course.pair (λ one. one < PAIRS) }
    requires begun { IsFinished course.next course.pair plan.old.change (begun plan.old.hand) plan.old }
    ensures { OnOk result (IsTreatedBy course.entry.next course.entry.pair
        (given_shown course.entry.bases.now (is_none course.entry.pair) (map session_shown sessions.old)
        (option_copied course.entry.described))
        (given_shown course.entry.bases.now (is_none course.entry.pair) (map session_shown sessions.new)
        (option_copied course.entry.described))
        slot.entry.now.waiting plan.old.hand plan.old.change plan.new) }
{
    let count = slot.waiting();
    while plan.treated < count && !plan.up.is_up() {
        let Some(item) = slot.waiting_at(plan.treated) else {
            unreachable!()
        };
        plan.then(alloc, sessions, course, item)?;
        plan.treated += 1;
    }
    Ok(())
}
