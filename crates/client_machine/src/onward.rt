//! What goes up for a connection with no open request.
ghost use Rattle.std.specs.Prelude.{◌≡◌, ◌<◌, [], Some, None, is_none, IfOk, IfSome, OnOk, if◌then◌else◌};
ghost use Rattle.std.specs.Option.{option_copied};
ghost use Rattle.channel_map.specs.declared.map.TheConstants.{PAIRS};
ghost use Rattle.head_two.specs.Requests.{request_text};
ghost use Rattle.translate_up.specs.QueuedPlay.{play_up};
ghost use Rattle.client_machine.specs.Step.{track_of};
ghost use Rattle.client_machine.specs.UpTexts.{text_up};
ghost use Rattle.translate_up.specs.Views.{Given};
ghost use Rattle.client_machine.specs.Sights.{filled_seen, given_by};
ghost use Rattle.client_machine.specs.Outlooks.{sights_of};
ghost use Rattle.client_machine.specs.Progresses.{begun};
ghost use Rattle.client_machine.specs.Onward.{leave_up, up_for, due_for, IsFinished, IsTreatedBy, GoesOnward};

use crate::outlook::Outlook;
use crate::parts::{Change, PlannedStep, Up};
use crate::treat::{Course, treat_waiting};
use gate_bytes::{Memory, Text};
use head_two::{Request2, write_request};
use rtsp_transport::Pair;
use session_one::{Asked, Play, Track};
use std::alloc::Global;
use std::collections::LinkedList;
use translate_up::{play_up, with_transport};

/// The text of a PLAY that is due, with the next number.
pub(crate) fn due_text(
    alloc: Global,
    session: Option<&[u8]>,
    play: &Play,
    next: u32,
) -> Result<Text, Memory>
    ensures { IfOk result (λ text.
        text ≡ request_text next (play_up (option_copied session.entry) play.now)) }
{
    let request = play_up(alloc, session, play)?;
    write_request(alloc, &request, next)
}

/// The stream that a SETUP sets up.
fn stream(
    alloc: Global,
    uri: &[u8],
    pair: Option<u8>,
    channels: Option<Pair>,
) -> Result<Option<Track>, Memory>
    ensures { IfOk result (λ track. track ≡ track_of uri.now pair channels) }
{
    match (pair, channels) {
        (Some(pair), Some(client)) => Ok(Some(Track {
            uri: Text::copy(alloc, uri)?,
            client,
            pair,
        })),
        _ => Ok(None),
    }
}

/// The text of a request with the next number, and of a SETUP with the pair that is free.
fn going_text(
    alloc: Global,
    request: Request2<'_>,
    next: u32,
    pair: Option<u8>,
    sets_up: bool,
) -> Result<Text, Memory>
    requires { IfSome pair (λ one. one < PAIRS) }
    ensures { IfOk result (λ text. text ≡ text_up next pair (if sets_up then pair else None) request.entry) }
{
    match pair {
        Some(pair) if sets_up => {
            let channels = Pair {
                rtp: 2 * pair,
                rtcp: 2 * pair + 1,
            };
            let request = with_transport(alloc, request, &channels)?;
            write_request(alloc, &request, next)
        }
        _ => write_request(alloc, &request, next),
    }
}

/// A request goes up, and a SETUP with the stream that it sets up.
pub(crate) fn ask(
    alloc: Global,
    course: Course<'_>,
    request: Request2<'_>,
    asked: Asked,
    channels: Option<Pair>,
) -> Result<Up, Memory>
    requires { IfSome course.pair (λ one. one < PAIRS) }
    ensures { IfOk result (λ up. up ≡ up_for course.entry.next course.entry.pair
        (Some (record { request = request.entry; asked = asked; channels = channels }))) }
{
    let track = stream(alloc, asked.uri.as_bytes(), course.pair, channels)?;
    let text = going_text(alloc, request, course.next, course.pair, channels.is_some())?;
    Ok(Up::Ask(text, asked, track))
}

/// The plan by which nothing goes up but this, and no request that waits is treated.
pub(crate) fn still(alloc: Global, change: Change, hand: Text, up: Up) -> PlannedStep
    ensures { result ≡ record { change = change; treated = 0; plays = []; hand = hand; up = up } }
{
    PlannedStep {
        change,
        treated: 0,
        plays: LinkedList::new(alloc),
        hand,
        up,
    }
}

impl PlannedStep {
    ghost use Rattle.std.specs.Prelude.{◌≡◌, [], true};
    ghost use Rattle.client_machine.specs.BlankPlans.{blank_plan};

    /// A plan by which nothing is done. It takes no memory, and [`plan`](crate::plan) writes over it.
    pub fn blank(alloc: Global) -> PlannedStep
        ensures { result ≡ blank_plan }
    {
        still(alloc, Change::Nothing, Text::new(alloc), Up::Nothing)
    }

    /// It becomes the plan by which nothing goes up but this, and no request that waits is treated.
    pub(crate) fn become_still(&mut self, alloc: Global, change: Change, hand: Text, up: Up)
        ensures { self.new
            ≡ record { change = change; treated = 0; plays = []; hand = hand; up = up } }
    {
        *self = still(alloc, change, hand, up);
    }

    /// It becomes the plan by which nothing is done. A plan is large, and most are so already.
    pub(crate) fn become_blank(&mut self, alloc: Global)
        ensures { self.new ≡ blank_plan }
    {
        if !self.is_blank() {
            *self = PlannedStep::blank(alloc);
        }
    }

    /// Whether nothing is done by it.
    fn is_blank(&self) -> bool
        ensures { result ≡ true → self.now ≡ blank_plan }
    {
        matches!(self.change, Change::Nothing)
            && self.treated == 0
            && self.plays.is_empty()
            && self.hand.is_empty()
            && !self.up.is_up()
    }
}

/// The PLAY that is due in the light of an event, where one is, with the next number.
pub(crate) fn due_up(alloc: Global, outlook: &Outlook<'_>, next: u32) -> Result<Option<Up>, Memory>
    ensures { IfOk result (λ up. up ≡ due_for next (sights_of outlook.now)) }
{
    let Some(place) = outlook.due_place() else {
        return Ok(None);
    };
    let session = outlook.session(place);
    let Some(play) = session.first else {
        unreachable!()
    };
    let text = due_text(alloc, session.id, play, next)?;
    Ok(Some(Up::Due(text)))
}

/// What becomes of the requests that wait, which are judged by the connection that is seen.
fn treat_after<'a>(
    alloc: Global,
    course: Course<'a>,
    outlook: &Outlook<'a>,
    plan: &mut PlannedStep,
) -> Result<(), Memory>
    requires pair { IfSome course.pair (λ one. one < PAIRS) }
    requires described { option_copied course.described ≡ option_copied outlook.now.described }
    requires begun { IsFinished course.next course.pair plan.old.change (begun plan.old.hand) plan.old }
    ensures { OnOk result ((last : Given)
        × IsTreatedBy course.entry.next course.entry.pair
        (given_by course.entry.bases.now (is_none course.entry.pair) (sights_of outlook.entry.now)
        (option_copied outlook.entry.now.described))
        last outlook.entry.now.slot.now.waiting plan.old.hand plan.old.change plan.new) }
{
    let slot = outlook.slot;
    if slot.waiting() == 0 {
        return Ok(());
    }
    let streams = outlook.streams(alloc)?;
    let mut sessions = outlook.sessions(&streams);
    treat_waiting(alloc, &mut sessions, course, slot, plan)
}

/// What goes up for a connection that the change of a plan leaves with no open request and as it is seen. The plan says so,
/// by which nothing goes up yet.
pub(crate) fn onward<'a>(
    alloc: Global,
    course: Course<'a>,
    outlook: &Outlook<'a>,
    plan: &mut PlannedStep,
) -> Result<(), Memory>
    requires pair { IfSome course.pair (λ one. one < PAIRS) }
    requires described { option_copied course.described ≡ option_copied outlook.now.described }
    requires begun { IsFinished course.next course.pair plan.old.change (begun plan.old.hand) plan.old }
    ensures { OnOk result (GoesOnward course.entry.bases.now course.entry.next course.entry.pair
        outlook.now.slot.now (sights_of outlook.now) (option_copied outlook.now.described) plan.old.hand
        plan.old.change plan.new) }
{
    if !outlook.slot.alive() {
        plan.up = leave(outlook);
        return Ok(());
    }
    if let Some(up) = due_up(alloc, outlook, course.next)? {
        plan.up = up;
        return Ok(());
    }
    treat_after(alloc, course, outlook, plan)
}

/// The closing TEARDOWN, where a session is left.
pub(crate) fn leave(outlook: &Outlook<'_>) -> Up
    ensures { result ≡ leave_up (filled_seen (sights_of outlook.now)) }
{
    if outlook.has_session() {
        Up::Leave
    } else {
        Up::Nothing
    }
}
