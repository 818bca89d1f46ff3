//! What events of a connection do.
ghost use Rattle.std.specs.Prelude.{◌≤◌};
ghost use Rattle.client_machine.specs.Plans.{incoming_seen, CanCome, IsReady};

use crate::items::item_in;
use crate::trial::Trial;
use client_machine::{
    CloseWhy, Done, Incoming, PlannedStep, ServerReply, channel_for, grant_said, half_for, plan,
    plan_close,
};
use client_slot::Slot;
use head_two::{Reply2, read_reply};
use rtsp_head::ItemKind;
use rtsp_small::NotifyReason;
use session_two::Names;
use std::alloc::Global;
use std::str;
use test_text::{CaseAnswer, CaseFault, first_word};

/// The pair of channels to the server that is free before there is a first session.
const FIRST_PAIR: u8 = 5;
/// The one that is free then.
const NEXT_PAIR: u8 = 6;

impl Trial {
    /// Has the event of a line happen to a connection, and tells what it does, and whether its channels agree then:
    ///
    /// - `new`: the connection enters;
    /// - `ask REQUEST`: its player asks;
    /// - `tell REPLY`: the server replies to its open request;
    /// - `end ID`: the server tells the end of what plays in the session with this id, or in `abcd1234`;
    /// - `close`: the player's connection ends.
    pub fn event(&mut self, alloc: Global, line: &[u8], answer: &mut CaseAnswer) {
        answer.push(b"\n= ");
        let (word, rest) = first_word(line);
        match str::from_utf8(word).unwrap_or("") {
            "new" => {
                answer.push(b"-");
                self.renew(alloc, answer);
            }
            "ask" => self.ask(alloc, rest, answer),
            "tell" => self.hear(alloc, rest, answer),
            "end" => {
                let id = if rest.is_empty() { b"abcd1234" } else { rest };
                let end = Incoming::Notice(id, NotifyReason::EndOfStream, Names::Unsaid);
                self.come(alloc, &end, answer);
            }
            "close" => self.close(alloc, answer),
            _ => answer.unreadable(),
        }
        push_agreement(agrees(&self.slot), answer);
    }

    /// The player's connection ends.
    fn close(&mut self, alloc: Global, answer: &mut CaseAnswer) {
        let plan = plan_close(alloc, &self.slot, CloseWhy::Ended);
        self.carry_out(alloc, plan, answer);
    }

    /// The player asks the request that a text means.
    fn ask(&mut self, alloc: Global, text: &[u8], answer: &mut CaseAnswer) {
        match item_in(alloc, text) {
            Ok(item) => match item.kind {
                ItemKind::Request => self.come(alloc, &Incoming::Request(&item), answer),
                _ => answer.unreadable(),
            },
            Err(fault) => answer.fail(fault),
        }
    }

    /// The server tells the reply that a text means.
    fn hear(&mut self, alloc: Global, text: &[u8], answer: &mut CaseAnswer) {
        match item_in(alloc, text) {
            Ok(item) => match read_reply(alloc, &item) {
                Ok(reply) => self.hear_reply(alloc, &reply, answer),
                Err(_fault) => answer.unreadable(),
            },
            Err(fault) => answer.fail(fault),
        }
    }

    /// The server tells a reply.
    fn hear_reply(&mut self, alloc: Global, reply: &Reply2<'_>, answer: &mut CaseAnswer) {
        let source = match grant_said(reply) {
            Some(grant) => grant.ssrc,
            None => None,
        };
        let told = ServerReply { reply, source };
        self.come(alloc, &Incoming::Reply(told), answer);
    }

    /// Something comes.
    fn come(&mut self, alloc: Global, incoming: &Incoming<'_>, answer: &mut CaseAnswer)
        requires { CanCome (incoming_seen incoming.now) }
    {
        let next = self.number.wrapping_add(1);
        let pair = Some(free_pair(&self.slot));
        let mut step = PlannedStep::blank(alloc);
        match plan(
            alloc,
            &self.bases,
            &self.slot,
            next,
            pair,
            incoming,
            &mut step,
        ) {
            Ok(()) => self.carry_out(alloc, step, answer),
            Err(_memory) => answer.fail(CaseFault::Memory),
        }
    }

    /// Carries a plan out, and counts the request that goes up.
    fn carry_out(&mut self, alloc: Global, mut plan: PlannedStep, answer: &mut CaseAnswer)
        requires { IsReady self.old.slot plan }
    {
        let open = self.number;
        let next = open.wrapping_add(1);
        let asks = plan.asks();
        let done = plan.commit(alloc, &mut self.slot, open, next);
        if asks {
            self.number = next;
        }
        push_done(&done, answer);
    }
}

/// The pair of channels to the server that is free, which is 6 at most.
fn free_pair(slot: &Slot) -> u8
    ensures { result ≤ 6 }
{
    match slot.session(0) {
        Some(_) => NEXT_PAIR,
        None => FIRST_PAIR,
    }
}

/// Appends what was done: what the player is handed; behind `^` the request that goes up; and `!` where the connection closes.
/// A dash is nothing.
fn push_done(done: &Done, answer: &mut CaseAnswer) {
    answer.push_shown(done.hand.as_bytes());
    if let Some(request) = &done.request {
        answer.push(b"^");
        answer.push_shown(request.as_bytes());
    }
    if done.close.is_some() {
        answer.push(b"!");
    }
    if answer.as_bytes() == b"\n= ".as_slice() {
        answer.push(b"-");
    }
}

/// Appends whether the channels agree.
fn push_agreement(agree: bool, answer: &mut CaseAnswer) {
    answer.push(if agree {
        b"\n= channels agree".as_slice()
    } else {
        b"\n= channels differ"
    });
}

/// Whether each of a player's channels stands for the half whose channel it is.
fn agrees(slot: &Slot) -> bool {
    for channel in 0..4 {
        if let Some(half) = half_for(slot, channel) {
            if channel_for(slot, half.pair, half.half) != Some(channel) {
                return false;
            }
        }
    }
    true
}
