//! What is played: a scene at a hub or at places, and what is left of a hub that is closed.

use crate::calls::call_open;
use crate::over::{Over, word_in};
use crate::places::PlacesPlay;
use crate::ports::{play_bell, play_port};
use crate::stage::{HubStage, calm};
use gate_outside::Script;
use std::alloc::Global;
use std::sync::Wait;
use std::time::Clock;
use test_text::{CaseAnswer, CaseFault, CasePlayer, first_number};

/// What stands of a scene: an open hub before places, and these before a hub that is closed. Each is in a box, since what is
/// dropped through a reference is dear to prove where it lies in the struct itself.
#[derive(Drop)]
pub struct HubPlay<'a, W: Wait + Clock> {
    rt: &'a W,
    /// A hub that is open.
    stage: Option<Box<HubStage>>,
    /// What a hub that is closed gave back.
    over: Option<Box<Over>>,
    /// Places.
    places: Option<Box<PlacesPlay>>,
}

impl<'a, W: Wait + Clock> HubPlay<'a, W> {
    /// No scene has begun.
    pub fn new(rt: &'a W) -> HubPlay<'a, W> {
        HubPlay {
            rt,
            stage: None,
            over: None,
            places: None,
        }
    }

    /// Begins a hub whose recorder fails as this script says.
    fn begin(&mut self, alloc: Global, script: Script, answer: &mut CaseAnswer) {
        match HubStage::new(alloc, script) {
            Ok(stage) => self.stage = Some(stage),
            Err(fault) => answer.fail(fault),
        }
    }

    /// Begins a hub whose recorder fails at the note with the number of a line.
    fn begin_failing(&mut self, alloc: Global, more: &[u8], answer: &mut CaseAnswer) {
        let Some((number, _)) = first_number(more) else {
            return answer.unreadable();
        };
        let mut script = calm(alloc);
        if script.fails.push(number).is_err() {
            answer.fail(CaseFault::Memory);
        }
        self.begin(alloc, script, answer);
    }

    /// Begins places, behind which no hub is open.
    fn begin_places(&mut self, alloc: Global, answer: &mut CaseAnswer) {
        self.stage = None;
        match PlacesPlay::new(alloc) {
            Ok(places) => self.places = Some(places),
            Err(fault) => answer.fail(fault),
        }
    }

    /// Closes the hub.
    fn close(&mut self, alloc: Global, answer: &mut CaseAnswer) {
        match self.stage.take() {
            Some(stage) => match Box::into_inner(stage).close(alloc) {
                Ok(over) => {
                    self.over = Some(over);
                    self.places = None;
                }
                Err(fault) => answer.fail(fault),
            },
            None => answer.unreadable(),
        }
    }

    /// Makes the call of a line at what stands, and tells what came.
    fn call(&mut self, alloc: Global, line: &[u8], answer: &mut CaseAnswer) {
        if let Some(stage) = &mut self.stage {
            call_open(self.rt, alloc, stage, line, answer);
        } else if let Some(places) = &mut self.places {
            places.call(self.rt, alloc, line, answer);
        } else if let Some(over) = &self.over {
            over.call(alloc, line, answer);
        } else {
            answer.unreadable();
        }
    }
}

impl<'a, W: Wait + Clock> CasePlayer for HubPlay<'a, W> {
    fn play(&mut self, alloc: Global, line: &[u8], answer: &mut CaseAnswer) {
        let (word, more) = word_in(line);
        match word {
            "scene" => self.begin(alloc, calm(alloc), answer),
            "fail-note" => self.begin_failing(alloc, more, answer),
            "places" => self.begin_places(alloc, answer),
            "port" => play_port(self.rt, alloc, more, answer),
            "bell" => play_bell(self.rt, answer),
            "close" => self.close(alloc, answer),
            _ => self.call(alloc, line, answer),
        }
    }
}
