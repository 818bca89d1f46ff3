//! A PLAY that is to wait, with its memory.
ghost use Rattle.std.specs.Prelude.{◌≡◌, IfOk};

use gate_bytes::Memory;
use session_one::Play;
use std::alloc::Global;
use std::marker::Model;

/// A PLAY with the memory in which it waits, so that a queue has room for a pointer alone. Contracts see the PLAY.
#[derive(Drop)]
pub struct WaitingPlay {
    play: Box<Play>,
}

impl Model for WaitingPlay {
    ghost use Rattle.session_one.specs.declared.parts.Play.{Play};

    ghost Value = { Play };

    ghost view = { λ waiting. waiting.play.value };
}

impl WaitingPlay {
    /// A PLAY with its memory. Where that is wanting, the PLAY is lost, and the answer is [`Memory`].
    pub fn new(alloc: Global, play: Play) -> Result<WaitingPlay, Memory>
        ensures { IfOk result (λ waiting. waiting ≡ play) }
    {
        match Box::new(alloc, play) {
            Ok(play) => Ok(WaitingPlay { play }),
            Err(_) => Err(Memory),
        }
    }

    /// The PLAY.
    pub(crate) fn play(&self) -> &Play
        ensures { result.now ≡ self.now }
    {
        &self.play
    }

    /// The PLAY, which waits no longer.
    pub(crate) fn into_play(self) -> Play
        ensures { result ≡ self }
    {
        Box::into_inner(self.play)
    }
}
