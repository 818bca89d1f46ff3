//! Whether a link is over, asked as seldom as that may change.
ghost use Rattle.std.specs.Prelude.{◌≡◌, false};

use crate::common::Common;
use gateway_claim::Core;
use gateway_hub::Recorder;
use std::sync::Wait;

/// Whether a link is over, as far as a thread that serves it knows.
#[derive(Clone, Copy)]
pub struct Life {
    /// Whether it is over, as the hub said when it was asked last.
    pub over: bool,
    asked: Option<u64>,
}

impl Life {
    /// The hub was not asked yet.
    pub fn new() -> Life
        ensures { result.over ≡ false }
    {
        Life {
            over: false,
            asked: None,
        }
    }

    /// Whether the link with this number is over. The hub is asked only where that may have changed.
    pub fn is_over<M: Core, R: Recorder, W: Wait>(
        &mut self,
        common: &Common<'_, M, R, W>,
        conn: Option<u32>,
    ) -> bool
        ensures { result ≡ self.new.over }
    {
        let overs = common.signals.overs();
        if self.asked != Some(overs) {
            self.asked = Some(overs);
            self.over = !common.is_open(conn);
        }
        self.over
    }
}
