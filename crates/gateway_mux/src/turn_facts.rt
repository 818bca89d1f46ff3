//! What is known of a turn before its plan.

use crate::act::Act;
use crate::settlement::Settlement;
use gate_bytes::Text;

/// What is known of the turn of a connection before its plan.
#[derive(Drop)]
pub(crate) struct TurnFacts {
    /// The connection.
    pub conn: u32,
    /// The number of its open request, which a reply answers; else 0.
    pub number: u32,
    /// What a final reply settles.
    pub settled: Option<Settlement>,
    /// The answer that the server is due.
    pub answer: Option<Text>,
}

impl TurnFacts {
    ghost use Rattle.std.specs.Prelude.{◌≡◌, None};
    ghost use Rattle.gateway_mux.specs.Acts.{answers_alone};

    /// A connection has its turn, and nothing else is known.
    pub fn alone(conn: u32) -> TurnFacts
        ensures { result ≡ record { conn = conn; number = 0; settled = None; answer = None } }
    {
        TurnFacts {
            conn,
            number: 0,
            settled: None,
            answer: None,
        }
    }

    /// The server is answered, where it asked, and no connection has its turn.
    pub fn answers(self) -> Act
        ensures { result ≡ answers_alone self.answer }
    {
        let TurnFacts { answer, .. } = self;
        match answer {
            Some(answer) => Act::Answers(answer),
            None => Act::Nothing,
        }
    }
}
