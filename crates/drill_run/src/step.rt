//! The steps of a player.
ghost use Rattle.std.specs.Prelude.{◌≡◌};

/// What a player does next.
#[derive(Clone, Copy, Debug, PartialEq, Eq)]
pub enum PlayerStep {
    /// It asks what the gateway can do.
    Options,
    /// It asks for the description.
    Describe,
    /// It sets up the first track, which makes a session.
    SetupFirst,
    /// It sets up the second track.
    SetupSecond,
    /// It plays a part, and asks for a second part behind it.
    Play,
    /// It sends a frame on the second channel of its first track.
    Frame,
    /// It ends the session.
    Teardown,
    /// It ends the connection.
    End,
}

impl PlayerStep {
    ghost use Rattle.drill_run.specs.Steps.{step_after, requests_of_step};

    /// The step after this one; none after the last.
    pub fn following(self) -> Option<PlayerStep>
        ensures { result ≡ step_after self }
    {
        match self {
            PlayerStep::Options => Some(PlayerStep::Describe),
            PlayerStep::Describe => Some(PlayerStep::SetupFirst),
            PlayerStep::SetupFirst => Some(PlayerStep::SetupSecond),
            PlayerStep::SetupSecond => Some(PlayerStep::Play),
            PlayerStep::Play => Some(PlayerStep::Frame),
            PlayerStep::Frame => Some(PlayerStep::Teardown),
            PlayerStep::Teardown => Some(PlayerStep::End),
            PlayerStep::End => None,
        }
    }

    /// How many requests it sends.
    pub fn requests(self) -> u64
        ensures { result ≡ requests_of_step self }
    {
        match self {
            PlayerStep::Play => 2,
            PlayerStep::Frame | PlayerStep::End => 0,
            _ => 1,
        }
    }
}
