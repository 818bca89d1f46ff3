//! Laws over the definitions of a drill. Each holds by its contract alone: no call is made.
ghost use Rattle.std.specs.Prelude.{◌≡◌, ◌+◌, ◌*◌, ◌^◌, ◌≤◌, ◌<◌, ℕ, false, Option, List, [], length};
ghost use Rattle.gate_outside.specs.Causes.{Rose};
ghost use Rattle.rtsp_uri.specs.declared.base.Bases.{Bases};
ghost use Rattle.session_one.specs.declared.parts.TheConstants.{MOST_SESSIONS};
ghost use Rattle.gateway_claim.specs.Cores.{IsCoreHistory};
ghost use Rattle.gateway_mux.specs.declared.mux.Mux.{Mux};
ghost use Rattle.gateway_mux.specs.Stands.{Stands, bases_of};
ghost use Rattle.run_status.specs.declared.status.Status.{Status};
ghost use Rattle.run_status.specs.declared.status.Status.TheVariants.{Done, SinkFault};
ghost use Rattle.drill_run.specs.declared.stage.DrillStage.{DrillStage};
ghost use Rattle.drill_run.specs.declared.whole_drill.TheConstants.{MOST_PLAYER_TURNS};
ghost use Rattle.drill_run.specs.Plays.{Plays, HasRunOn};
ghost use Rattle.drill_run.specs.Reports.{TellsDrill, DrillSays, EndsDrill, IsDrilledHistory, drilled_front, drilled_up};
ghost use Rattle.drill_run.specs.Turns.{Drilled, DrillRun, candidates};
ghost use Rattle.drill_run.specs.CountSteps.{counts_of};
ghost use Rattle.drill_run.specs.TurnCounts.{steps_taken, requests_heard};

use gateway_claim::Core;

/// A drill is played to its end and its lines are written, where the count of the sink's faults did
/// not rise: the answer is `Done`; or memory was wanting, and nothing was written. The first two
/// premises are what [`crate::drill`] and [`crate::drill_on`] ensure of their answer.
pub fn a_drill_is_written<M: Core>()
    ensures drilled { (players number : ℕ) (status : Status) (before now : Option (List ℕ))
        (sink_before sink_now : ℕ)
        → DrillSays IsDrilledHistory players number status before now
        → (status ≡ SinkFault → Rose sink_before sink_now)
        → (Rose sink_before sink_now → ⊥)
        → EndsDrill IsDrilledHistory players number status before now }
    ensures on_a_core { (bases : Bases) (players number : ℕ) (status : Status)
        (before now : Option (List ℕ)) (sink_before sink_now : ℕ)
        → DrillSays (IsCoreHistory M.follows bases) players number status before now
        → (status ≡ SinkFault → Rose sink_before sink_now)
        → (Rose sink_before sink_now → ⊥)
        → EndsDrill (IsCoreHistory M.follows bases) players number status before now }
{}

/// A drill is fixed by its words: of so many players, from one number, there is one text, of the
/// multiplexer and of any core between given addresses. So two runs that are `Done`, into sinks that
/// told the same before, leave them telling the same.
pub fn equal_words_have_one_drill<M: Core>()
    ensures drilled { (players number : ℕ) (one other : List ℕ)
        → TellsDrill IsDrilledHistory players number one
        → TellsDrill IsDrilledHistory players number other
        → one ≡ other }
    ensures written { (players number : ℕ) (before one other : Option (List ℕ))
        → DrillSays IsDrilledHistory players number Done before one
        → DrillSays IsDrilledHistory players number Done before other
        → one ≡ other }
    ensures on_a_core { (bases : Bases) (players number : ℕ) (one other : List ℕ)
        → TellsDrill (IsCoreHistory M.follows bases) players number one
        → TellsDrill (IsCoreHistory M.follows bases) players number other
        → one ≡ other }
{}

/// Each turn of a drill is a step of a player, of which each has eight at most, or answers one of the
/// requests that came to the server. Once the drill is over all of these are answered.
pub fn each_turn_is_a_step_or_an_answer()
    ensures going { (players number : ℕ) (drilled : Drilled) → DrillRun players number drilled
        → drilled.turns + length drilled.server.waiting
        ≡ steps_taken drilled.players + requests_heard drilled.server }
    ensures over { (players number : ℕ) (drilled : Drilled) → DrillRun players number drilled
        → candidates drilled ≡ []
        → drilled.turns ≡ steps_taken drilled.players + requests_heard drilled.server }
    ensures steps { (players number : ℕ) (drilled : Drilled) → DrillRun players number drilled
        → steps_taken drilled.players ≤ 8 * players }
{}

/// The server of a drill is asked no more than the players ask, and for each of them once more for each
/// of the sessions that it may leave behind. These are counts that the drill prints.
pub fn the_server_is_asked_little_more_than_players_ask()
    ensures { (players number : ℕ) (drilled : Drilled) → DrillRun players number drilled
        → IsDrilledHistory drilled.history
        → (counts_of drilled.history).upstream ≤ (counts_of drilled.history).requests + MOST_SESSIONS * players }
{}

/// A player of a drill asks seven times at most, whatever core it plays on. This is a count that the
/// drill prints.
pub fn a_player_asks_at_most_seven_times()
    ensures { (players number : ℕ) (drilled : Drilled) → players < 2 ^ 32
        → DrillRun players number drilled
        → (counts_of drilled.history).requests ≤ 7 * players }
{}

/// The server of a drill is asked six times at most for each player: the gateway answers OPTIONS by
/// itself, and a player has one session, which is torn down once. This is a count that the drill
/// prints.
pub fn the_server_is_asked_at_most_six_times_for_a_player()
    ensures { (players number : ℕ) (drilled : Drilled) → players < 2 ^ 32
        → DrillRun players number drilled
        → IsDrilledHistory drilled.history
        → (counts_of drilled.history).upstream ≤ 6 * players }
{}

/// The server of a drill is asked no more than goes up of the multiplexer, as the drill counts it.
pub fn the_server_hears_no_more_than_goes_up()
    ensures { (players number : ℕ) (drilled : Drilled) → DrillRun players number drilled
        → IsDrilledHistory drilled.history
        → requests_heard drilled.server ≤ (counts_of drilled.history).upstream }
{}

/// A drill of the multiplexer has at most 14 turns for each of its players: eight steps, and answers to
/// six requests. So [`crate::drill`] never meets its limit of turns: what is so of a drill that was left
/// there, of whatever core, is not so of a multiplexer between the drill's addresses.
pub fn no_drill_meets_the_limit_of_turns()
    ensures turns { (players number : ℕ) (drilled : Drilled) → players < 2 ^ 32
        → DrillRun players number drilled
        → IsDrilledHistory drilled.history
        → drilled.turns ≤ MOST_PLAYER_TURNS * players }
    ensures limit { (players number : ℕ) (mux : Mux) (stage : DrillStage) (between : Bases)
        → players < 2 ^ 32
        → between.front.text ≡ drilled_front
        → between.up.text ≡ drilled_up
        → HasRunOn false players number (Plays Stands bases_of mux stage between)
        → ⊥ }
{}
