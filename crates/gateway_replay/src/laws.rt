//! Laws over the definitions of a replay. Each holds by its contract alone: no call is made.
ghost use Rattle.std.specs.Prelude.{◌≡◌, ℕ, Option, Some, List};
ghost use Rattle.gate_outside.specs.Causes.{Rose};
ghost use Rattle.rtsp_uri.specs.declared.base.Bases.{Bases};
ghost use Rattle.gate_transcript.specs.declared.entry.Entry.{Entry};
ghost use Rattle.gateway_claim.specs.Happenings.{HistoryEntry, happened};
ghost use Rattle.gateway_claim.specs.Cores.{IsCoreHistory};
ghost use Rattle.gateway_claim.specs.Follows.{IsHistory};
ghost use Rattle.gateway_claim.specs.OnePlayer.{HasAll};
ghost use Rattle.gateway_claim.specs.SeenRun.{IsSeenRun};
ghost use Rattle.run_status.specs.declared.status.Status.{Status};
ghost use Rattle.gateway_replay.specs.Events.{events_of};
ghost use Rattle.gateway_replay.specs.OneTranscript.{EntersAlone};
ghost use Rattle.gateway_replay.specs.Replays.{ReplaySays, FaultRose};
ghost use Rattle.gateway_replay.specs.Runs.{ToldInPart};
ghost use Rattle.gateway_replay.specs.Sound.{IsSoundTranscript, EndsSoundReplay};

use gateway_claim::Core;

/// Where a transcript enters one connection, the history of what its entries tell is that
/// connection's own, end to end. [`crate::replay`] writes the records of that history: so the bytes
/// that it writes tell what a gateway for this player alone hands out on what the transcript tells.
pub fn a_transcript_of_one_player_is_its_own()
    ensures { (bases : Bases) (entries : List Entry) (history : List HistoryEntry) (i : ℕ)
        → IsHistory bases history
        → happened history ≡ events_of entries
        → EntersAlone i entries
        → HasAll bases i history }
{}

/// What a player sees of a replay is a run of the table of states (RFC 2326, A.2), for the very history
/// whose records are written: what happens in it is what the entries tell, or the first part of that
/// where memory ran out or the sink failed. Nothing else is asked of the transcript.
pub fn a_replay_walks_the_table()
    ensures { (bases : Bases) (entries : List Entry) (history : List HistoryEntry) (i : ℕ)
        → IsHistory bases history
        → ToldInPart (happened history) (events_of entries)
        → IsSeenRun i history }
{}

/// A transcript without a fault, and no longer than the limit, is replayed whole, where the counts of
/// the source's and of the sink's faults did not rise: the answer is `Done`, and what was written is
/// the records of the history of all that its entries tell; or memory was wanting. The first two
/// premises are what [`crate::replay`] ensures of its answer.
pub fn a_sound_transcript_is_replayed<M: Core>()
    ensures { (bases : Bases) (status : Status) (all : List ℕ) (left before now : Option (List ℕ))
        (source_before source_now sink_before sink_now : ℕ)
        → ReplaySays (IsCoreHistory M.follows) bases status (Some all) left before now
        → FaultRose status source_before source_now sink_before sink_now
        → IsSoundTranscript all
        → (Rose source_before source_now → ⊥)
        → (Rose sink_before sink_now → ⊥)
        → EndsSoundReplay (IsCoreHistory M.follows) bases status all left before now }
{}
