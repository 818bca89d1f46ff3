//! A law over the notes of a history. It holds by its contract alone: no call is made.
ghost use Rattle.std.specs.Prelude.{◌≡◌, List};
ghost use Rattle.gateway_claim.specs.Happenings.{HistoryEntry, happened};
ghost use Rattle.gateway_replay.specs.Events.{events_of};
ghost use Rattle.gateway_hub.specs.Notes.{notes};
ghost use Rattle.recording_law.specs.RecordedHistory.{AreToldWhole};

/// The entries that were noted of a history tell, as a transcript, just what happened in it: each
/// item that was noted alone is that item again in its speaker's stream. It asks that each item is
/// one, and that nothing is said behind an item that can't be read.
pub fn what_was_noted_tells_the_history()
    ensures { (history : List HistoryEntry) → AreToldWhole history
        → events_of (notes history) ≡ happened history }
{}
