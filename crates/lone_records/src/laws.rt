//! Laws over the records of one player, and over those of what goes up. Each holds by its contract
//! alone: no call is made.
ghost use Rattle.std.specs.Prelude.{◌≡◌, ◌<◌, ◌^◌, ℕ, List};
ghost use Rattle.std.specs.List.{flat_map};
ghost use Rattle.gate_transcript.specs.declared.entry.Entry.{Entry};
ghost use Rattle.gateway_claim.specs.declared.event.ToUp.{ToUp};
ghost use Rattle.gateway_claim.specs.Follows.{IsHistory};
ghost use Rattle.gateway_claim.specs.Happenings.{HistoryEntry, happened};
ghost use Rattle.gateway_replay.specs.Events.{events_of};
ghost use Rattle.gateway_replay.specs.OneTranscript.{EntersAlone};
ghost use Rattle.gateway_replay.specs.RecordTexts.{records, up_record};
ghost use Rattle.lone_records.specs.LoneGateway.{records_alone};
ghost use Rattle.lone_records.specs.UpRecords.{record_due, spelled_parts, TellsUp};
ghost use Rattle.rtsp_uri.specs.declared.base.Bases.{Bases};
ghost use Rattle.upward_law.specs.Due.{stream_up};

/// Where a transcript enters one connection, the records of its history are those of a gateway that
/// has this player alone: what the player is handed, then what goes up, as the answer to the server's
/// own request and a request with the number 1, 2, 3 and so on, a SETUP with the lowest pair of
/// channels that none of its own streams has, then the close, then the cause.
pub fn the_records_of_one_player_are_its_own()
    ensures { (bases : Bases) (entries : List Entry) (history : List HistoryEntry) (i : ℕ)
        → i < 2 ^ 32
        → IsHistory bases history
        → happened history ≡ events_of entries
        → EntersAlone i entries
        → records history ≡ records_alone bases i (events_of entries) }
{}

/// What the server is handed for an entry stands in one record, the answer to its own request and then
/// the message, as the laws over these bytes have them; and there is no record where it is handed
/// nothing. So the bodies of these records of a history, one behind another, are all that the server is
/// handed in it, and the other records tell nothing of that.
pub fn what_goes_up_is_recorded()
    ensures entry { (up : ToUp) → up_record up ≡ flat_map spelled_parts (record_due up) }
    ensures history { (history : List HistoryEntry) → TellsUp (records history) (stream_up history) }
{}
