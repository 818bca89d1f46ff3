//! Laws over the bytes that the server is handed in a history. Each holds by its contract alone: no
//! call is made.
ghost use Rattle.std.specs.Prelude.{◌≡◌, ℕ, List, Some};
ghost use Rattle.rtsp_uri.specs.declared.base.Bases.{Bases};
ghost use Rattle.gateway_claim.specs.declared.event.Event.{Event};
ghost use Rattle.gateway_claim.specs.declared.event.UpMessage.TheVariants.{Request};
ghost use Rattle.gateway_claim.specs.Happenings.{HistoryEntry, happening_of};
ghost use Rattle.gateway_claim.specs.Follows.{IsHistory, Follows};
ghost use Rattle.gateway_claim.specs.OwnEvents.{own};
ghost use Rattle.upward_law.specs.HeaderNames.{HasEachHeaderOnce};
ghost use Rattle.upward_law.specs.ServerStream.{ServerRead, AreRead};
ghost use Rattle.upward_law.specs.OpenRequest.{IsOpenRequest};
ghost use Rattle.upward_law.specs.OwnForm.{read_alone, AreReadFor};
ghost use Rattle.upward_law.specs.Due.{bytes_up, stream_up, meant_for, all_meant, IsItemTaken, AreItemsTaken};

/// A stream of bytes to the server is read in one way at most.
pub fn a_stream_has_one_reading()
    ensures { (stream : List ℕ) (one other : List ServerRead) → AreRead stream one → AreRead stream other
        → one ≡ other }
{}

/// What the server is handed for an entry is read, by the lengths that it says itself, as the answer
/// that is due to its own request, and then as what the machine of the connection whose turn it is
/// asks alone: a player's request, a PLAY that waited and the TEARDOWN of a connection that closed
/// alike, each with the next number, and a SETUP with the lowest pair of channels that is free; or
/// a frame, on the pair that its stream has. So is all that it is handed in a history. It asks that
/// what comes of a player is one item at a time.
pub fn what_goes_up_is_read_as_it_was_meant()
    ensures entry { (bases : Bases) (earlier : List HistoryEntry) (entry : HistoryEntry)
        → IsHistory bases earlier
        → Follows bases earlier entry
        → IsItemTaken entry.happening
        → AreRead (bytes_up entry.outcome.to_up) (meant_for bases earlier entry) }
    ensures stream { (bases : Bases) (history : List HistoryEntry) → IsHistory bases history
        → AreItemsTaken history
        → AreRead (stream_up history) (all_meant bases history) }
{}

/// What an event brings of a player is one item, by its type. So the premise on items holds of every
/// history whose entries are events, or connections that enter.
pub fn an_event_brings_one_item()
    ensures { (event : Event) → IsItemTaken (happening_of event) }
{}

/// Each request that the server is handed is read as one, with the last number that was given, and the
/// books have it open for the connection whose turn it is, as one of the kind that its method and its
/// session tell. It says what this connection alone has open then: the player's request, by its
/// method, its URI and the id of its session, and a SETUP asks for the channels of its stream's pair;
/// or the PLAY that waited, for its session; or the TEARDOWN of the session at a place.
pub fn a_request_that_goes_up_is_the_open_one()
    ensures { (bases : Bases) (earlier : List HistoryEntry) (entry : HistoryEntry) (text : List ℕ)
        → IsHistory bases earlier
        → Follows bases earlier entry
        → entry.outcome.to_up.message ≡ Some (Request text)
        → IsOpenRequest bases earlier entry text }
{}

/// Each request that the server is handed, and the answer to its own, is one message in which no two
/// headers have one name, without ASCII case; the number and the length of the body are among them. So
/// the server goes by the one CSeq, Session, Range, Scale, Transport or Content-Length that was meant,
/// whichever of a name it takes, also in a PLAY that waited and in the TEARDOWN of a connection that
/// closed.
pub fn each_header_that_goes_up_stands_once()
    ensures request { (bases : Bases) (earlier : List HistoryEntry) (entry : HistoryEntry) (text : List ℕ)
        → IsHistory bases earlier
        → Follows bases earlier entry
        → entry.outcome.to_up.message ≡ Some (Request text)
        → HasEachHeaderOnce text }
    ensures answer { (bases : Bases) (earlier : List HistoryEntry) (entry : HistoryEntry) (text : List ℕ)
        → Follows bases earlier entry
        → entry.outcome.to_up.answer ≡ Some text
        → HasEachHeaderOnce text }
{}

/// What is read of the bytes that the server is handed in the turns of a connection is, in that
/// connection's own numbers, and without the channels of the server's one connection, exactly what the
/// machine alone asks on its own events: each request with all that it says, and each frame with its
/// load. It asks that what comes of a player is one item at a time.
pub fn what_is_read_of_a_connection_is_what_it_asks_alone()
    ensures { (bases : Bases) (history : List HistoryEntry) (i : ℕ) → IsHistory bases history
        → AreItemsTaken history
        → AreReadFor i history (read_alone bases (own bases i history)) }
{}
