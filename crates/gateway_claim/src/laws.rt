//! Laws over the definitions of a history. Each holds by its contract alone: no call is made.
ghost use Rattle.std.specs.Prelude.{◌≡◌, ◌+◌, ◌^◌, ℕ, slice_get, Some, None, IfSome, List, map};
ghost use Rattle.rtsp_head.specs.Items.{Shape};
ghost use Rattle.rtsp_head.specs.declared.item.ItemKind.TheVariants as items;
ghost use Rattle.rtsp_uri.specs.declared.base.Bases.{Bases};
ghost use Rattle.rtsp_small.specs.declared.cseq.TheConstants.{CSEQ_TWO_DIGITS, LAST_CSEQ_TWO};
ghost use Rattle.client_machine.specs.Alone.{private_after};
ghost use Rattle.client_machine.specs.Bounds.{streams_of, AreAllStreamsApart};
ghost use Rattle.client_machine.specs.Events.{PrivateEvent};
ghost use Rattle.gateway_claim.specs.declared.event.Closed.TheVariants.{Nobody};
ghost use Rattle.gateway_claim.specs.Apart.{pairs_held, session_held, IsFrameDown, IsFrameUp};
ghost use Rattle.gateway_claim.specs.OnePlayer.{asked_alone, asked_up, spelled_for, spelled_up, IsOnlyPlayer, HasAll};
ghost use Rattle.gateway_claim.specs.ServerItems.{frames, heard};
ghost use Rattle.gateway_claim.specs.Happenings.{Happening, takes, hears, HistoryEntry, fault_in, sent, shut, nothing_up};
ghost use Rattle.gateway_claim.specs.OwnEvents.{books_of, own};
ghost use Rattle.gateway_claim.specs.Follows.{IsHistory, Follows, history_of};
ghost use Rattle.gateway_claim.specs.Cores.{IsCoreHistory, IsOrderly};
ghost use Rattle.gateway_claim.specs.BooksAndSlots.{IsJoined, AreSound};
ghost use Rattle.gateway_claim.specs.Turns.{client_alone, IsItsTurn, IsSteppedBy};
ghost use Rattle.gateway_claim.specs.SeenRun.{AreItemsHeard, IsSeenRun};

use crate::cores::Core;

/// For every list of happenings, newest first, there is exactly one history that tells them:
/// `history_of`.
pub fn what_happens_has_one_history()
    ensures { (bases : Bases) (happenings : List Happening)
        → IsHistory bases (history_of bases happenings)
        × (map (λ e. e.happening) (history_of bases happenings) ≡ happenings)
        × ((other : List HistoryEntry) → IsHistory bases other
        → map (λ e. e.happening) other ≡ happenings
        → other ≡ history_of bases happenings) }
{}

/// Connections that take the same events are handed the same bytes and closed alike, in any two
/// histories with the same bases and under any two numbers; and what the server is asked for each is
/// one list of requests and frames, those of the machine alone with its own numbers. Each history
/// only spells them in the numbers and on the channels of its connection to the server.
pub fn equal_own_events()
    ensures { (bases : Bases) (one other : List HistoryEntry) (i j : ℕ) → IsHistory bases one
        → IsHistory bases other
        → own bases i one ≡ own bases j other
        → (sent i one ≡ sent j other)
        × (shut i one ≡ shut j other)
        × (asked_up i one ≡ map (spelled_for (books_of one) i) (asked_alone bases (own bases i one)))
        × (asked_up j other ≡ map (spelled_for (books_of other) j) (asked_alone bases (own bases i one))) }
{}

/// The server is asked, for each connection, exactly what the machine alone asks on that connection's
/// own events, in order, in the numbers and on the channels of the one connection.
pub fn the_server_is_asked_what_each_asks_alone()
    ensures { (bases : Bases) (history : List HistoryEntry) (i : ℕ) → IsHistory bases history
        → asked_up i history ≡ spelled_up (books_of history) i bases (own bases i history) }
{}

/// Where one connection alone ever entered, the history is that connection's own, end to end: all that
/// any player is handed is what its machine hands out on its own events, in order; the server is asked
/// exactly what that machine sends up; it is closed as there, and nobody else is.
pub fn one_player_has_all_that_is_handed_out()
    ensures { (bases : Bases) (history : List HistoryEntry) (i : ℕ) → IsHistory bases history
        → IsOnlyPlayer i history
        → HasAll bases i history }
{}

/// While the connection to the server stands, the books of a history and what each connection alone
/// has agree: each of its streams has a pair of channels that it holds and nobody else does, its open
/// request is owed to it and is its only one, and its sessions are bound to it.
pub fn books_and_connections_agree()
    ensures sound { (bases : Bases) (history : List HistoryEntry) → IsHistory bases history
        → fault_in history ≡ None
        → AreSound (books_of history) }
    ensures joined { (bases : Bases) (history : List HistoryEntry) (i : ℕ) → IsHistory bases history
        → fault_in history ≡ None
        → IsJoined (books_of history) i (private_after bases (own bases i history)).client
        (private_after bases (own bases i history)).count }
{}

/// While the connection to the server stands, no two streams have one pair of channels on it:
/// neither two streams of one connection, nor those of two. On a player's own connection no two of
/// its streams have a channel in common. The stream of an open SETUP is one of them.
pub fn no_two_streams_share_channels()
    ensures pairs { (bases : Bases) (history : List HistoryEntry) (i j a b pair : ℕ)
        → IsHistory bases history
        → fault_in history ≡ None
        → slice_get (pairs_held bases history i) a ≡ Some pair
        → slice_get (pairs_held bases history j) b ≡ Some pair
        → (i ≡ j) × (a ≡ b) }
    ensures channels { (bases : Bases) (history : List HistoryEntry) (i : ℕ)
        → AreAllStreamsApart (streams_of (client_alone bases history i)) }
{}

/// While the connection to the server stands, no session is there twice: no two connections have it,
/// and none has it at two places.
pub fn no_two_connections_have_one_session()
    ensures { (bases : Bases) (history : List HistoryEntry) (i j a b : ℕ) (id : List ℕ)
        → IsHistory bases history
        → fault_in history ≡ None
        → session_held bases history i a ≡ Some id
        → session_held bases history j b ≡ Some id
        → (i ≡ j) × (a ≡ b) }
{}

/// A frame of the server is handed to no player but the one whose stream has its channel, as that
/// frame on the player's own channel for it. Nothing else comes of it.
pub fn a_frame_of_the_server_reaches_its_holder_alone()
    ensures reaches { (bases : Bases) (earlier : List HistoryEntry) (entry : HistoryEntry) (frame : Shape)
        (channel : ℕ) (rest : List ℕ)
        → IsHistory bases earlier
        → Follows bases earlier entry
        → entry.happening ≡ hears frame
        → heard frame ≡ frames channel rest
        → IfSome entry.outcome.to_client (IsFrameDown bases earlier channel rest) }
    ensures alone { (bases : Bases) (earlier : List HistoryEntry) (entry : HistoryEntry) (frame : Shape)
        (channel : ℕ) (rest : List ℕ)
        → IsHistory bases earlier
        → Follows bases earlier entry
        → entry.happening ≡ hears frame
        → heard frame ≡ frames channel rest
        → (entry.outcome.to_up ≡ nothing_up) × (entry.outcome.closed ≡ Nobody) × (entry.outcome.fault ≡ None) }
{}

/// A frame of a player is handed to no player. It goes up on no channel but that of the stream which
/// has the player's channel. Nothing else comes of it.
pub fn a_frame_of_a_player_goes_up_on_its_own_pair()
    ensures goes { (bases : Bases) (earlier : List HistoryEntry) (entry : HistoryEntry) (i : ℕ)
        (frame : Shape)
        → IsHistory bases earlier
        → Follows bases earlier entry
        → entry.happening ≡ takes i frame
        → frame.kind ≡ items.Frame
        → IfSome entry.outcome.to_up.message (IsFrameUp bases earlier i frame) }
    ensures alone { (bases : Bases) (earlier : List HistoryEntry) (entry : HistoryEntry) (i : ℕ)
        (frame : Shape)
        → IsHistory bases earlier
        → Follows bases earlier entry
        → entry.happening ≡ takes i frame
        → frame.kind ≡ items.Frame
        → (entry.outcome.to_client ≡ None)
        × (entry.outcome.to_up.answer ≡ None)
        × (entry.outcome.closed ≡ Nobody)
        × (entry.outcome.fault ≡ None) }
{}

/// At the turn of a connection, what is handed out, and what the connection is then, is one step of
/// the machine in the numbers and on the channels of all players. No other connection is touched.
pub fn a_turn_is_one_step_by_the_books()
    ensures { (bases : Bases) (history : List HistoryEntry) (i : ℕ) (happening : Happening)
        (own_form raw : PrivateEvent)
        → IsItsTurn bases history i happening own_form raw
        → IsSteppedBy bases history i happening raw }
{}

/// What a player sees is a run of the table of states (RFC 2326, A.2). The replies that are read from
/// the pieces, each a stream in which whole frames are passed over, answer the first of its requests,
/// each one request in order, and have its number. For each session's id a walk from Init goes through
/// its replies: a success goes by the row for the method of its request, and any other reply leaves the
/// state; before each of them what played may have ended.
/// What comes of the server are items, as each event of a core is one by its type.
pub fn replies_walk_the_table()
    ensures { (bases : Bases) (history : List HistoryEntry) (i : ℕ) → IsHistory bases history
        → AreItemsHeard history
        → IsSeenRun i history }
{}

/// The greatest number that goes up is the greatest that is read in a reply.
pub fn the_last_number_is_the_greatest_read()
    ensures { LAST_CSEQ_TWO + 1 ≡ 10 ^ CSEQ_TWO_DIGITS }
{}

/// An entry that follows a history hands out and closes what an entry of any core may.
pub fn entries_are_orderly()
    ensures { (bases : Bases) (earlier : List HistoryEntry) (entry : HistoryEntry) → IsHistory bases earlier
        → Follows bases earlier entry
        → IsOrderly earlier entry }
{}

/// A list of happenings has at most one history of a core, between given addresses.
pub fn at_most_one_history_of_a_core<M: Core>()
    ensures { (bases : Bases) (one other : List HistoryEntry) → IsCoreHistory M.follows bases one
        → IsCoreHistory M.follows bases other
        → map (λ e. e.happening) one ≡ map (λ e. e.happening) other
        → one ≡ other }
{}
