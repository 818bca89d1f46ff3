//! Laws over the definitions of the machine. Each holds by its contract alone: no call is made.
ghost use Rattle.std.specs.Prelude.{◌≡◌, ◌+◌, ◌≤◌, ◌&&◌, ℕ, false, is_none, Option, Some, None, option_map};
ghost use Rattle.rtsp_uri.specs.declared.base.Bases.{Bases};
ghost use Rattle.client_slot.specs.Client.{Client};
ghost use Rattle.client_slot.specs.Renumber.{client_under};
ghost use Rattle.client_machine.specs.Alone.{private_after, is_live, is_empty_list, shut_alone};
ghost use Rattle.session_one.specs.declared.parts.TheConstants.{MOST_SESSIONS};
ghost use Rattle.client_machine.specs.AskCounts.{requests_brought};
ghost use Rattle.client_machine.specs.Bounds.{streams_of, AreAllStreamsApart, IsBelow};
ghost use Rattle.client_machine.specs.OpenRequests.{has_setup};
ghost use Rattle.client_machine.specs.Events.{PrivateEvent};
ghost use Rattle.client_machine.specs.Step.{hear, step};
ghost use Rattle.client_machine.specs.Renumber.{effect_under, event_under, IsToldApart};
ghost use Rattle.std.specs.Prelude.{List};

/// A step is the same under every numbering of requests and of pairs of channels that tells apart
/// what the event names.
pub fn a_step_keeps_any_numbering()
    ensures { (numbers pairs : ℕ → ℕ) (bases : Bases) (number : ℕ) (pair : Option ℕ) (client : Client)
        (event : PrivateEvent)
        → IsToldApart numbers pairs client event
        → step bases (numbers number) (option_map pairs pair) (client_under numbers pairs client)
        (event_under numbers pairs event)
        ≡ effect_under numbers pairs (step bases number pair client event) }
{}

/// The numbers that a connection alone keeps are those of its own requests.
pub fn own_numbers_are_kept()
    ensures { (bases : Bases) (events : List PrivateEvent)
        → IsBelow (private_after bases events).count (private_after bases events).client }
{}

/// Whether a pair of channels is free matters only where a SETUP waits.
pub fn a_free_pair_matters_to_a_setup_alone()
    ensures { (bases : Bases) (number pair : ℕ) (client : Client) (event : PrivateEvent)
        → has_setup (hear bases number client event).effect.client.waiting ≡ false
        → step bases number None client event ≡ step bases number (Some pair) client event }
{}

/// A step leaves a connection alive exactly where it was and is not closed, and a connection alone is
/// alive until it is closed.
pub fn what_is_not_closed_is_alive()
    ensures step { (bases : Bases) (number : ℕ) (pair : Option ℕ) (client : Client) (event : PrivateEvent)
        → (step bases number pair client event).client.alive
        ≡ (client.alive && is_none (step bases number pair client event).close) }
    ensures run { (bases : Bases) (events : List PrivateEvent)
        → is_live (private_after bases events) ≡ is_empty_list (shut_alone bases events) }
{}

/// The streams of a connection alone have different pairs of channels, and no two of them have a
/// channel of its player in common. The stream of an open SETUP is one of them.
pub fn own_streams_are_apart()
    ensures { (bases : Bases) (events : List PrivateEvent)
        → AreAllStreamsApart (streams_of (private_after bases events).client) }
{}

/// A connection asks the server no more often than its player asked, and once more for each session that
/// it may leave behind.
pub fn no_more_goes_up_than_came()
    ensures { (bases : Bases) (events : List PrivateEvent)
        → (private_after bases events).count ≤ requests_brought events + MOST_SESSIONS }
{}
