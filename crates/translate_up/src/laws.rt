//! What holds of every decision. Each function does nothing: its contract is the law.
ghost use Rattle.std.specs.Prelude.{◌≡◌, ℕ, ◌+◌, ◌<◌, ◌≤◌, ◌^◌, List, Option, Some, Err, length};
ghost use Rattle.rtsp_head.specs.declared.item.TheConstants.{MOST_HEAD};
ghost use Rattle.rtsp_head.specs.Items.{Shape};
ghost use Rattle.rtsp_transport.specs.declared.channels.Pair.{Pair};
ghost use Rattle.rtsp_small.specs.declared.method.Method.{Method};
ghost use Rattle.rtsp_uri.specs.declared.word.TheConstants.{LONGEST_BASE};
ghost use Rattle.head_one.specs.declared.request.Request1.{Request1};
ghost use Rattle.head_one.specs.Refusals.{first_code};
ghost use Rattle.session_one.specs.declared.parts.Track.{Track};
ghost use Rattle.translate_up.specs.Channels.{free_pair, IsLowestFree};
ghost use Rattle.translate_up.specs.Views.{Given, Judged, with_pairs};
ghost use Rattle.translate_up.specs.Upward.{request_up, with_transport, without_transport};
ghost use Rattle.translate_up.specs.Decisions.{decide};
ghost use Rattle.translate_up.specs.Fields.{Said};
ghost use Rattle.rtsp_range.specs.declared.range.Range.{Range};
ghost use Rattle.translate_up.specs.Rules.{session_rules, rules_checked};
ghost use Rattle.translate_up.specs.OneReply.{AnswersOneReply};
ghost use Rattle.translate_up.specs.DecisionPlaces.{IsDecidedIn};
ghost use Rattle.translate_up.specs.Sound.{AreFit, SendsSound};
ghost use Rattle.translate_up.specs.UriLengths.{AreGivenWithin, HasUriWithin};

/// What goes up, at once or later, can be written under every number and read back, and the channels
/// that a player gets differ: where the server's address is one, ids of sessions are in the grammar,
/// and the URIs that stand for what they are about, and for what was described, fit into a request
/// line.
pub fn what_goes_up_can_be_written()
    ensures { (given : Given) (shape : Shape) → AreFit given → length shape.bytes < 2 ^ 64
        → SendsSound (decide given shape) }
{}

/// A player that asks for no channels gets the lowest even one that is free with the next one. The
/// 32 streams that four sessions may have leave one free.
pub fn the_lowest_free_channels_are_given()
    ensures { (tracks : List Track) → length tracks ≤ 63 → IsLowestFree tracks (free_pair tracks) }
{}

/// Without its channels to the server, a SETUP is what was decided.
pub fn the_channels_are_all_that_is_put_in()
    ensures { (judged : Judged) (request : Request1) (said : Said) (uri : List ℕ) (range : Option Range)
        (pair : Pair)
        → without_transport (with_transport pair (request_up judged request said uri range)).headers
        ≡ (request_up judged request said uri range).headers }
{}

/// Every refusal of a request that its head does not refuse is by the first rule of the list that
/// applies: what no rule refuses is let through.
pub fn every_refusal_is_by_a_rule()
    ensures { (judged : Judged) (method : Method) (said : Said) (uri : List ℕ) (code : ℕ)
        → rules_checked judged method said uri ≡ Err code
        → first_code (session_rules judged method said uri) ≡ Some code }
{}

/// What no rule refuses has its place: a request names a session that its player has, or none; a PLAY
/// waits where its session has room for it, and so does the stream of a SETUP, which has two channels on
/// the player's connection.
pub fn what_no_rule_refuses_has_its_place()
    ensures { (given : Given) (shape : Shape) → IsDecidedIn given.sessions (decide given shape) }
{}

/// The URI of what goes up, at once or later, is no longer than the longest head and the longest base
/// together, or than one that is known of the connection.
pub fn what_goes_up_has_no_longer_uri()
    ensures { (most : ℕ) (given : Given) (shape : Shape) → MOST_HEAD + LONGEST_BASE ≤ most
        → AreGivenWithin most given
        → shape.head ≤ MOST_HEAD
        → HasUriWithin most (decide given shape) }
{}

/// What the gateway answers by itself, a refusal among it, is one reply, and is read back as that
/// reply whatever follows it.
pub fn what_is_answered_is_one_reply()
    ensures { (given : Given) (shape : Shape) → AreFit given → length shape.bytes < 2 ^ 64
        → AnswersOneReply (decide given shape) }
{}

/// The numbers of the pairs of channels to the server make no difference to what becomes of a request.
pub fn the_numbers_of_pairs_make_no_difference()
    ensures { (pairs : ℕ → ℕ) (given : Given) (shape : Shape)
        → decide (with_pairs pairs given) shape ≡ decide given shape }
{}
