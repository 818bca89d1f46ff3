//! Laws over the definitions.
ghost use Rattle.std.specs.Prelude.{◌≡◌, ℕ, List, Option, option_map};
ghost use Rattle.rtsp_head.specs.Items.{Shape};
ghost use Rattle.session_one.specs.declared.parts.Asked.{Asked};
ghost use Rattle.session_one.specs.declared.parts.Play.{Play};
ghost use Rattle.session_one.specs.declared.parts.Track.{Track};
ghost use Rattle.session_two.specs.declared.names.Names.{Names};
ghost use Rattle.client_slot.specs.Client.{Client};
ghost use Rattle.client_slot.specs.Places.{session_where};
ghost use Rattle.client_slot.specs.Changes.{after_waiting, after_next, after_asking, after_queueing, after_release, after_reply, after_note, after_close, after_closing};
ghost use Rattle.client_slot.specs.ClosingRequest.{closing_text};
ghost use Rattle.client_slot.specs.Renumber.{track_under, client_under, names_under, AreToldApart};

/// Each change is the same under every numbering of requests and of pairs of channels. Only the end
/// of what plays asks that the numbering tells the request that is named from the one that runs.
pub fn changes_keep_any_numbering()
    ensures waiting { (numbers pairs : ℕ → ℕ) (shapes : List Shape) (client : Client)
        → client_under numbers pairs (after_waiting shapes client)
        ≡ after_waiting shapes (client_under numbers pairs client) }
    ensures next { (numbers pairs : ℕ → ℕ) (client : Client)
        → client_under numbers pairs (after_next client) ≡ after_next (client_under numbers pairs client) }
    ensures asking { (numbers pairs : ℕ → ℕ) (asked : Asked) (track : Option Track) (client : Client)
        → client_under numbers pairs (after_asking asked track client)
        ≡ after_asking asked (option_map (track_under pairs) track) (client_under numbers pairs client) }
    ensures queueing { (numbers pairs : ℕ → ℕ) (play : Play) (client : Client)
        → client_under numbers pairs (after_queueing play client)
        ≡ after_queueing play (client_under numbers pairs client) }
    ensures release { (numbers pairs : ℕ → ℕ) (client : Client)
        → client_under numbers pairs (after_release client)
        ≡ after_release (client_under numbers pairs client) }
    ensures reply { (numbers pairs : ℕ → ℕ) (number code : ℕ) (id : Option (List ℕ)) (client : Client)
        → client_under numbers pairs (after_reply number code id client)
        ≡ after_reply (numbers number) code id (client_under numbers pairs client) }
    ensures note { (numbers pairs : ℕ → ℕ) (place : Option ℕ) (names : Names)
        (client : Client) → AreToldApart numbers (session_where place client.sessions).running names
        → client_under numbers pairs (after_note place names client)
        ≡ after_note place (names_under numbers names) (client_under numbers pairs client) }
    ensures close { (numbers pairs : ℕ → ℕ) (client : Client)
        → client_under numbers pairs (after_close client) ≡ after_close (client_under numbers pairs client) }
    ensures closing { (numbers pairs : ℕ → ℕ) (client : Client)
        → client_under numbers pairs (after_closing client)
        ≡ after_closing (client_under numbers pairs client) }
    ensures text { (numbers pairs : ℕ → ℕ) (number : ℕ) (client : Client)
        → closing_text number (client_under numbers pairs client) ≡ closing_text number client }
{}
