//! Laws over the definitions of addresses. Each holds by its contract alone: no call is made.
ghost use Rattle.std.specs.Prelude.{◌≡◌, ◌≤◌, length, true, false, not, List, ◌++◌, ℕ, Some};
ghost use Rattle.std.specs.List.{list_all};
ghost use Rattle.gate_bytes.specs.Ascii.{lf};
ghost use Rattle.gate_bytes.specs.Places.{parts_at};
ghost use Rattle.rtsp_uri.specs.declared.grammar.TheConstants.{LAST_PORT};
ghost use Rattle.rtsp_uri.specs.declared.word.TheConstants.{LONGEST_BASE_TEXT};
ghost use Rattle.rtsp_uri.specs.Descriptions.{is_control, rewritten};
ghost use Rattle.rtsp_uri.specs.declared.grammar.UriPlaces.{UriPlaces};
ghost use Rattle.rtsp_uri.specs.declared.base.Base.{Base};
ghost use Rattle.rtsp_uri.specs.Uris.{scheme, is_name_byte, is_rest, places_of};
ghost use Rattle.rtsp_uri.specs.Grammar.{SomeOf, Spelled};
ghost use Rattle.rtsp_uri.specs.Words.{port_text, base_in};
ghost use Rattle.rtsp_uri.specs.Swaps.{has_authority, swapped};

/// What is cut is a URI by its grammar, and each URI is cut at the places of its parts.
pub fn uris_are_spelled()
    ensures cut { (uri : List ℕ) (places : UriPlaces) → places_of uri ≡ Some places → Spelled uri places }
    ensures all { (uri : List ℕ) (places : UriPlaces) → Spelled uri places → places_of uri ≡ Some places }
{}

/// A URI that spells its authority as one base does is given the other base's, and comes back as
/// it was.
pub fn swapped_uris_come_back()
    ensures goes { (from to : Base) (rest : List ℕ) → is_rest rest ≡ true
        → swapped from.text to.text (scheme ++ (from.text ++ rest)) ≡ scheme ++ (to.text ++ rest) }
    ensures comes { (from to : Base) (rest : List ℕ) → is_rest rest ≡ true
        → swapped to.text from.text (swapped from.text to.text (scheme ++ (from.text ++ rest)))
        ≡ scheme ++ (from.text ++ rest) }
{}

/// A URI with the authority of one base, however it is spelled, then has the other's.
pub fn swapped_uris_have_the_authority()
    ensures { (from to : Base) (uri : List ℕ) → has_authority from.text uri ≡ true
        → has_authority to.text (swapped from.text to.text uri) ≡ true }
{}

/// A text without the authority stays as it is.
pub fn other_texts_stay()
    ensures { (from to uri : List ℕ) → has_authority from uri ≡ false → swapped from to uri ≡ uri }
{}

/// A description in which no line begins with `a=control:` stays as it is, byte by byte.
pub fn other_descriptions_stay()
    ensures { (from to body : List ℕ) → list_all (λ line. not (is_control line)) (parts_at lf body) ≡ true
        → rewritten from to body ≡ body }
{}

/// A word of `rtsp://`, a name, and a port or none is accepted as it stands, unless it is too
/// long.
pub fn plain_words_are_accepted()
    ensures name { (name : List ℕ) → SomeOf is_name_byte name
        → length name ≤ LONGEST_BASE_TEXT
        → base_in (scheme ++ name) ≡ Some name }
    ensures port { (name : List ℕ) (port : ℕ) → SomeOf is_name_byte name
        → port ≤ LAST_PORT
        → length (name ++ port_text (Some port)) ≤ LONGEST_BASE_TEXT
        → base_in (scheme ++ (name ++ port_text (Some port))) ≡ Some (name ++ port_text (Some port)) }
{}
