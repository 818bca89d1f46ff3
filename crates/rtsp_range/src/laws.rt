//! Laws over the definitions of ranges. Each holds by its contract alone: no call is made.
ghost use Rattle.std.specs.Prelude.{◌≡◌, ◌↔◌, ℕ, List, IsTrue};
ghost use Rattle.rtsp_range.specs.declared.range.Range.{Range};
ghost use Rattle.rtsp_range.specs.Meaning.{Version, Means};
ghost use Rattle.rtsp_range.specs.Spellings.{SpellsRange};
ghost use Rattle.rtsp_range.specs.Writable.{can_be_written};
ghost use Rattle.rtsp_range.specs.RangeText.{range_text};

/// A value means a range exactly where it is a spelling of that range by the grammar, in both
/// versions.
pub fn spelled_so()
    ensures { (version : Version) (value : List ℕ) (range : Range)
        → Means version value range ↔ SpellsRange value range }
{}

/// What a value means can be written.
pub fn stays_writable()
    ensures { (version : Version) (value : List ℕ) (range : Range)
        → Means version value range → IsTrue (can_be_written range) }
{}

/// What is written means the range that was written, in both versions.
pub fn reads_back()
    ensures { (version : Version) (range : Range)
        → IsTrue (can_be_written range) → Means version (range_text range) range }
{}

/// Two values, each of any version, mean one range exactly where they are written alike.
pub fn one_form()
    ensures { (version other : Version) (value another : List ℕ) (range second : Range)
        → Means version value range → Means other another second
        → (range ≡ second) ↔ (range_text range ≡ range_text second) }
{}
