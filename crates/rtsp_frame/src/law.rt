//! Laws of the items of a stream. Each function does nothing: its contract is the law.
ghost use Rattle.std.specs.Prelude.{◌≡◌, ℕ, List, [], ◌++◌};
ghost use Rattle.rtsp_head.specs.Items.{Shape, items_of};
ghost use Rattle.rtsp_head.specs.Spellings.{IsItem, Spells, AreItems};
ghost use Rattle.rtsp_head.specs.declared.item.Item.{Item};

/// Each [`rtsp_head::Item`] is one: its bytes are those of an item of its kind, and its head has its
/// length.
pub fn whole_items()
    ensures { (item : Item) → IsItem item.kind item.bytes item.head }
{}

/// A spelling spells one item, and none is the front of a longer one.
pub fn one_spelling()
    ensures { (front more : List ℕ) (item other : Shape) →
        Spells front item → Spells (front ++ more) other → (more ≡ []) × (item ≡ other) }
{}

/// A stream has at most one list of items.
pub fn one_reading()
    ensures { (stream : List ℕ) (items others : List Shape) →
        AreItems stream items → AreItems stream others → items ≡ others }
{}

/// The items that are computed of a stream are its items.
pub fn computed_items()
    ensures { (stream : List ℕ) → AreItems stream (items_of stream) }
{}

/// What has come stays: the items of a longer stream begin with those of the shorter one.
pub fn longer_streams()
    ensures { (stream more : List ℕ) →
        (later : List Shape) × (items_of (stream ++ more) ≡ items_of stream ++ later) }
{}
