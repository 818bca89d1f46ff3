//! Laws of what a reader has put. Each holds by its contract alone: no call is made.
ghost use Rattle.std.specs.Prelude.{ℕ, List, Option, Some, Bool};
ghost use Rattle.rtsp_head.specs.declared.item.Item.{Item};
ghost use Rattle.rtsp_frame.specs.FramerState.{HeldBytes};
ghost use Rattle.client_ports.specs.declared.parcel.Parcel.{Parcel};
ghost use Rattle.gateway_links.specs.ReadItems.{ReadsItemsSo, ReadsFrontSo};
ghost use Rattle.gateway_links.specs.Promise.{BeginsItemsOf, BeginsGiven};

/// What a reader has put is the first of the items of the bytes that its inlet gave, told or not.
pub fn what_was_put_begins_the_items_given()
    ensures { (first left : Option (List ℕ)) (held : HeldBytes) (put : List Parcel) (waiting : Option Item) →
        ReadsItemsSo first left held put waiting → BeginsGiven first left put }
{}

/// What a reader has put is the first of the items of all that its inlet has to give, where this is told.
pub fn what_was_put_begins_the_items()
    ensures { (all : List ℕ) (left : Option (List ℕ)) (held : HeldBytes) (put : List Parcel)
        (waiting : Option Item)
        → ReadsItemsSo (Some all) left held put waiting
        → BeginsItemsOf put all }
{}

/// It is so too where memory was wanting for some of it.
pub fn what_was_put_begins_the_items_after_want_of_memory()
    ensures { (all : List ℕ) (left : Option (List ℕ)) (held : HeldBytes) (put : List Parcel)
        (waiting : Option Item) (over : Bool)
        → ReadsFrontSo (Some all) left held put waiting over
        → BeginsItemsOf put all }
{}
