//! The entries of an RTP-Info field.
ghost use Rattle.std.specs.Prelude.{◌≡◌, ◌<◌, [], ◌∷◌, ◌++◌, length, slice_get, Some, IfOk, IfErr, OnOk, OnErr};

use crate::InfoEntry;
use gate_bytes::{Memory, OwnedList};
use std::alloc::Global;
use std::marker::Model;

/// An owned list of at least one entry. Contracts see it as that list.
#[derive(Drop)]
pub struct Info<'a> {
    entries: OwnedList<InfoEntry<'a>>,
    ghost some: { 0 < length entries },
}

impl<'a> Model for Info<'a> {
    ghost use Rattle.std.specs.Prelude.{List};
    ghost use Rattle.rtp_info.specs.declared.entry.InfoEntry.{InfoEntry};

    ghost Value = { List InfoEntry };

    ghost view = { λ i. i.entries };
}

impl<'a> Info<'a> {
    /// The list of this one entry. Where memory is wanting the entry comes back.
    pub fn of(alloc: Global, first: InfoEntry<'a>) -> Result<Info<'a>, (InfoEntry<'a>, Memory)>
        ensures ok { IfOk result (λ info. info ≡ first.entry ∷ []) }
        ensures err { IfErr result (λ refused. refused.0 ≡ first.entry) }
    {
        let mut entries = OwnedList::new(alloc);
        entries.push(first)?;
        Ok(Info { entries })
    }

    /// The number of entries, one at least.
    pub fn len(&self) -> usize
        ensures length { result ≡ length self.now }
        ensures some { 0 < result }
    {
        self.entries.len()
    }

    /// The entry at a place.
    pub fn at(&self, place: usize) -> &InfoEntry<'a>
        requires { place < length self.now }
        ensures { slice_get self.now place ≡ Some result.now }
    {
        self.entries.at(place)
    }

    /// Appends an entry. Where memory is wanting the entry comes back.
    pub fn push(&mut self, item: InfoEntry<'a>) -> Result<(), (InfoEntry<'a>, Memory)>
        ensures ok { OnOk result (self.new ≡ self.old ++ item.entry ∷ []) }
        ensures err { IfErr result (λ refused. refused.0 ≡ item.entry) }
        ensures same { OnErr result (self.new ≡ self.old) }
    {
        self.entries.push(item)
    }

    /// The entries, in their order.
    pub(crate) fn as_slice(&self) -> &[InfoEntry<'a>]
        ensures value { result.now ≡ self.now }
        ensures some { 0 < length result.now }
    {
        self.entries.as_slice()
    }
}
