//! A connection as it will be.
ghost use Rattle.std.specs.Prelude.{◌≡◌, true, length, map};
ghost use Rattle.std.specs.Option.{option_copied};
ghost use Rattle.session_one.specs.declared.parts.TheConstants.{MOST_SESSIONS};
ghost use Rattle.client_slot.specs.ShortUris.{is_short_where};
ghost use Rattle.client_machine.specs.Sights.{sight, replaced_where, AreTidySights, are_sights_short};

use crate::sight::PlacedShowing;
use client_slot::Slot;

/// A connection as it is, or as it will be after an event: one of its sessions may be another one.
#[derive(Clone, Copy)]
pub(crate) struct Outlook<'a> {
    /// The connection as it is.
    pub slot: &'a Slot,
    /// The session that the event changes, as it will be, and its place.
    pub changed: Option<PlacedShowing<'a>>,
    /// The URI that was described last.
    pub described: Option<&'a [u8]>,
    pub ghost places: { length slot.now.sessions ≡ MOST_SESSIONS },
    pub ghost tidy: { AreTidySights (replaced_where changed (map sight slot.now.sessions)) },
    pub ghost controls: { are_sights_short (replaced_where changed (map sight slot.now.sessions)) ≡ true },
    pub ghost short: { is_short_where (option_copied described) ≡ true },
}
