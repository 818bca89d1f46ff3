//! Whether all connections of a hub are over, and how a hub is closed.
ghost use Rattle.std.specs.Prelude.{◌≡◌, List};
ghost use Rattle.std.specs.List.{list_all};
ghost use Rattle.gateway_claim.specs.Happenings.{HistoryEntry};
ghost use Rattle.gateway_hub.specs.Close.{is_place_over};
ghost use Rattle.gateway_hub.specs.Receipts.{receipts_of};

use crate::desk::fall_heard;
use crate::state::HubState;
use crate::{Receipts, Recorder};
use gateway_claim::Core;
use hub_queues::Place;

/// Whether a connection is over, by its place: it is retired and not alive, and no more arrived than was pushed, and no more
/// was taken than was handed.
fn is_place_over<M: Core>(core: &M, place: &Place) -> bool
    ensures { (T : List HistoryEntry) → M.stands core.now T → result ≡ is_place_over T place.now }
{
    match place {
        Place::Seated(_) => false,
        Place::Retired(receipt) => {
            !core.alive(receipt.conn)
                && receipt.arrived <= receipt.pushed
                && receipt.taken <= receipt.handed
        }
    }
}

impl<M: Core, R: Recorder> HubState<M, R> {
    /// Whether all connections that entered are over.
    pub fn all_closed(&self) -> bool
        ensures { (T : List HistoryEntry) → M.stands self.now.core T
            → result ≡ list_all (is_place_over T) self.now.desk.places.items }
    {
        for place in &self.desk.places {
            if !is_place_over(&self.core, place) {
                return false;
            }
        }
        true
    }

    /// Gives back the recorder, and the receipts of all connections that entered.
    pub fn close(self) -> (R, Receipts)
        ensures recorder { result.0 ≡ self.recorder }
        ensures receipts { result.1 ≡ receipts_of self.desk }
    {
        let HubState {
            core: _core,
            recorder,
            desk,
            last: _,
            closed: _,
        } = self;
        let receipts = Receipts {
            places: desk.places,
            fall: fall_heard(desk.fall),
            ending: desk.ending,
        };
        (recorder, receipts)
    }
}
