//! The receipts that a hub gives when it is closed.
ghost use Rattle.std.specs.Prelude.{◌≡◌};
ghost use Rattle.gateway_hub.specs.Receipts.{last_receipt, receipt_count};

use crate::retire::{Back, receipt_for};
use crate::{Ending, Receipt};
use hub_queues::Place;

/// One receipt for each connection that entered a hub, by its number. That of a connection that was not retired has
/// nothing pushed and nothing taken.
#[derive(Drop)]
pub struct Receipts {
    /// The connections, by their numbers.
    pub(crate) places: Vec<Place>,
    /// Whether an item of the server ended its connection, where that ended.
    pub(crate) fall: Option<bool>,
    /// Why the hub took no more events.
    pub(crate) ending: Option<Ending>,
}

impl Receipts {
    /// How many receipts there are, which is how many connections entered.
    pub fn count(&self) -> usize
        ensures { result ≡ receipt_count self.now }
    {
        self.places.len()
    }

    /// The receipt of a connection, where it entered. The numbers are those from 0 on.
    pub fn get(&self, conn: u32) -> Option<Receipt>
        ensures { result ≡ last_receipt self.now conn }
    {
        match self.places.get(conn as usize) {
            Some(Place::Seated(line)) => {
                let back = Back {
                    conn,
                    pushed: 0,
                    taken: 0,
                    fall: self.fall,
                    ending: self.ending,
                };
                Some(receipt_for(line, back))
            }
            Some(Place::Retired(receipt)) => Some(*receipt),
            None => None,
        }
    }
}
