//! A link in memory that was not used yet.
ghost use Rattle.std.specs.Prelude.{◌≡◌};
ghost use Rattle.gate_outside.specs.MemoryLinks.{IsUnused, IsSameInlet, bytes_coming, inlet_reads};

use crate::mark::Tie;
use crate::{MemoryInlet, MemoryLink, MemoryOutlet};
use gate_bytes::{Memory, OwnedList};

/// A link in memory whose halves were not used yet: neither has failed, its inlet has not told its end, and nothing was
/// written to its outlet.
#[derive(Drop)]
pub struct NewLink {
    inlet: MemoryInlet,
    outlet: MemoryOutlet,
    ghost unused: { IsUnused inlet outlet },
}

/// An owned list of links that were not used yet.
pub type Links = OwnedList<NewLink>;

impl NewLink {
    ghost use Rattle.gate_outside.specs.NewLinks.{new_inlet, new_outlet};

    /// The link of these halves.
    pub fn new(inlet: MemoryInlet, outlet: MemoryOutlet) -> NewLink
        requires { IsUnused inlet outlet }
        ensures inlet { new_inlet result ≡ inlet }
        ensures outlet { new_outlet result ≡ outlet }
    {
        NewLink { inlet, outlet }
    }

    /// Its outlet under this number, for inlets that wait for it.
    pub(crate) fn as_tie(&self, number: u32) -> Result<Tie, Memory> {
        Ok(Tie {
            number,
            taken: self.outlet.count()?,
        })
    }

    /// Lets its inlet wait for the outlets of all these ties. Where memory runs out some of them may be tied.
    pub(crate) fn tie_all(&mut self, ties: &[Tie]) -> Result<(), Memory>
        ensures same { IsSameInlet (new_inlet self.old) (new_inlet self.new) }
        ensures reads { inlet_reads (new_inlet self.new) ≡ inlet_reads (new_inlet self.old) }
        ensures coming { bytes_coming (new_inlet self.new) ≡ bytes_coming (new_inlet self.old) }
        ensures outlet { new_outlet self.new ≡ new_outlet self.old }
    {
        self.inlet.tie_all(ties)
    }

    /// The link, which may be used now.
    pub fn into_link(self) -> MemoryLink
        ensures inlet { result.inlet ≡ new_inlet self }
        ensures outlet { result.outlet ≡ new_outlet self }
        ensures unused { IsUnused result.inlet result.outlet }
    {
        let NewLink { inlet, outlet } = self;
        MemoryLink { inlet, outlet }
    }
}
