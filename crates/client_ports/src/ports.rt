//! How a port is made, and how its two ends come together again.
ghost use Rattle.std.specs.Prelude.{◌≡◌, ◌<◌, [], length, IfOk};
ghost use Rattle.client_ports.specs.Ends.{put_of, taken_of, told_of, heard_of, fulls_of, capacity_of, OfOnePort};
ghost use Rattle.client_ports.specs.Rule.{BeginsIn};

use crate::rule::{ParcelQueue, PassEnds, Whole};
use crate::{Putter, Taker};
use gate_bytes::Memory;
use std::alloc::Global;
use std::sync::Arc;

/// How many parcels went through a port.
#[derive(Clone, Copy, Debug, PartialEq, Eq)]
pub struct Met {
    /// The number of parcels that were put.
    pub put: u64,
    /// The number of parcels that were taken.
    pub taken: u64,
}

/// The two ends of a new port, whose queue holds so many parcels at most. Nothing was put and nothing taken.
pub fn port(alloc: Global, capacity: usize) -> Result<(Putter, Taker), Memory>
    requires { 0 < capacity }
    ensures one { IfOk result (λ ends. OfOnePort ends.0 ends.1) }
    ensures put { IfOk result (λ ends. put_of ends.0 ≡ []) }
    ensures heard { IfOk result (λ ends. heard_of ends.0 ≡ []) }
    ensures fulls { IfOk result (λ ends. fulls_of ends.0 ≡ 0) }
    ensures capacity { IfOk result (λ ends. capacity_of ends.0 ≡ capacity) }
    ensures taken { IfOk result (λ ends. taken_of ends.1 ≡ []) }
    ensures told { IfOk result (λ ends. told_of ends.1 ≡ []) }
{
    let (line, mut puts) = ParcelQueue::ruled(alloc, capacity)?;
    let takes = line.another::<PassEnds>(&mut puts);
    let line = Arc::new(alloc, line)?;
    let other = Arc::try_clone(&line)?;
    Ok((Putter::new(line, puts), Taker::new(other, takes)))
}

/// Brings the two ends of one port together, which ends it. What was taken is the first of what was put.
pub fn meet(putter: Putter, taker: Taker) -> Met
    requires { OfOnePort putter taker }
    ensures put { result.put ≡ length (put_of putter) }
    ensures taken { result.taken ≡ length (taken_of taker) }
    ensures order { BeginsIn (taken_of taker) (put_of putter) }
{
    let Putter {
        queue,
        mut pass,
        count: put,
        fulls: _,
    } = putter;
    let Taker {
        queue: _,
        pass: takes,
        count: taken,
    } = taker;
    queue.absorb::<PassEnds>(&mut pass, takes);
    queue.learn_as::<Whole>(&mut pass);
    Met { put, taken }
}
