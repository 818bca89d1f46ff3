//! A request that is to wait, with its memory.
ghost use Rattle.std.specs.Prelude.{◌≡◌, [], ◌∷◌, IfOk, IfErr};
ghost use Rattle.rtsp_head.specs.Shapes.{shape_of};

use gate_bytes::Memory;
use rtsp_head::Item;
use std::alloc::Global;
use std::collections::LinkedList;
use std::marker::Model;

/// A request with the memory that it needs to wait. Contracts see the request.
#[derive(Drop)]
pub struct Waiting {
    pub(crate) node: LinkedList<Item>,
}

impl Model for Waiting {
    ghost use Rattle.std.specs.Prelude.{◌≡◌, List};
    ghost use Rattle.std.specs.LinkedList.{linked_list_len};
    ghost use Rattle.rtsp_head.specs.Items.{Shape};

    ghost Value = { List Shape };

    ghost use Rattle.rtsp_head.specs.Shapes.{shapes};

    ghost view = { λ waiting. shapes waiting.node };

    ghost invariant = { λ waiting. linked_list_len waiting.node ≡ 1 };
}

impl Waiting {
    /// A request with its memory. Where memory is wanting it comes back.
    pub fn new(alloc: Global, item: Item) -> Result<Waiting, (Item, Memory)>
        ensures ok { IfOk result (λ waiting. waiting ≡ shape_of item ∷ []) }
        ensures given_back { IfErr result (λ refused. refused.0 ≡ item) }
    {
        let mut node = LinkedList::new(alloc);
        match node.push_back(item) {
            Ok(()) => Ok(Waiting { node }),
            Err(failed) => Err((failed.value, Memory)),
        }
    }
}
