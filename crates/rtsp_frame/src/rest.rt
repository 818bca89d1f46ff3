//! What is held of a stream.
ghost use Rattle.std.specs.Prelude.{◌≡◌};
ghost use Rattle.rtsp_frame.specs.Fronts.{IsKnownFront, unfinished_head};
ghost use Rattle.rtsp_frame.specs.FrontProps.{front_prop};
ghost use Rattle.std.proofs.Props.{props};

use crate::item_front::ItemFront;

/// What has come of the next item, and what is known of it.
#[derive(Drop)]
pub struct Rest {
    pub bytes: Vec<u8>,
    pub front: ItemFront,
    pub ghost known: { IsKnownFront bytes.items front } by { front_prop bytes.items front
        (Prim.hlevel props) (Prim.hlevel props) (λ line. Prim.hlevel props) (λ span. Prim.hlevel props) },
}

impl Rest {
    /// The bytes that are an unfinished head.
    pub fn unfinished(&self) -> usize
        ensures { result ≡ unfinished_head self.now.bytes.items }
    {
        match self.front {
            ItemFront::Nothing | ItemFront::Line(_) => self.bytes.len(),
            ItemFront::Frame | ItemFront::End(_) => 0,
        }
    }
}
