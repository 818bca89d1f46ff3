//! The byte streams of a transcript, each cut into its items: one of each client, and one of the server.
ghost use Rattle.std.specs.Prelude.{[]};
ghost use Rattle.gateway_replay.specs.Framers.{FramerFed};

use rtsp_frame::Framer;
use std::alloc::Global;
use std::collections::HashMap;

/// Whose bytes a stream has.
#[derive(Clone, Copy, Debug, PartialEq, Eq)]
pub enum Speaker {
    /// The client of the connection with this number, which may be 0.
    Client(u32),
    /// The server.
    Server,
}

/// A framer for each client of which bytes came, and one for the server.
#[derive(Drop)]
pub struct Streams {
    pub clients: HashMap<u32, Framer>,
    pub server: Framer,
}

impl Streams {
    ghost use Rattle.gateway_replay.specs.declared.streams.Speaker.{Speaker};
    ghost use Rattle.gateway_replay.specs.Streams.{framer_at};

    /// No byte came. It takes no memory.
    pub fn new(alloc: Global) -> Streams
        ensures { (who : Speaker) → FramerFed (framer_at result who) [] [] }
    {
        Streams {
            clients: HashMap::new(alloc),
            server: Framer::new(alloc),
        }
    }
}
