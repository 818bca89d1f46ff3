//! What readers and writers need before their threads begin.
ghost use Rattle.std.specs.Prelude.{◌<◌, length};

use crate::WriterDesk;
use gate_bytes::Memory;
use gate_outside::Outlet;
use std::alloc::Global;

/// How many bytes of a player are read at once.
const PLAYER_READ_SIZE: usize = 16_384;

/// How many bytes of the server are read at once.
const SERVER_READ_SIZE: usize = 262_144;

/// A buffer into which a link is read.
#[derive(Drop)]
pub struct ReadBuffer {
    /// The bytes.
    pub bytes: Vec<u8>,
    pub ghost room: { 0 < length bytes.items },
}

impl ReadBuffer {
    /// A buffer of so many bytes.
    fn new(alloc: Global, size: usize) -> Result<ReadBuffer, Memory>
        requires { 0 < size }
    {
        let mut bytes = Vec::new(alloc);
        bytes.resize(size, 0)?;
        Ok(ReadBuffer { bytes })
    }
}

/// The desks at which writers are handed over, and the buffers of all readers. All memory of a run but the connections' own is
/// taken here.
#[derive(Drop)]
pub struct Crew<O: Outlet + Drop, P: Outlet + Drop> {
    /// A desk for each station.
    pub desks: Vec<WriterDesk<O>>,
    /// The desk of the server's link.
    pub server_desk: WriterDesk<P>,
    /// The buffer of each station.
    pub buffers: Vec<ReadBuffer>,
    /// The buffer of the server's link.
    pub server_buffer: ReadBuffer,
}

impl<O: Outlet + Drop, P: Outlet + Drop> Crew<O, P> {
    /// A crew of so many stations, whose threads have not begun.
    pub fn new(alloc: Global, stations: u8) -> Result<Crew<O, P>, Memory> {
        let mut desks = Vec::new(alloc);
        let mut buffers = Vec::new(alloc);
        for _ in 0..stations {
            desks.push(WriterDesk::new())?;
            buffers.push(ReadBuffer::new(alloc, PLAYER_READ_SIZE)?)?;
        }
        Ok(Crew {
            desks,
            server_desk: WriterDesk::new(),
            buffers,
            server_buffer: ReadBuffer::new(alloc, SERVER_READ_SIZE)?,
        })
    }
}
