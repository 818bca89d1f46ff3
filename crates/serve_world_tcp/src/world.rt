//! The world over TCP and files.
ghost use Rattle.std.specs.Prelude.{◌≡◌, None, IfOk};
ghost use Rattle.serve_world.specs.Tallies.{no_tally};
ghost use Rattle.serve_world_tcp.specs.Edges.{IsNewTcpLink};

use crate::door::TcpDoor;
use crate::file_sink::FileSink;
use crate::link::{TcpInlet, TcpOutlet, connect_within, halves};
use gate_outside::Failed;
use gate_transcript::TranscriptRecorder;
use serve_world::{ThreadRefusal, World, WorldTally};
use std::alloc::Global;
use std::net::{Net, TcpListener, TcpStream};
use std::thread::Threads;
use std::{io, str};

/// Doors that listen at `host:port`, links to a host and a port, and recorders that write a transcript to a file, which is
/// made, or emptied, where it is opened, and written by a thread of its own. A name that is not UTF-8 is a failure. That it
/// listens, and that it is connected, is told on standard error, before a player is served; a line that can't be written there
/// is left out.
#[derive(Drop)]
pub struct TcpWorld<'a, R: Net<Listener = TcpListener, Stream = TcpStream> + Threads> {
    rt: &'a R,
    host: HostRuntime,
    alloc: Global,
    tally: WorldTally,
    players: Option<u8>,
    refusal: Option<io::Error>,
}

impl<'a, R: Net<Listener = TcpListener, Stream = TcpStream> + Threads> TcpWorld<'a, R> {
    /// A world to which nothing has happened.
    pub fn new(rt: &'a R, host: HostRuntime, alloc: Global) -> TcpWorld<'a, R>
        ensures { result.tally ≡ no_tally }
    {
        TcpWorld {
            rt,
            host,
            alloc,
            tally: WorldTally::new(),
            players: None,
            refusal: None,
        }
    }

    /// The same world, which tells for how many players it listens, where that is known.
    pub fn for_players(mut self, players: Option<u8>) -> TcpWorld<'a, R>
        ensures { result.tally ≡ self.entry.tally }
    {
        self.players = players;
        self
    }

    /// Why the system refused what was asked for last, where it did.
    pub fn refusal(&self) -> Option<io::Error>
        ensures { result ≡ self.now.refusal }
    {
        self.refusal
    }

    /// What has happened to it.
    pub fn tally(&self) -> WorldTally
        ensures { result ≡ self.now.tally }
    {
        self.tally
    }

    /// The door at this address.
    fn open_door(&self, address: &[u8]) -> io::Result<TcpDoor>
        ensures { IfOk result (λ door. door.faults ≡ 0) }
    {
        let listener = TcpListener::bind(self.rt, text_of(address)?)?;
        TcpDoor::new(self.host, self.alloc, listener)
    }

    /// The link to this host, which may stand in brackets, and port.
    fn open_link(&self, host: &[u8], port: u16) -> io::Result<(TcpInlet, TcpOutlet)>
        ensures { IfOk result (λ link. IsNewTcpLink link.0 link.1) }
    {
        let host = text_of(without_brackets(host))?;
        let stream = connect_within(self.rt, &self.host, host, port)?;
        halves(self.alloc, stream)
    }

    /// The recorder that writes to the file of this name.
    fn open_recorder(&self, name: &[u8]) -> io::Result<TranscriptRecorder<FileSink>>
        ensures { IfOk result (λ recorder. recorder.sink.faults ≡ 0) }
    {
        let sink = FileSink::create(self.rt, self.host, self.alloc, name)?;
        match TranscriptRecorder::start(sink) {
            Ok(recorder) => settled(recorder),
            Err((sink, Failed)) => Err(left(sink)),
        }
    }

    /// Tells that it listens at this address, and for how many players.
    fn tell_listening(&self, address: &[u8]) {
        let address = str::from_utf8(address).unwrap_or("");
        let _ = match self.players {
            Some(players) => eprintln!(self.host; "listening on {address} for {players} players"),
            None => eprintln!(self.host; "listening on {address}"),
        };
    }

    /// Tells that it is connected to this host and port.
    fn tell_connected(&self, host: &[u8], port: u16) {
        let host = str::from_utf8(host).unwrap_or("");
        let _ = eprintln!(self.host; "connected to {host}:{port}");
    }
}

/// The text that bytes are.
fn text_of(bytes: &[u8]) -> io::Result<&str> {
    str::from_utf8(bytes).map_err(|_| io::Error::other("the name is no text"))
}

/// Lets a file go that takes nothing, and tells why.
fn left(sink: FileSink) -> io::Error {
    let failure = sink.failure();
    sink.leave();
    failure
}

/// Why the system refused, where it did.
fn reason<T>(asked: &io::Result<T>) -> Option<io::Error> {
    match asked {
        Ok(_) => None,
        Err(error) => Some(*error),
    }
}

/// The recorder, where its file is there and takes what is written. Else the file is let go.
fn settled(recorder: TranscriptRecorder<FileSink>) -> io::Result<TranscriptRecorder<FileSink>>
    ensures { IfOk result (λ made. made.sink.faults ≡ 0) }
{
    if recorder.sink().settles() && recorder.sink().faults() == 0 {
        return Ok(recorder);
    }
    Err(left(recorder.into_sink()))
}

/// The host without the brackets round an IPv6 address.
fn without_brackets(host: &[u8]) -> &[u8] {
    match host {
        [b'[', inner @ .., b']'] => inner,
        _ => host,
    }
}

impl<'a, R: Net<Listener = TcpListener, Stream = TcpStream> + Threads> World for TcpWorld<'a, R> {
    type Door = TcpDoor;

    type UpIn = TcpInlet;

    type UpOut = TcpOutlet;

    type Rec = TranscriptRecorder<FileSink>;

    ghost tally = { λ world. world.tally };

    ghost recorded = { λ world. None };

    ghost links_left = { λ world. None };

    fn listen(&mut self, address: &[u8]) -> Result<TcpDoor, Failed> {
        let door = self.open_door(address);
        self.tally.add_listen(door.is_ok());
        self.refusal = reason(&door);
        match door {
            Ok(door) => {
                self.tell_listening(address);
                Ok(door)
            }
            Err(_) => Err(Failed),
        }
    }

    fn dial(&mut self, host: &[u8], port: u16) -> Result<(TcpInlet, TcpOutlet), Failed> {
        let link = self.open_link(host, port);
        self.tally.add_dial(link.is_ok());
        self.refusal = reason(&link);
        match link {
            Ok(link) => {
                self.tell_connected(host, port);
                Ok(link)
            }
            Err(_) => Err(Failed),
        }
    }

    fn recorder(&mut self, name: &[u8]) -> Result<TranscriptRecorder<FileSink>, Failed> {
        let recorder = self.open_recorder(name);
        self.tally.add_record(recorder.is_ok());
        self.refusal = reason(&recorder);
        match recorder {
            Ok(recorder) => Ok(recorder),
            Err(_) => Err(Failed),
        }
    }

    fn refuse(&mut self, _refusal: ThreadRefusal) {
        self.tally.add_refusal();
    }

    /// Closes the door.
    fn close_door(&mut self, door: TcpDoor) {
        self.tally.add_door(door.faults(), 0);
    }

    /// Closes the link.
    fn close_link(&mut self, inward: TcpInlet, outward: TcpOutlet) {
        self.tally
            .add_link(inward.faults(), outward.faults(), inward.ends());
    }

    /// Waits until the file has all that was noted, as long as it goes on taking, and closes it.
    fn close_recorder(&mut self, recorder: TranscriptRecorder<FileSink>) -> Result<(), Failed> {
        let (faults, written) = recorder.into_sink().close();
        self.tally.add_recorder(faults);
        written
    }
}
