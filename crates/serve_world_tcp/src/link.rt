//! A link over TCP, by its two halves.
ghost use Rattle.std.specs.Prelude.{◌≡◌, ◌≤◌, None, IfOk, length};
ghost use Rattle.gate_outside.specs.Causes.{HasCause, Rose};
ghost use Rattle.serve_world_tcp.specs.Edges.{IsNewTcpLink};

use crate::not_yet::is_not_yet;
use gate_outside::{Failed, Got, Inlet, Outlet, Sink};
use std::alloc::Global;
use std::io;
use std::io::{ErrorKind, Read, Write};
use std::net::{Net, Shutdown, SocketAddr, TcpStream, ToSocketAddrs};
use std::sync::Arc;
use std::time::{Duration, Instant};

/// How long the making of a link may take, in seconds, over all addresses of the host (this project's own limit). How long
/// the host's name is looked up is for the resolver to say.
pub const DIAL_SECONDS: u64 = 10;

/// How long the other side may take nothing of what is offered to it, in seconds (this project's own limit).
pub const WRITE_SECONDS: u64 = 10;

/// How long an offer waits for the other side to take something, in milliseconds (this project's own limit). The system may wait
/// for a few more.
pub const OFFER_MILLISECONDS: u64 = 4;

/// How long a read waits for the other side before it tells that it has nothing for now, in milliseconds (this project's own
/// limit). A reader looks after its connection as often.
pub const READ_MILLISECONDS: u64 = 100;

/// How long a read waits behind one that filled its buffer, in milliseconds (this project's own limit): who reads may hold
/// something back that is handed on once no more is at hand. The system may wait for a few more.
const MORE_MILLISECONDS: u64 = 1;

/// So many offers in turn of which the other side takes nothing are a fault.
const MOST_STALLS: u64 = WRITE_SECONDS * 1_000 / OFFER_MILLISECONDS;

/// What comes in by a link.
#[derive(Drop)]
pub struct TcpInlet {
    stream: Arc<TcpStream>,
    /// Whether the last read filled its buffer.
    filled: bool,
    /// Whether a read waits for a short time only.
    brief: bool,
    faults: u64,
    waits: u64,
    ends: u64,
}

impl TcpInlet {
    /// How often it has failed.
    pub fn faults(&self) -> u64
        ensures { result ≡ self.now.faults }
    {
        self.faults
    }

    /// How often it has told its end.
    pub fn ends(&self) -> u64
        ensures { result ≡ self.now.ends }
    {
        self.ends
    }
}

impl TcpInlet {
    /// Has the next read wait for a short time only where the last one filled its buffer.
    fn set_wait(&mut self)
        ensures faults { self.new.faults ≡ self.old.faults }
        ensures waits { self.new.waits ≡ self.old.waits }
        ensures ends { self.new.ends ≡ self.old.ends }
    {
        if self.filled == self.brief {
            return;
        }
        let millis = if self.filled {
            MORE_MILLISECONDS
        } else {
            READ_MILLISECONDS
        };
        if self
            .stream
            .set_read_timeout(Some(Duration::from_millis(millis)))
            .is_ok()
        {
            self.brief = self.filled;
        }
    }
}

impl Inlet for TcpInlet {
    ghost rest = { λ s. None };

    ghost faults = { λ s. s.faults };

    ghost waits = { λ s. s.waits };

    ghost ends = { λ s. s.ends };

    fn read(&mut self, into: &mut [u8]) -> Result<Got, Failed> {
        self.set_wait();
        self.filled = false;
        let mut stream: &TcpStream = &self.stream;
        match stream.read(into) {
            Ok(0) => {
                self.ends = self.ends.saturating_add(1);
                Ok(Got::End)
            }
            Ok(count) => {
                self.filled = count >= into.len();
                Ok(Got::Bytes(count))
            }
            Err(error) if is_not_yet(&error) => {
                self.waits = self.waits.saturating_add(1);
                Ok(Got::NotYet)
            }
            Err(_) => {
                self.faults = self.faults.saturating_add(1);
                Err(Failed)
            }
        }
    }

    fn shut(&mut self) {
        let _ = self.stream.shutdown(Shutdown::Both);
    }
}

/// What goes out by a link. It fails where the other side takes nothing for too long.
#[derive(Drop)]
pub struct TcpOutlet {
    stream: Arc<TcpStream>,
    /// How many offers in turn found that the other side takes nothing for now.
    stalls: u64,
    faults: u64,
}

impl TcpOutlet {
    /// How often it has failed.
    pub fn faults(&self) -> u64
        ensures { result ≡ self.now.faults }
    {
        self.faults
    }

    /// Counts a fault.
    fn fail(&mut self) -> Failed
        ensures { Rose self.old.faults self.new.faults }
    {
        self.faults = self.faults.saturating_add(1);
        Failed
    }
}

impl Sink for TcpOutlet {
    ghost written = { λ s. None };

    ghost faults = { λ s. s.faults };

    fn write(&mut self, piece: &[u8]) -> Result<usize, Failed> {
        for _ in 0..MOST_STALLS {
            let count = self.offer(piece)?;
            if count > 0 {
                return Ok(count);
            }
        }
        Err(self.fail())
    }
}

impl Outlet for TcpOutlet {
    fn offer(&mut self, piece: &[u8]) -> Result<usize, Failed>
        ensures within { IfOk result (λ n. n ≤ length piece.now) }
        ensures counts { HasCause self.old.faults self.new.faults result }
    {
        let mut stream: &TcpStream = &self.stream;
        match stream.write(piece) {
            Ok(count) if count > 0 => {
                self.stalls = 0;
                Ok(count)
            }
            Err(error) if is_not_yet(&error) && self.stalls < MOST_STALLS => {
                self.stalls += 1;
                Ok(0)
            }
            _ => Err(self.fail()),
        }
    }

    /// Shuts the link both ways, so that a read of its inlet that waits tells the end.
    fn shut(&mut self) {
        let _ = self.stream.shutdown(Shutdown::Both);
    }
}

/// The two halves of a link over this stream, which was not used. What is written is sent at once.
pub fn halves(alloc: Global, stream: TcpStream) -> io::Result<(TcpInlet, TcpOutlet)>
    ensures { IfOk result (λ link. IsNewTcpLink link.0 link.1) }
{
    stream.set_nodelay(true)?;
    stream.set_read_timeout(Some(Duration::from_millis(READ_MILLISECONDS)))?;
    stream.set_write_timeout(Some(Duration::from_millis(OFFER_MILLISECONDS)))?;
    let ours = Arc::new(alloc, stream)?;
    let theirs = Arc::try_clone(&ours)?;
    let inlet = TcpInlet {
        stream: ours,
        filled: false,
        brief: false,
        faults: 0,
        waits: 0,
        ends: 0,
    };
    Ok((
        inlet,
        TcpOutlet {
            stream: theirs,
            stalls: 0,
            faults: 0,
        },
    ))
}

/// A stream to this host and port. Each address of the host has its share of [`DIAL_SECONDS`]; the last error is told.
pub fn connect_within<R: Net<Stream = TcpStream>>(
    rt: &R,
    clock: &HostRuntime,
    host: &str,
    port: u16,
) -> io::Result<TcpStream> {
    let addresses = (host, port).to_socket_addrs(rt)?;
    let begun = Instant::now(clock)?;
    let mut ahead = addresses.len();
    let mut last = io::Error::from(ErrorKind::NotFound);
    for address in addresses {
        match connect_to(rt, clock, &address, begun, ahead) {
            Ok(stream) => return Ok(stream),
            Err(error) => last = error,
        }
        ahead = ahead.saturating_sub(1);
    }
    Err(last)
}

/// A stream to this address, the first of so many that are left to try; the first try began at `begun`.
fn connect_to<R: Net<Stream = TcpStream>>(
    rt: &R,
    clock: &HostRuntime,
    address: &SocketAddr,
    begun: Instant,
    ahead: usize,
) -> io::Result<TcpStream> {
    let left = Duration::from_secs(DIAL_SECONDS).saturating_sub(begun.elapsed(clock)?);
    let share = left / u32::try_from(ahead).unwrap_or(u32::MAX).max(1);
    TcpStream::connect_timeout(rt, address, share)
}
