//! A door that listens over TCP.
ghost use Rattle.std.specs.Prelude.{◌≡◌, ◌≤◌, true, false, Some, None, IfOk};
ghost use Rattle.std.specs.IoError.{error_kind, raw_os_error};
ghost use Rattle.serve_world_tcp.specs.declared.trouble.Trouble.{Trouble};
ghost use Rattle.serve_world_tcp.specs.Edges.{MeansNotYet, trouble_meant, times_borne};

use crate::link::{TcpInlet, TcpOutlet, halves};
use crate::not_yet::is_not_yet;
use crate::trouble::{Row, Trouble, borne, trouble_of};
use gate_outside::{Arrived, Door, Failed};
use std::alloc::Global;
use std::io::Eprint;
use std::net::{TcpListener, TcpStream};
use std::os::fd::OwnedFd;
use std::time::Duration;
use std::{io, mem, thread};

/// How long the door waits for a link before it tells that it has none for now, in milliseconds (this project's own
/// limit).
pub const ACCEPT_MILLISECONDS: u64 = 100;

/// How long the door pauses where a link can't be had or the host is short of memory or descriptors, in milliseconds (this
/// project's own).
pub const TROUBLE_MILLISECONDS: u64 = 100;

/// How often such trouble is borne in a row before it is a fault of the door (this project's own limit): with its pauses these
/// are 60 seconds.
pub const MOST_TROUBLE: u32 = 600;

/// A listening socket. It never tells that no link comes any more. Each kind of trouble is told once on standard error.
#[derive(Drop)]
pub struct TcpDoor {
    host: HostRuntime,
    listener: TcpListener,
    alloc: Global,
    faults: u64,
    waits: u64,
    row: Option<Row>,
    told_link: bool,
    told_host: bool,
}

impl TcpDoor {
    /// The door of this listener, which was not used.
    pub fn new(host: HostRuntime, alloc: Global, listener: TcpListener) -> io::Result<TcpDoor>
        ensures { IfOk result (λ door. door.faults ≡ 0) }
    {
        // a listener has no option for the time that it waits; as a stream, the same socket has
        let same = TcpStream::from(OwnedFd::from(listener.try_clone()?));
        same.set_read_timeout(Some(Duration::from_millis(ACCEPT_MILLISECONDS)))?;
        Ok(TcpDoor {
            host,
            listener,
            alloc,
            faults: 0,
            waits: 0,
            row: None,
            told_link: false,
            told_host: false,
        })
    }

    /// How often it has failed.
    pub fn faults(&self) -> u64
        ensures { result ≡ self.now.faults }
    {
        self.faults
    }

    /// The port at which it listens.
    pub fn port(&self) -> io::Result<u16> {
        Ok(self.listener.local_addr()?.port())
    }

    /// Whether an error of the system is no fault of the door: it had nothing for now, or trouble came that has not come too
    /// often in a row, and is over after a pause perhaps.
    fn bears(&mut self, error: &io::Error) -> bool
        ensures not_yet { MeansNotYet (error_kind error.now) → result ≡ true }
        ensures trouble { (trouble : Trouble) → trouble_meant (raw_os_error error.now) ≡ Some trouble
            → times_borne self.old.row trouble ≤ MOST_TROUBLE
            → result ≡ true }
        ensures fault { (MeansNotYet (error_kind error.now) → ⊥)
            → trouble_meant (raw_os_error error.now) ≡ None
            → result ≡ false }
        ensures faults { self.new.faults ≡ self.old.faults }
        ensures waits { self.new.waits ≡ self.old.waits }
    {
        if is_not_yet(error) {
            self.row = None;
            return true;
        }
        match trouble_of(error) {
            Some(trouble) => self.bears_more(trouble, error),
            None => false,
        }
    }

    /// The same of trouble.
    fn bears_more(&mut self, trouble: Trouble, error: &io::Error) -> bool
        ensures often { times_borne self.old.row trouble ≤ MOST_TROUBLE → result ≡ true }
        ensures faults { self.new.faults ≡ self.old.faults }
        ensures waits { self.new.waits ≡ self.old.waits }
    {
        let row = borne(self.row, trouble);
        self.row = Some(row);
        if row.times > MOST_TROUBLE {
            return false;
        }
        self.tell(trouble, error);
        thread::sleep(&self.host, Duration::from_millis(TROUBLE_MILLISECONDS));
        true
    }

    /// Tells of trouble where it is the first of its kind.
    fn tell(&mut self, trouble: Trouble, error: &io::Error)
        ensures faults { self.new.faults ≡ self.old.faults }
        ensures waits { self.new.waits ≡ self.old.waits }
    {
        let told = match trouble {
            Trouble::Link => mem::replace(&mut self.told_link, true),
            Trouble::Host => mem::replace(&mut self.told_host, true),
        };
        if !told {
            let _ = eprintln!(self.host; "accept: {error}; it is tried again");
        }
    }
}

impl Door for TcpDoor {
    type Inward = TcpInlet;

    type Outward = TcpOutlet;

    ghost links = { λ d. None };

    ghost faults = { λ d. d.faults };

    ghost waits = { λ d. d.waits };

    ghost ends = { λ d. 0 };

    /// A link that was gone before it was taken, and one for which the system refuses memory or an option, is no fault; nor is
    /// a host that is short of memory or descriptors, for some time.
    fn accept(&mut self) -> Result<Arrived<TcpInlet, TcpOutlet>, Failed> {
        let borne = match self.listener.accept() {
            Ok((stream, _)) => {
                self.row = None;
                if let Ok((inlet, outlet)) = halves(self.alloc, stream) {
                    return Ok(Arrived::Link(inlet, outlet));
                }
                true
            }
            Err(error) => self.bears(&error),
        };
        if borne {
            self.waits = self.waits.saturating_add(1);
            return Ok(Arrived::NotYet);
        }
        self.faults = self.faults.saturating_add(1);
        Err(Failed)
    }

    /// Closes the link.
    fn give_back(&mut self, _inward: TcpInlet, _outward: TcpOutlet) {}
}
