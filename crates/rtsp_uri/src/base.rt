//! Bases: the addresses of the gateway and of the server behind it.
ghost use Rattle.std.specs.Prelude.{IfOk};
ghost use Rattle.rtsp_uri.specs.BaseTexts.{IsBase};

use gate_bytes::{Memory, Text};
use std::alloc::Global;

/// A base: the address of one side of the gateway.
///
/// `rtsp://` followed by its text is a URI without a rest, of [`LONGEST_BASE`](crate::LONGEST_BASE)
/// bytes at most, and its host and port are those of that URI.
#[derive(Drop)]
pub struct Base {
    /// The host and, where there is one, `:` and the port.
    pub text: Text,
    /// The host, as it stands in the text.
    pub host: Text,
    /// The port, where one is named.
    pub port: Option<u16>,
    pub ghost whole: { IsBase text host port },
}

/// The bases of a run.
#[derive(Drop)]
pub struct Bases {
    /// What players call the gateway.
    pub front: Base,
    /// What the gateway calls the server behind it.
    pub up: Base,
}

impl Base {
    ghost use Rattle.rtsp_uri.specs.Bases.{IsSameAddress};

    /// Another base with the same address.
    pub fn try_clone(&self, alloc: Global) -> Result<Base, Memory>
        ensures { IfOk result (λ copy. IsSameAddress copy self.now) }
    {
        Ok(Base {
            text: Text::copy(alloc, self.text.as_bytes())?,
            host: Text::copy(alloc, self.host.as_bytes())?,
            port: self.port,
        })
    }
}

impl Bases {
    ghost use Rattle.rtsp_uri.specs.Bases.{AreSameAddresses};

    /// Other bases with the same addresses.
    pub fn try_clone(&self, alloc: Global) -> Result<Bases, Memory>
        ensures { IfOk result (λ copies. AreSameAddresses copies self.now) }
    {
        Ok(Bases {
            front: self.front.try_clone(alloc)?,
            up: self.up.try_clone(alloc)?,
        })
    }
}
