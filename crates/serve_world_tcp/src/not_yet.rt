//! Which errors of the system tell that it has nothing for now.
ghost use Rattle.std.specs.Prelude.{◌↔◌, IsTrue};
ghost use Rattle.std.specs.IoError.{error_kind};
ghost use Rattle.serve_world_tcp.specs.Edges.{MeansNotYet};

use std::io;
use std::io::ErrorKind;

/// Whether the system had nothing for now.
pub fn is_not_yet(error: &io::Error) -> bool
    ensures { IsTrue result ↔ MeansNotYet (error_kind error.now) }
{
    matches!(
        error.kind(),
        ErrorKind::WouldBlock | ErrorKind::TimedOut | ErrorKind::Interrupted
    )
}
