//! What keeps a sound door from giving a link.
ghost use Rattle.std.specs.Prelude.{◌≡◌};
ghost use Rattle.std.specs.IoError.{raw_os_error};
ghost use Rattle.serve_world_tcp.specs.Edges.{trouble_meant, times_borne};

use std::io;

/// The errors of one link that came: it was gone or refused before it was taken, or its network failed (accept(2) of Linux:
/// EPERM, ENONET, EPROTO, ENOPROTOOPT, EOPNOTSUPP, ENETDOWN, ENETUNREACH, ECONNABORTED, ECONNRESET, EHOSTDOWN, EHOSTUNREACH).
pub const LINK_ERRORS: [u32; 11] = [1, 64, 71, 92, 95, 100, 101, 103, 104, 112, 113];

/// The errors of a host that is short of memory or descriptors (ENOMEM, ENFILE, EMFILE, ENOBUFS).
pub const HOST_ERRORS: [u32; 4] = [12, 23, 24, 105];

/// What keeps a sound door from giving a link.
#[derive(Clone, Copy, Debug, PartialEq, Eq)]
pub enum Trouble {
    /// The link that came can't be had; the next one may.
    Link,
    /// The host is short of memory or descriptors for now.
    Host,
}

/// The trouble that an error tells; none where the door itself has failed.
pub fn trouble_of(error: &io::Error) -> Option<Trouble>
    ensures { result ≡ trouble_meant (raw_os_error error.now) }
{
    let code = error.raw_os_error()?.unsigned_abs();
    if LINK_ERRORS.contains(&code) {
        Some(Trouble::Link)
    } else if HOST_ERRORS.contains(&code) {
        Some(Trouble::Host)
    } else {
        None
    }
}

/// How often the same trouble came in a row.
#[derive(Clone, Copy, Debug, PartialEq, Eq)]
pub struct Row {
    /// The trouble.
    pub trouble: Trouble,
    /// How often it came, at least once.
    pub times: u32,
}

/// The row with one trouble more. Another one than before begins a row.
pub fn borne(row: Option<Row>, trouble: Trouble) -> Row
    ensures trouble { result.trouble ≡ trouble }
    ensures times { result.times ≡ times_borne row trouble }
{
    let times = match row {
        Some(row) if row.trouble == trouble => row.times.saturating_add(1),
        _ => 1,
    };
    Row { trouble, times }
}
