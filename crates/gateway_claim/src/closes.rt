//! How records and reports tell why a connection was closed.
ghost use Rattle.std.specs.Prelude.{◌≡◌};
ghost use Rattle.gateway_claim.specs.Happenings.{close_byte};

use client_machine::CloseWhy;

/// The byte that tells of a connection that its own end closed.
pub const END_CLOSE: u8 = b'E';

/// The byte that tells of a connection that a Bad item closed.
pub const BAD_ITEM_CLOSE: u8 = b'B';

/// The byte that tells of a connection whose client took its bytes too slowly.
pub const SLOW_CLOSE: u8 = b'S';

/// The byte that tells of a connection that the end of the connection to the server closed.
pub const UPSTREAM_CLOSE: u8 = b'U';

/// The byte that tells why a connection was closed.
pub fn close_byte(why: CloseWhy) -> u8
    ensures { result ≡ close_byte why }
{
    match why {
        CloseWhy::Ended => END_CLOSE,
        CloseWhy::BadItem => BAD_ITEM_CLOSE,
        CloseWhy::Slow => SLOW_CLOSE,
        CloseWhy::Upstream => UPSTREAM_CLOSE,
    }
}
