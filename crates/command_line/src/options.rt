//! What the command `serve` is asked.
ghost use Rattle.std.specs.Prelude.{◌<◌, ◌≤◌};
ghost use Rattle.command_line.specs.declared.options.TheConstants.{MOST_STATIONS};

use gate_bytes::Text;
use rtsp_uri::Bases;

/// The most stations: so many players are served side by side.
pub const MOST_STATIONS: u8 = 64;

/// What the command `serve` is asked.
#[derive(Drop)]
pub struct ServeOptions {
    /// The bases that it stands between.
    pub bases: Bases,
    /// The address at which players are awaited, of 1 to [`LONGEST_NAME`](crate::LONGEST_NAME) bytes.
    pub listen: Text,
    /// How many stations serve them, 1 to [`MOST_STATIONS`].
    pub stations: u8,
    /// The name of the recording, of 1 to [`LONGEST_NAME`](crate::LONGEST_NAME) bytes.
    pub recorder: Text,
    pub ghost some: { (0 < stations) × (stations ≤ MOST_STATIONS) },
}
