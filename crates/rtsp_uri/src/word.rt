//! Words of the command line that name a base.
ghost use Rattle.std.specs.Prelude.{◌≡◌, None, Some, IfOk, IsErrOf};
ghost use Rattle.rtsp_uri.specs.Bases.{MadeOf};
ghost use Rattle.rtsp_uri.specs.Words.{base_in, names_base};

use crate::base::Base;
use crate::grammar::{SCHEME, SCHEME_BYTES, cut};
use gate_bytes::{Memory, Text, after, before};
use std::alloc::Global;
use std::fmt;
use url::{ParseError, Url};

/// Why a word gives no base.
#[derive(Clone, Copy, Debug, PartialEq, Eq)]
pub enum BaseFault {
    /// The word names no base.
    Refused,
    /// Memory ran out.
    Memory,
}

impl fmt::Display for BaseFault {
    fn fmt<W: fmt::Write>(&self, f: &mut fmt::Formatter<W>) -> fmt::Result {
        f.write_str(match self {
            BaseFault::Refused => "no base",
            BaseFault::Memory => "out of memory",
        })
    }
}

impl std::error::Error for BaseFault {}

impl From<Memory> for BaseFault {
    ghost use Rattle.std.specs.Prelude.{◌≡◌};
    ghost use Rattle.rtsp_uri.specs.declared.word.BaseFault.TheVariants as fault;

    ghost from_gives = { λ _ e. e ≡ fault.Memory };

    fn from(_: Memory) -> BaseFault {
        BaseFault::Memory
    }
}

/// The most bytes of a word that names a base, and of the URI that the base then is.
pub const LONGEST_BASE: usize = 255;

/// The most bytes of a base's text, which `rtsp://` is not part of.
pub const LONGEST_BASE_TEXT: usize = LONGEST_BASE - SCHEME_BYTES;

/// The base that a word names, as `url` reads the word.
///
/// The word has the scheme `rtsp`, a host, a port or none, and nothing else but a single `/`: no
/// user name, password, query or fragment. Its host and port, behind `rtsp://`, are a URI of this
/// crate's grammar of at most [`LONGEST_BASE`] bytes. A longer word is refused before it is read.
///
/// # Errors
///
/// [`BaseFault::Refused`] exactly where the word names no base, and [`BaseFault::Memory`] where
/// memory ran out before that was known.
pub fn read_base(alloc: Global, word: &str) -> Result<Base, BaseFault>
    ensures ok { IfOk result (λ base. base_in word.now ≡ Some base.text) }
    ensures refused { IsErrOf result BaseFault.Refused → base_in word.now ≡ None }
{
    if word.len() > LONGEST_BASE {
        return Err(BaseFault::Refused);
    }
    let url = match Url::parse(alloc, word) {
        Ok(url) => url,
        Err(ParseError::OutOfMemory | ParseError::Overflow) => return Err(BaseFault::Memory),
        Err(_) => return Err(BaseFault::Refused),
    };
    if !names_base(&url) {
        return Err(BaseFault::Refused);
    }
    match base_with(alloc, url.authority().as_bytes())? {
        Some(base) => Ok(base),
        None => Err(BaseFault::Refused),
    }
}

/// Whether a URL has the scheme `rtsp`, and beside host and port nothing but a single `/`.
fn names_base(url: &Url) -> bool
    ensures { result ≡ names_base url.now }
{
    url.scheme() == "rtsp"
        && url.username().is_empty()
        && url.password().is_none()
        && (url.path().is_empty() || url.path() == "/")
        && url.query().is_none()
        && url.fragment().is_none()
}

/// The base with this text; none where the text names no base.
fn base_with(alloc: Global, text: &[u8]) -> Result<Option<Base>, Memory>
    ensures { IfOk result (λ made. MadeOf text.now made) }
{
    if text.len() > LONGEST_BASE_TEXT {
        return Ok(None);
    }
    let mut uri = Text::with_room(alloc, SCHEME_BYTES + text.len())?;
    uri.push_slice(SCHEME)?;
    uri.push_slice(text)?;
    let Some(places) = cut(uri.as_bytes()) else {
        return Ok(None);
    };
    if places.rest < uri.len() {
        return Ok(None);
    }
    let host = after(before(uri.as_bytes(), places.host_end), SCHEME_BYTES);
    Ok(Some(Base {
        text: Text::copy(alloc, text)?,
        host: Text::copy(alloc, host)?,
        port: places.port,
    }))
}
