//! The kinds of words, and the check of words by a list of kinds.
ghost use Rattle.std.specs.Prelude.{◌≡◌, IfOk, OnErr, map, string_bytes};
ghost use Rattle.command_line.specs.Kinds.{is_name_word, clients_in, drill_number_in, stations_in, ChecksWords};
ghost use Rattle.command_line.specs.Kinds.{is_of};
ghost use Rattle.command_line.specs.declared.kinds.Kind.TheVariants.{Base as base_kind};

use crate::options::MOST_STATIONS;
use gate_bytes::{Memory, read_decimal};
use rtsp_uri::{BaseFault, read_base};
use std::alloc::Global;

/// The most digits of the word with the number of a drill's players.
pub const CLIENTS_DIGITS: u32 = 2;

/// The most players of a drill.
pub const MOST_CLIENTS: u64 = 64;

/// The most digits of the number from which a drill is made.
pub const NUMBER_DIGITS: u32 = 19;

/// The most digits of the word with the number of stations.
pub const STATIONS_DIGITS: u32 = 2;

/// The most bytes of a word that names a place outside.
pub const LONGEST_NAME: usize = 255;

/// What a word after a command is.
#[derive(Clone, Copy, Debug, PartialEq, Eq)]
pub enum Kind {
    /// The address of one side, as [`rtsp_uri::read_base`] reads it.
    Base,
    /// How many players a drill has: one or two digits, 1 to [`MOST_CLIENTS`].
    Clients,
    /// The number that fixes a drill: 1 to [`NUMBER_DIGITS`] digits.
    Number,
    /// An address or a file: 1 to [`LONGEST_NAME`] bytes, of which the first is no `-`.
    Name,
    /// How many stations serve players: one or two digits, 1 to [`MOST_STATIONS`].
    Stations,
}

/// Why words are no command.
#[derive(Clone, Copy, Debug, PartialEq, Eq)]
pub enum WordsFault {
    /// The place of the first word that is refused, counted from 0 after the program's name. It is 0 where there is
    /// no word or the command is unknown.
    Place(usize),
    /// Memory ran out before the first word that is refused was found.
    Memory,
}

impl From<Memory> for WordsFault {
    ghost use Rattle.std.specs.Prelude.{◌≡◌};
    ghost use Rattle.command_line.specs.declared.kinds.WordsFault.TheVariants as fault;

    ghost from_gives = { λ _ e. e ≡ fault.Memory };

    fn from(_: Memory) -> WordsFault {
        WordsFault::Memory
    }
}

/// Whether the words after a command are of these kinds, one after the other, and no more; or the place of the first that
/// is not.
pub fn check_words(alloc: Global, kinds: &[Kind], words: &[String]) -> Result<(), WordsFault>
    ensures { ChecksWords result kinds.now (map string_bytes words.now) }
{
    let mut kinds = kinds;
    let mut words = words;
    let mut place = 1usize;
    while let [kind, more_kinds @ ..] = kinds {
        let [word, more_words @ ..] = words else {
            return Err(WordsFault::Place(place));
        };
        if !is_of(alloc, *kind, word.as_str())? {
            return Err(WordsFault::Place(place));
        }
        kinds = more_kinds;
        words = more_words;
        place += 1;
    }
    if !words.is_empty() {
        return Err(WordsFault::Place(place));
    }
    Ok(())
}

/// Whether a word is of this kind. Only an address takes memory to read.
fn is_of(alloc: Global, kind: Kind, word: &str) -> Result<bool, Memory>
    ensures ok { IfOk result (λ answer. answer ≡ is_of kind word.now) }
    ensures err { OnErr result (kind ≡ base_kind) }
{
    match kind {
        Kind::Base => names_base(alloc, word),
        Kind::Clients => Ok(read_clients(word).is_some()),
        Kind::Number => Ok(read_number(word).is_some()),
        Kind::Name => Ok(is_name(word)),
        Kind::Stations => Ok(read_stations(word).is_some()),
    }
}

/// Whether a word names a base.
fn names_base(alloc: Global, word: &str) -> Result<bool, Memory>
    ensures { IfOk result (λ answer. answer ≡ is_of base_kind word.now) }
{
    match read_base(alloc, word) {
        Ok(_) => Ok(true),
        Err(BaseFault::Refused) => Ok(false),
        Err(BaseFault::Memory) => Err(Memory),
    }
}

/// Whether a word can name an address to listen at or a recording.
fn is_name(word: &str) -> bool
    ensures { result ≡ is_name_word word.now }
{
    match word.as_bytes() {
        [] => false,
        [first, ..] => *first != b'-' && word.len() <= LONGEST_NAME,
    }
}

/// The number of players that a word tells.
pub fn read_clients(word: &str) -> Option<u32>
    ensures { result ≡ clients_in word.now }
{
    let clients = read_decimal(word.as_bytes(), CLIENTS_DIGITS)?;
    if clients == 0 || clients > MOST_CLIENTS {
        return None;
    }
    Some(clients as u32)
}

/// The number of a drill that a word tells.
pub fn read_number(word: &str) -> Option<u64>
    ensures { result ≡ drill_number_in word.now }
{
    read_decimal(word.as_bytes(), NUMBER_DIGITS)
}

/// The number of stations that a word tells.
pub fn read_stations(word: &str) -> Option<u8>
    ensures { result ≡ stations_in word.now }
{
    let stations = read_decimal(word.as_bytes(), STATIONS_DIGITS)?;
    if stations == 0 || stations > u64::from(MOST_STATIONS) {
        return None;
    }
    Some(stations as u8)
}
