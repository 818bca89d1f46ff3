//! The words that a run is started with.
ghost use Rattle.std.specs.Prelude.{◌≡◌, true, None, Some, is_some, map, string_bytes, [], ◌∷◌, IfOk, MatchOption};
ghost use Rattle.rtsp_uri.specs.Words.{base_in};
ghost use Rattle.command_line.specs.Kinds.{is_base_word, clients_in, drill_number_in, stations_in, first_fault};
ghost use Rattle.command_line.specs.Words.{replay_word, drill_word, serve_word, replay_kinds, drill_kinds, serve_kinds, NamesCommand, NamesReplay, NamesServe, ReadsWords, asks_to_serve};

use crate::clap_commands::{ServeWords, drill_words, replay_words, serve_words};
use crate::kinds::{Kind, WordsFault, check_words, read_clients, read_number, read_stations};
use crate::options::ServeOptions;
use gate_bytes::{Memory, Text};
use rtsp_uri::{Base, BaseFault, Bases, read_base};
use std::alloc::Global;

/// The first word of the command that replays a transcript.
pub const REPLAY: [u8; 6] = *b"replay";

/// The kinds of its other words.
const REPLAY_KINDS: [Kind; 2] = [Kind::Base, Kind::Base];

/// The first word of the command that plays a drill.
pub const DRILL: [u8; 5] = *b"drill";

/// The kinds of its other words.
const DRILL_KINDS: [Kind; 2] = [Kind::Clients, Kind::Number];

/// The first word of the command that serves players.
pub const SERVE: [u8; 5] = *b"serve";

/// The kinds of its other words.
const SERVE_KINDS: [Kind; 5] = [
    Kind::Base,
    Kind::Base,
    Kind::Name,
    Kind::Stations,
    Kind::Name,
];

/// What the program is asked to do.
#[derive(Drop)]
pub enum Command {
    /// `replay FRONT UP`: replay a transcript between these bases. Each word is the address of one side, as
    /// [`rtsp_uri::read_base`] reads it.
    Replay(Bases),
    /// `drill CLIENTS NUMBER`: play a drill with 1 to [`MOST_CLIENTS`](crate::MOST_CLIENTS) players from a number.
    Drill(u32, u64),
    /// `serve FRONT UP LISTEN STATIONS RECORD`: serve players between these bases, and record what happens.
    Serve(ServeOptions),
}

/// The command that these words, without the program's name, spell.
///
/// # Errors
///
/// [`WordsFault::Place`] with the place of the first word that is missing, not of its kind, or one too many.
/// [`WordsFault::Memory`] where memory ran out: while an address was read, or after no word was refused.
pub fn read_words(alloc: Global, words: &[String]) -> Result<Command, WordsFault>
    ensures { ReadsWords result (map string_bytes words.now) }
{
    let Some((command, words)) = first_word(words) else {
        return Err(WordsFault::Place(0));
    };
    if command.as_bytes() == REPLAY.as_slice() {
        return read_replay(alloc, words);
    }
    if command.as_bytes() == DRILL.as_slice() {
        return read_drill(alloc, words);
    }
    if command.as_bytes() == SERVE.as_slice() {
        return read_serve(alloc, words);
    }
    Err(WordsFault::Place(0))
}

/// Whether the first word is that of the command that serves players.
pub fn asks_to_serve(words: &[String]) -> bool
    ensures { result ≡ asks_to_serve (map string_bytes words.now) }
{
    match first_word(words) {
        Some((command, _)) => command.as_bytes() == SERVE.as_slice(),
        None => false,
    }
}

/// The first word, and those after it.
pub fn first_word(words: &[String]) -> Option<(&str, &[String])>
    ensures { MatchOption result (words.now ≡ []) (λ parts.
        map string_bytes words.now ≡ parts.0.now ∷ map string_bytes parts.1.now) }
{
    let (first, rest) = words.split_first()?;
    Some((first.as_str(), rest))
}

/// The replay that these words after the first one spell.
fn read_replay(alloc: Global, words: &[String]) -> Result<Command, WordsFault>
    ensures { ReadsWords result (replay_word ∷ map string_bytes words.now) }
{
    match check_words(alloc, REPLAY_KINDS.as_slice(), words) {
        Ok(()) => {}
        Err(fault) => return Err(fault),
    }
    match name_replay(alloc, words) {
        Ok(bases) => Ok(Command::Replay(bases)),
        Err(Memory) => Err(WordsFault::Memory),
    }
}

/// The bases that the words of a replay name. They are handed out by name.
fn name_replay(alloc: Global, words: &[String]) -> Result<Bases, Memory>
    requires { first_fault 1 replay_kinds (map string_bytes words.now) ≡ None }
    ensures { IfOk result (λ bases. NamesReplay bases (replay_word ∷ map string_bytes words.now)) }
{
    let [front, up] = words else {
        unreachable!();
    };
    let line = ["replay", "--", front.as_str(), up.as_str()];
    let named = replay_words(alloc, &line)?;
    bases_named(alloc, named.one, named.other)
}

/// The bases that these words name.
fn bases_named(alloc: Global, front: &str, up: &str) -> Result<Bases, Memory>
    requires front { is_base_word front.now ≡ true }
    requires up { is_base_word up.now ≡ true }
    ensures front { IfOk result (λ bases. base_in front.now ≡ Some bases.front.text) }
    ensures up { IfOk result (λ bases. base_in up.now ≡ Some bases.up.text) }
{
    Ok(Bases {
        front: base_named(alloc, front)?,
        up: base_named(alloc, up)?,
    })
}

/// The base that a word names.
fn base_named(alloc: Global, word: &str) -> Result<Base, Memory>
    requires { is_base_word word.now ≡ true }
    ensures { IfOk result (λ base. base_in word.now ≡ Some base.text) }
{
    match read_base(alloc, word) {
        Ok(base) => Ok(base),
        Err(BaseFault::Memory) => Err(Memory),
        Err(BaseFault::Refused) => unreachable!(),
    }
}

/// The drill that these words after the first one spell.
fn read_drill(alloc: Global, words: &[String]) -> Result<Command, WordsFault>
    ensures { ReadsWords result (drill_word ∷ map string_bytes words.now) }
{
    match check_words(alloc, DRILL_KINDS.as_slice(), words) {
        Ok(()) => {}
        Err(fault) => return Err(fault),
    }
    match name_drill(alloc, words) {
        Ok(command) => Ok(command),
        Err(Memory) => Err(WordsFault::Memory),
    }
}

/// The drill that the words of a drill name. They are handed out by name.
fn name_drill(alloc: Global, words: &[String]) -> Result<Command, Memory>
    requires { first_fault 1 drill_kinds (map string_bytes words.now) ≡ None }
    ensures { IfOk result (λ command. NamesCommand command (drill_word ∷ map string_bytes words.now)) }
{
    let [clients, number] = words else {
        unreachable!();
    };
    let line = ["drill", "--", clients.as_str(), number.as_str()];
    let named = drill_words(alloc, &line)?;
    Ok(drill_named(named.one, named.other))
}

/// The drill with these numbers.
fn drill_named(clients: &str, number: &str) -> Command
    requires clients { is_some (clients_in clients.now) ≡ true }
    requires number { is_some (drill_number_in number.now) ≡ true }
    ensures { NamesCommand result (drill_word ∷ clients.now ∷ number.now ∷ []) }
{
    Command::Drill(read_clients(clients).unwrap(), read_number(number).unwrap())
}

/// The run that serves players that these words after the first one spell.
fn read_serve(alloc: Global, words: &[String]) -> Result<Command, WordsFault>
    ensures { ReadsWords result (serve_word ∷ map string_bytes words.now) }
{
    match check_words(alloc, SERVE_KINDS.as_slice(), words) {
        Ok(()) => {}
        Err(fault) => return Err(fault),
    }
    match name_serve(alloc, words) {
        Ok(options) => Ok(Command::Serve(options)),
        Err(Memory) => Err(WordsFault::Memory),
    }
}

/// The options that the words of `serve` name. They are handed out by name.
fn name_serve(alloc: Global, words: &[String]) -> Result<ServeOptions, Memory>
    requires { first_fault 1 serve_kinds (map string_bytes words.now) ≡ None }
    ensures { IfOk result (λ options. NamesServe options (serve_word ∷ map string_bytes words.now)) }
{
    let [front, up, listen, stations, recorder] = words else {
        unreachable!();
    };
    let line = [
        "serve",
        "--",
        front.as_str(),
        up.as_str(),
        listen.as_str(),
        stations.as_str(),
        recorder.as_str(),
    ];
    let named = serve_words(alloc, &line)?;
    serve_named(alloc, named)
}

/// The options that these words name.
fn serve_named(alloc: Global, words: ServeWords<'_>) -> Result<ServeOptions, Memory>
    requires front { is_base_word words.front.now ≡ true }
    requires up { is_base_word words.up.now ≡ true }
    requires stations { is_some (stations_in words.stations.now) ≡ true }
    ensures { IfOk result (λ options.
        NamesServe options
        (serve_word ∷ words.entry.front.now ∷ words.entry.up.now ∷ words.entry.listen.now
        ∷ words.entry.stations.now ∷ words.entry.recorder.now ∷ [])) }
{
    let bases = bases_named(alloc, words.front, words.up)?;
    let listen = Text::copy(alloc, words.listen.as_bytes())?;
    let recorder = Text::copy(alloc, words.recorder.as_bytes())?;
    let stations = read_stations(words.stations).unwrap();
    Ok(ServeOptions {
        bases,
        listen,
        stations,
        recorder,
    })
}
