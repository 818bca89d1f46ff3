//! The limits and the exit statuses, as the help tells them. Their numbers are the constants and the statuses themselves;
//! the pages on how to run the program say the same, and `tools/check_pages` compares them.

use channel_map::PAIRS;
use command_line::{Form, MOST_STATIONS};
use gate_transcript::BadEntryKind;
use gateway_claim::UpCause;
use gateway_links::MOST_HELD;
use gateway_replay::LONGEST_TRANSCRIPT;
use hub_queues::{
    INWARD_CAPACITY, MOST_CONNECTIONS, OUTWARD_CAPACITY, SERVER_CAPACITY, SERVER_INWARD_CAPACITY,
};
use play_queue::MOST_PLAYS;
use rtsp_head::{MOST_BODY, MOST_HEAD, MOST_HEADERS};
use rtsp_small::LAST_CSEQ_TWO;
use run_status::Status;
use serve_world_tcp::QUEUE_BYTES;
use session_one::{MOST_SESSIONS, MOST_TRACKS};
use std::alloc::{AllocError, Global};

/// What is counted, and the most of it.
const LIMITS: [(&str, u64); 17] = [
    ("players at once", MOST_STATIONS as u64),
    ("players of one run", MOST_CONNECTIONS as u64),
    ("sessions of a player", MOST_SESSIONS as u64),
    ("tracks of a session", MOST_TRACKS as u64),
    ("PLAYs of a session that wait", MOST_PLAYS as u64),
    (
        "pairs of channels to the server, one for each track",
        PAIRS as u64,
    ),
    ("requests to the server", LAST_CSEQ_TWO as u64),
    ("bytes of a head", MOST_HEAD as u64),
    ("headers of a head", MOST_HEADERS as u64),
    ("bytes of a body", MOST_BODY),
    (
        "items of a player that wait to be treated",
        INWARD_CAPACITY as u64,
    ),
    (
        "items of the server that wait to be treated",
        SERVER_INWARD_CAPACITY as u64,
    ),
    ("pieces that wait for a player", OUTWARD_CAPACITY as u64),
    (
        "bytes held for a player whose socket is full",
        MOST_HELD as u64,
    ),
    ("pieces that wait for the server", SERVER_CAPACITY as u64),
    (
        "bytes of a recording that wait for the file",
        QUEUE_BYTES as u64,
    ),
    (
        "bytes of a transcript that is replayed",
        LONGEST_TRANSCRIPT as u64,
    ),
];

// The ways in which a run ends: the status, which is one of them where it says a place or a cause; the only command that ends
// so; and what it means.
const ENDS: [(Status, Option<Form>, &str); 14] = [
    (
        Status::Done,
        None,
        "all was done; of serve: no player comes any more",
    ),
    (
        Status::Usage { place: 0 },
        None,
        "the word at this place is refused, counted from 0",
    ),
    (
        Status::SourceFault,
        Some(Form::Replay),
        "standard input failed",
    ),
    (Status::SinkFault, None, "standard output failed"),
    (
        Status::BadTranscript {
            place: 0,
            kind: BadEntryKind::Magic,
        },
        Some(Form::Replay),
        "the entry whose first byte is here has this fault",
    ),
    (
        Status::Upstream {
            cause: UpCause::Ended,
        },
        Some(Form::Serve),
        "the connection to the server ended, for this cause",
    ),
    (
        Status::ListenFault,
        Some(Form::Serve),
        "no socket listens at LISTEN",
    ),
    (
        Status::RecordFault,
        Some(Form::Serve),
        "RECORD can't be opened or written",
    ),
    (
        Status::CrewRefused,
        Some(Form::Serve),
        "a thread was refused",
    ),
    (Status::Memory, None, "memory was wanting"),
    (
        Status::TooLong,
        Some(Form::Replay),
        "the transcript is too long",
    ),
    (
        Status::AcceptFault,
        Some(Form::Serve),
        "a player could not be accepted",
    ),
    (
        Status::DialFault,
        Some(Form::Serve),
        "the server can't be reached at UP",
    ),
    (
        Status::NumbersSpent,
        Some(Form::Serve),
        "all numbers of players were given",
    ),
];

/// A call of each command.
const EXAMPLES: &str = "
examples:
  rtspgate replay rtsp://gate.example rtsp://media.example < transcript > records
  rtspgate drill 64 7
  rtspgate serve rtsp://gate.example rtsp://media.example 0.0.0.0:8554 8 recording
";

/// The end of the help: of the program, or of one command.
///
/// # Errors
///
/// An [`AllocError`] where memory ran out.
pub fn end_of_help(alloc: Global, form: Option<Form>) -> Result<String, AllocError> {
    let mut text = String::new(alloc);
    push_limits(&mut text)?;
    push_ends(alloc, &mut text, form)?;
    if form.is_none() {
        text.push_str(EXAMPLES)?;
    }
    Ok(text)
}

/// Appends a line for each limit.
fn push_limits(text: &mut String) -> Result<(), AllocError> {
    text.push_str("\nlimits:\n")?;
    for (counted, most) in &LIMITS {
        write!(text, "  {counted:<53}{most}\n")?;
    }
    Ok(())
}

/// Appends a line for each way in which a run ends, of this command where one is given.
fn push_ends(alloc: Global, text: &mut String, form: Option<Form>) -> Result<(), AllocError> {
    text.push_str("\nexit status, of which command, and the fault line:\n")?;
    for (status, of, meaning) in &ENDS {
        if of.is_none() || form.is_none() || *of == form {
            let number = status.exit_code();
            let fault = format!(in alloc; "{status}")?;
            let by = command_of(*of);
            write!(text, "  {number:<4}{by:<8}{fault:<28}{meaning}\n")?;
        }
    }
    Ok(())
}

/// The name of the only command that ends so, where there is one.
fn command_of(form: Option<Form>) -> &'static str {
    match form {
        Some(form) => form.name(),
        None => "all",
    }
}
