//! The counts of a drill.
ghost use Rattle.std.specs.Prelude.{◌≡◌, ◌+◌, IfOk};
ghost use Rattle.rtsp_head.specs.Shapes.{shapes};
ghost use Rattle.gateway_claim.specs.Happenings.{happening_of, piece_length, message_length, up_length};
ghost use Rattle.drill_run.specs.CountSteps.{is_frame_kind, requests_told, replies_counted, frames_among, requests_up, frames_up, is_success_answer, successes_up, counts_with, counts_none, counts_sum};

use crate::player::is_response;
use gate_bytes::{Memory, Text};
use gateway_claim::{Event, Outcome, ToUp, UpMessage};
use rtsp_head::{Item, ItemKind};

/// What is counted in the history of a drill.
#[derive(Clone, Copy, Debug, PartialEq, Eq)]
pub struct Counts {
    /// Requests of players.
    pub requests: u64,
    /// Replies that players were handed.
    pub replies: u64,
    /// Frames that players were handed.
    pub frames_down: u64,
    /// Frames that the server was handed.
    pub frames_up: u64,
    /// Answers 200 to notifies of the server.
    pub notifies: u64,
    /// Requests that the server was handed.
    pub upstream: u64,
    /// All bytes that the server was handed.
    pub bytes: u64,
}

/// Before anything happened.
pub fn none() -> Counts
    ensures { result ≡ counts_none }
{
    Counts {
        requests: 0,
        replies: 0,
        frames_down: 0,
        frames_up: 0,
        notifies: 0,
        upstream: 0,
        bytes: 0,
    }
}

/// The sum of two numbers. (No drill comes near to the end of 64 bits.)
fn sum(one: u64, other: u64) -> Result<u64, Memory>
    ensures { IfOk result (λ sum. sum ≡ one + other) }
{
    one.checked_add(other).ok_or(Memory)
}

/// The sums of two counts.
pub fn add(one: &Counts, other: &Counts) -> Result<Counts, Memory>
    ensures { IfOk result (λ sum. sum ≡ counts_sum one.now other.now) }
{
    Ok(Counts {
        requests: sum(one.requests, other.requests)?,
        replies: sum(one.replies, other.replies)?,
        frames_down: sum(one.frames_down, other.frames_down)?,
        frames_up: sum(one.frames_up, other.frames_up)?,
        notifies: sum(one.notifies, other.notifies)?,
        upstream: sum(one.upstream, other.upstream)?,
        bytes: sum(one.bytes, other.bytes)?,
    })
}

/// How many requests of a client an event brings.
pub fn requests(event: &Event) -> u64
    ensures { result ≡ requests_told (happening_of event.now) }
{
    match event {
        Event::Client(_, item) => u64::from(item.kind == ItemKind::Request),
        Event::Up(_) | Event::End(_) | Event::Slow(_) | Event::UpEnd(_) => 0,
    }
}

/// Whether an item is a frame.
fn is_frame(item: &Item) -> bool
    ensures { result ≡ is_frame_kind item.now.kind }
{
    item.kind == ItemKind::Frame
}

/// How many replies are among some items.
fn replies(items: &[Item]) -> u64
    ensures { result ≡ replies_counted (shapes items.now) }
{
    items.iter().filter(|item| is_response(item)).count() as u64
}

/// How many frames are among some items.
fn frames(items: &[Item]) -> u64
    ensures { result ≡ frames_among (shapes items.now) }
{
    items.iter().filter(|item| is_frame(item)).count() as u64
}

/// Whether an answer to the server is a success.
fn is_success(answer: &Text) -> bool
    ensures { result ≡ is_success_answer answer.now }
{
    answer.as_bytes().starts_with(b"RTSP/2.0 200 ")
}

/// How many answers 200 this is.
fn successes(answer: &Option<Text>) -> u64
    ensures { result ≡ successes_up answer.now }
{
    match answer {
        Some(answer) => u64::from(is_success(answer)),
        None => 0,
    }
}

/// How many requests to the server this is.
fn requests_to(message: &Option<UpMessage>) -> u64
    ensures { result ≡ requests_up message.now }
{
    match message {
        Some(UpMessage::Request(_)) => 1,
        Some(UpMessage::Frame(_)) | None => 0,
    }
}

/// How many frames to the server this is.
fn frames_to(message: &Option<UpMessage>) -> u64
    ensures { result ≡ frames_up message.now }
{
    match message {
        Some(UpMessage::Frame(_)) => 1,
        Some(UpMessage::Request(_)) | None => 0,
    }
}

/// The bytes of an answer, where there is one.
fn answer_bytes(answer: &Option<Text>) -> u64
    ensures { result ≡ piece_length answer.now }
{
    match answer {
        Some(text) => text.len() as u64,
        None => 0,
    }
}

/// The bytes of a message, where there is one.
fn message_bytes(message: &Option<UpMessage>) -> u64
    ensures { result ≡ message_length message.now }
{
    match message {
        Some(UpMessage::Request(text) | UpMessage::Frame(text)) => text.len() as u64,
        None => 0,
    }
}

/// All bytes that the server is handed.
fn bytes_up(up: &ToUp) -> Result<u64, Memory>
    ensures { IfOk result (λ bytes. bytes ≡ up_length up.now) }
{
    sum(answer_bytes(&up.answer), message_bytes(&up.message))
}

/// What an event adds to the counts, where so many requests came with it, and these are the items that a client is handed.
pub fn counts_with(requests: u64, items: &[Item], outcome: &Outcome) -> Result<Counts, Memory>
    ensures { IfOk result (λ counts. counts ≡ counts_with requests (shapes items.now) outcome.now) }
{
    Ok(Counts {
        requests,
        replies: replies(items),
        frames_down: frames(items),
        frames_up: frames_to(&outcome.to_up.message),
        notifies: successes(&outcome.to_up.answer),
        upstream: requests_to(&outcome.to_up.message),
        bytes: bytes_up(&outcome.to_up)?,
    })
}
