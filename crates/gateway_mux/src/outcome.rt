//! What one event hands out.
ghost use Rattle.std.specs.Prelude.{◌≡◌, ◌<◌, ◌^◌, length, None, Some, IfSome, option_map};
ghost use Rattle.client_machine.specs.Plans.{IsShortDone};
ghost use Rattle.gateway_claim.specs.declared.event.Closed.TheVariants.{Nobody, All};
ghost use Rattle.gateway_claim.specs.Happenings.{silent};
ghost use Rattle.gateway_claim.specs.Follows.{client_piece, one_closed};
ghost use Rattle.gateway_claim.specs.declared.event.UpMessage.TheVariants.{Request};
ghost use Rattle.gateway_mux.specs.Moves.{handed_by, answering, risen_by, fallen_by, ended_by};
ghost use Rattle.gateway_mux.specs.Short.{IsShort, IsShortAnswer};

use client_machine::{CloseWhy, Done};
use gate_bytes::Text;
use gateway_claim::{Closed, Outcome, ToClient, ToUp, UpCause, UpMessage};

/// Nothing.
pub(crate) fn nothing() -> Outcome
    ensures silent { result ≡ silent }
    ensures short { IsShort result }
{
    answering(None)
}

/// This answer for the server.
pub(crate) fn answering(answer: Option<Text>) -> Outcome
    ensures answers { result ≡ answering answer }
    ensures short { IsShortAnswer answer → IsShort result }
{
    Outcome {
        to_client: None,
        to_up: ToUp {
            answer,
            message: None,
        },
        closed: Closed::Nobody,
        fault: None,
    }
}

/// A frame for the server.
pub(crate) fn rising(frame: Text) -> Outcome
    ensures rises { result ≡ risen_by frame }
    ensures short { length frame < 2 ^ 31 → IsShort result }
{
    Outcome {
        to_client: None,
        to_up: ToUp {
            answer: None,
            message: Some(UpMessage::Frame(frame)),
        },
        closed: Closed::Nobody,
        fault: None,
    }
}

/// A frame for the client of a connection.
pub(crate) fn falling(conn: u32, frame: Text) -> Outcome
    ensures falls { result ≡ fallen_by conn frame }
    ensures short { length frame < 2 ^ 31 → IsShort result }
{
    Outcome {
        to_client: Some(ToClient { conn, bytes: frame }),
        to_up: ToUp {
            answer: None,
            message: None,
        },
        closed: Closed::Nobody,
        fault: None,
    }
}

/// The end of the connection to the server.
pub(crate) fn ending(cause: UpCause) -> Outcome
    ensures ends { result ≡ ended_by cause }
    ensures short { IsShort result }
{
    Outcome {
        to_client: None,
        to_up: ToUp {
            answer: None,
            message: None,
        },
        closed: Closed::All,
        fault: Some(cause),
    }
}

/// What the turn of a connection hands out, after this answer.
pub(crate) fn handed(conn: u32, answer: Option<Text>, done: Done) -> Outcome
    ensures hands { result ≡ handed_by conn answer done }
    ensures short { IsShortAnswer answer → IsShortDone done → IsShort result }
{
    let Done {
        hand,
        request,
        close,
    } = done;
    Outcome {
        to_client: piece(conn, hand),
        to_up: ToUp {
            answer,
            message: message(request),
        },
        closed: closed(conn, close),
        fault: None,
    }
}

/// The bytes for a client, where there are any.
fn piece(conn: u32, bytes: Text) -> Option<ToClient>
    ensures piece { result ≡ client_piece (Some conn) bytes }
    ensures short { length bytes < 2 ^ 32 → IfSome result (λ piece. length piece.bytes < 2 ^ 32) }
{
    if bytes.is_empty() {
        None
    } else {
        Some(ToClient { conn, bytes })
    }
}

/// The request for the server, where there is one.
fn message(request: Option<Text>) -> Option<UpMessage>
    ensures { result ≡ option_map Request request }
{
    match request {
        Some(text) => Some(UpMessage::Request(text)),
        None => None,
    }
}

/// The close of a connection, where it was closed.
fn closed(conn: u32, close: Option<CloseWhy>) -> Closed
    ensures { result ≡ one_closed (Some conn) close }
{
    match close {
        Some(why) => Closed::One(conn, why),
        None => Closed::Nobody,
    }
}
