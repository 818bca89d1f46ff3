//! The records of one event's outcome: the bytes for a client, those for the server, the closes, and the cause.
ghost use Rattle.std.specs.Prelude.{◌≡◌, ◌<◌, ◌^◌, [], ◌++◌, List, IfSome, OnOk, length, unwrap_or, decimal};
ghost use Rattle.gate_outside.specs.Causes.{HasCause};
ghost use Rattle.gate_outside.specs.Contents.{WritesAll};
ghost use Rattle.gateway_claim.specs.Happenings.{HistoryEntry, IsShort, piece_length, message_length, up_length};
ghost use Rattle.gateway_replay.specs.CoreRecords.{AreLiving, StayLiving};
ghost use Rattle.gateway_replay.specs.RecordTexts.{piece_record, up_message_text, up_record, close_record, ends, closed_records, cause_record, fault_record, records_of};
ghost use Rattle.gateway_replay.specs.declared.records.TheConstants.{FAULT_BYTE};
ghost use Rattle.gateway_replay.specs.Records.{record_text};

use crate::alive::Living;
use crate::records::{RecordKind, write_parted_record, write_record};
use gate_bytes::Text;
use gate_outside::{Failed, Sink};
use gateway_claim::{CloseWhy, Closed, Outcome, ToClient, ToUp, UpCause, UpMessage, close_byte};
use run_status::cause_text;

/// Writes the records of an event's outcome. The connections that were alive before the event become those after it.
pub fn write_outcome<K: Sink>(
    sink: &mut K,
    living: &mut Living,
    outcome: &Outcome,
) -> Result<(), Failed>
    requires { IsShort outcome.now }
    ensures bytes { (T : List HistoryEntry) → AreLiving living.old T
        → WritesAll (K.written sink.old) (K.written sink.new) (records_of outcome.now T) result }
    ensures living { OnOk result (StayLiving outcome.now.closed living.old living.new) }
    ensures cause { HasCause (K.faults sink.old) (K.faults sink.new) result }
{
    let Ok(()) = write_piece(sink, &outcome.to_client) else {
        return Err(Failed);
    };
    let Ok(()) = write_up(sink, &outcome.to_up) else {
        return Err(Failed);
    };
    let Ok(()) = write_closed(sink, living, outcome.closed) else {
        return Err(Failed);
    };
    write_fault(sink, outcome.fault)
}

/// Writes the record of a piece that was handed to a client.
fn write_piece<K: Sink>(sink: &mut K, piece: &Option<ToClient>) -> Result<(), Failed>
    requires { IfSome piece.now (λ p. length p.bytes < 2 ^ 32) }
    ensures bytes { WritesAll (K.written sink.old) (K.written sink.new) (piece_record piece.now) result }
    ensures cause { HasCause (K.faults sink.old) (K.faults sink.new) result }
{
    match piece {
        Some(piece) => write_record(sink, RecordKind::Handed, piece.conn, piece.bytes.as_bytes()),
        None => Ok(()),
    }
}

/// Writes the record of all that was handed to the server: the answer, and the message after it.
fn write_up<K: Sink>(sink: &mut K, up: &ToUp) -> Result<(), Failed>
    requires { up_length up.now < 2 ^ 32 }
    ensures bytes { WritesAll (K.written sink.old) (K.written sink.new) (up_record up.now) result }
    ensures cause { HasCause (K.faults sink.old) (K.faults sink.new) result }
{
    if up.answer.is_none() && up.message.is_none() {
        return Ok(());
    }
    let answer = answer_bytes(&up.answer);
    let message = message_bytes(&up.message);
    write_parted_record(sink, RecordKind::HandedUp, 0, answer, message)
}

/// The bytes of an answer to the server; none where there is no answer.
fn answer_bytes(answer: &Option<Text>) -> &[u8]
    ensures bytes { result.now ≡ unwrap_or answer.now [] }
    ensures size { length result.now ≡ piece_length answer.now }
{
    match answer {
        Some(text) => text.as_bytes(),
        None => b"",
    }
}

/// The bytes of a message to the server; none where there is no message.
fn message_bytes(message: &Option<UpMessage>) -> &[u8]
    ensures bytes { result.now ≡ up_message_text message.now }
    ensures size { length result.now ≡ message_length message.now }
{
    match message {
        Some(UpMessage::Request(text)) => text.as_bytes(),
        Some(UpMessage::Frame(text)) => text.as_bytes(),
        None => b"",
    }
}

/// Writes the records of the connections that were closed, which are alive no longer.
fn write_closed<K: Sink>(sink: &mut K, living: &mut Living, closed: Closed) -> Result<(), Failed>
    ensures bytes { (T : List HistoryEntry) → AreLiving living.old T
        → WritesAll (K.written sink.old) (K.written sink.new) (closed_records closed T) result }
    ensures living { OnOk result (StayLiving closed living.old living.new) }
    ensures cause { HasCause (K.faults sink.old) (K.faults sink.new) result }
{
    match closed {
        Closed::Nobody => Ok(()),
        Closed::One(conn, why) => {
            living.remove(conn);
            write_close(sink, conn, why)
        }
        Closed::All => write_ends(sink, living),
    }
}

/// Writes the record of a close.
fn write_close<K: Sink>(sink: &mut K, conn: u32, why: CloseWhy) -> Result<(), Failed>
    ensures bytes { WritesAll (K.written sink.old) (K.written sink.new) (close_record conn why) result }
    ensures cause { HasCause (K.faults sink.old) (K.faults sink.new) result }
{
    write_record(sink, RecordKind::Closed, conn, &[close_byte(why)])
}

/// Writes the closes of all connections that are alive, by rising number, and none is alive then.
fn write_ends<K: Sink>(sink: &mut K, living: &mut Living) -> Result<(), Failed>
    ensures bytes { (T : List HistoryEntry) → AreLiving living.old T
        → WritesAll (K.written sink.old) (K.written sink.new) (ends T) result }
    ensures living { OnOk result (StayLiving Closed.All living.old living.new) }
    ensures cause { HasCause (K.faults sink.old) (K.faults sink.new) result }
{
    while let Some(conn) = living.take_first() {
        let Ok(()) = write_close(sink, conn, CloseWhy::Upstream) else {
            return Err(Failed);
        };
    }
    Ok(())
}

/// Writes the record of why the connection to the server ended.
fn write_fault<K: Sink>(sink: &mut K, fault: Option<UpCause>) -> Result<(), Failed>
    ensures bytes { WritesAll (K.written sink.old) (K.written sink.new) (fault_record fault) result }
    ensures cause { HasCause (K.faults sink.old) (K.faults sink.new) result }
{
    match fault {
        Some(cause) => write_cause(sink, cause),
        None => Ok(()),
    }
}

/// Writes the record of this cause.
fn write_cause<K: Sink>(sink: &mut K, cause: UpCause) -> Result<(), Failed>
    ensures bytes { WritesAll (K.written sink.old) (K.written sink.new) (cause_record cause) result }
    ensures cause { HasCause (K.faults sink.old) (K.faults sink.new) result }
{
    let text = cause_text(cause);
    let words = text.words.as_bytes();
    match text.number {
        Some(number) => write_numbered(sink, words, number),
        None => write_record(sink, RecordKind::Fault, 0, words),
    }
}

/// Writes the record of a cause that has a number.
fn write_numbered<K: Sink>(sink: &mut K, words: &[u8], number: u32) -> Result<(), Failed>
    requires { length words.now < 2 ^ 31 }
    ensures bytes { WritesAll (K.written sink.old) (K.written sink.new)
        (record_text FAULT_BYTE 0 (words.now ++ decimal number)) result }
    ensures cause { HasCause (K.faults sink.old) (K.faults sink.new) result }
{
    let mut buffer = itoa::Buffer::new();
    let digits = buffer.format(number).as_bytes();
    write_parted_record(sink, RecordKind::Fault, 0, words, digits)
}
