//! The report at the end of a run.
ghost use Rattle.std.specs.Prelude.{◌≤◌, ◌++◌, ◌∷◌, codes};
ghost use Rattle.gate_outside.specs.Causes.{HasCause};
ghost use Rattle.gate_outside.specs.Contents.{WritesAll};
ghost use Rattle.gateway_hub.specs.Receipts.{receipt_count};
ghost use Rattle.hub_queues.specs.declared.limits.TheConstants.{MOST_CONNECTIONS};
ghost use Rattle.gateway_claim.specs.Happenings.{close_byte};
ghost use Rattle.run_report.specs.Report.{name_and_number, came_text, went_text, receipt_line, receipt_line_in, lines_below, report_text};

use gate_outside::{Failed, Sink, write_all};
use gateway_claim::{CloseWhy, close_byte};
use gateway_hub::{Receipt, Receipts};

/// Writes the report: a line for each connection that entered, by rising number, and how often the server was dialled. It
/// takes no memory.
pub fn write_report<K: Sink>(sink: &mut K, receipts: &Receipts) -> Result<(), Failed>
    requires { receipt_count receipts.now ≤ MOST_CONNECTIONS }
    ensures bytes { WritesAll (K.written sink.old) (K.written sink.new) (report_text receipts.now) result }
    ensures cause { HasCause (K.faults sink.old) (K.faults sink.new) result }
{
    let Ok(()) = write_lines(sink, receipts) else {
        return Err(Failed);
    };
    write_all(sink, b"dials 1\n")
}

/// Writes the lines of all connections.
fn write_lines<K: Sink>(sink: &mut K, receipts: &Receipts) -> Result<(), Failed>
    requires { receipt_count receipts.now ≤ MOST_CONNECTIONS }
    ensures bytes { WritesAll (K.written sink.old) (K.written sink.new)
        (lines_below (receipt_count receipts.now) receipts.now) result }
    ensures cause { HasCause (K.faults sink.old) (K.faults sink.new) result }
{
    for conn in 0..receipts.count() as u32 {
        let Ok(()) = write_line(sink, receipts.get(conn)) else {
            return Err(Failed);
        };
    }
    Ok(())
}

/// Writes the line of a receipt, where there is one.
fn write_line<K: Sink>(sink: &mut K, receipt: Option<Receipt>) -> Result<(), Failed>
    ensures bytes { WritesAll (K.written sink.old) (K.written sink.new) (receipt_line_in receipt) result }
    ensures cause { HasCause (K.faults sink.old) (K.faults sink.new) result }
{
    match receipt {
        Some(receipt) => write_receipt(sink, &receipt),
        None => Ok(()),
    }
}

/// Writes the line of a receipt.
fn write_receipt<K: Sink>(sink: &mut K, receipt: &Receipt) -> Result<(), Failed>
    ensures bytes { WritesAll (K.written sink.old) (K.written sink.new) (receipt_line receipt.now) result }
    ensures cause { HasCause (K.faults sink.old) (K.faults sink.new) result }
{
    let Ok(()) = write_came(sink, receipt) else {
        return Err(Failed);
    };
    write_went(sink, receipt)
}

/// Writes what came in by a connection.
fn write_came<K: Sink>(sink: &mut K, receipt: &Receipt) -> Result<(), Failed>
    ensures bytes { WritesAll (K.written sink.old) (K.written sink.new) (came_text receipt.now) result }
    ensures cause { HasCause (K.faults sink.old) (K.faults sink.new) result }
{
    let Ok(()) = write_counted(sink, b"conn ", u64::from(receipt.conn)) else {
        return Err(Failed);
    };
    let Ok(()) = write_counted(sink, b" pushed ", receipt.pushed) else {
        return Err(Failed);
    };
    write_counted(sink, b" arrived ", receipt.arrived)
}

/// Writes what went out by a connection, and why it was closed.
fn write_went<K: Sink>(sink: &mut K, receipt: &Receipt) -> Result<(), Failed>
    ensures bytes { WritesAll (K.written sink.old) (K.written sink.new) (went_text receipt.now) result }
    ensures cause { HasCause (K.faults sink.old) (K.faults sink.new) result }
{
    let Ok(()) = write_counted(sink, b" handed ", receipt.handed) else {
        return Err(Failed);
    };
    let Ok(()) = write_counted(sink, b" taken ", receipt.taken) else {
        return Err(Failed);
    };
    write_cause(sink, receipt.why)
}

/// Writes why a connection was closed.
fn write_cause<K: Sink>(sink: &mut K, why: CloseWhy) -> Result<(), Failed>
    ensures bytes { WritesAll (K.written sink.old) (K.written sink.new)
        (codes " cause " ++ (close_byte why ∷ codes "\n")) result }
    ensures cause { HasCause (K.faults sink.old) (K.faults sink.new) result }
{
    let Ok(()) = write_all(sink, b" cause ") else {
        return Err(Failed);
    };
    write_all(sink, &[close_byte(why), b'\n'])
}

/// Writes a name and a number.
fn write_counted<K: Sink>(sink: &mut K, name: &[u8], number: u64) -> Result<(), Failed>
    ensures bytes { WritesAll (K.written sink.old) (K.written sink.new) (name_and_number name.now number)
        result }
    ensures cause { HasCause (K.faults sink.old) (K.faults sink.new) result }
{
    let Ok(()) = write_all(sink, name) else {
        return Err(Failed);
    };
    let mut buffer = itoa::Buffer::new();
    write_all(sink, buffer.format(number).as_bytes())
}
