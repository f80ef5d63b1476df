//! A shift over an opened file.
ghost use Rattle.std.specs.Prelude.{◌≡◌, string_bytes, IfOk};
ghost use Rattle.sqlite.specs.State.{HasCleanDisk};
ghost use Rattle.sqlite.specs.Held.{state};
ghost use Rattle.ledger_tables.specs.Held.{HasLedgerTable};
ghost use Rattle.ledger_shift.specs.Statuses.{IsEndRow, IsUnnamedRow, RunsShift, unnamed_text as unnamed_line};

use crate::opening::file_refusal;
use crate::origin::Origin;
use crate::port::{Noted, ShiftEnd, ShiftPort};
use bus_port::{Sink, Source};
use line_stream::{StreamFault, stream_lines};
use program_edge::{DONE, Refusal, WRITE_FAULT, tell_refusal};
use sqlite::{Alter, Connection};
use std::alloc::{AllocError, Global};
use text_lines::line_refusal;

/// The status if the script ended and a command was refused.
const SOME_REFUSED: u8 = 1;

/// The text for a line that asks for a row, if nobody was named.
fn unnamed_text(alloc: Global, line: u32) -> Result<String, AllocError>
    ensures { IfOk result (λ text. string_bytes text ≡ unnamed_line line) }
{
    Ok(format!(in alloc; "script: line {line}: no by before it\n")?)
}

/// The row for such a line.
fn unnamed_refusal(alloc: Global, line: u32) -> Refusal
    ensures { IsUnnamedRow line result }
{
    match unnamed_text(alloc, line) {
        Ok(text) => Refusal::made(4, text),
        Err(AllocError) => Refusal::no_memory(),
    }
}

/// The row of the table of statuses for an end.
fn end_row(alloc: Global, ended: Result<ShiftEnd, StreamFault>) -> Refusal
    ensures { IsEndRow ended result }
{
    match ended {
        Ok(ShiftEnd::Done) => Refusal::fixed(DONE, ""),
        Ok(ShiftEnd::SomeRefused) => Refusal::fixed(SOME_REFUSED, ""),
        Ok(ShiftEnd::Unwritten) => Refusal::fixed(WRITE_FAULT, ""),
        Ok(ShiftEnd::Refused(fault)) => line_refusal(alloc, fault),
        Ok(ShiftEnd::Unnamed(line)) => unnamed_refusal(alloc, line),
        Ok(ShiftEnd::Failed(error)) => file_refusal(&error),
        Err(StreamFault::ReadFault) => Refusal::fixed(5, "script: read fault\n"),
        Err(StreamFault::TooLong) => Refusal::fixed(8, "script: input too long\n"),
    }
}

/// Serves a script over a ledger, line by line, and gives the status that the program ends with.
pub fn run_shift<S: Alter, T: Source, K: Sink, E: Sink>(
    alloc: Global,
    conn: &mut Connection<S>,
    script: &mut T,
    sink: &mut K,
    errors: &mut E,
) -> u8
    requires { HasCleanDisk (state S.Store conn.old) → HasLedgerTable (state S.Store conn.old) }
    ensures { RunsShift S.Store (record {
      conn_before = conn.old;
      conn_after = conn.new;
      script = record { before = T.state script.old; after = T.state script.new };
      sink_before = K.state sink.old;
      sink_after = K.state sink.new;
      errors_before = E.state errors.old;
      errors_after = E.state errors.new;
      status = result;
    }) }
{
    let mut origin = Origin::nobody(alloc);
    let mut port = ShiftPort {
        alloc,
        conn,
        origin: &mut origin,
        noted: Noted {
            is_named: false,
            has_refused: false,
        },
        sink,
    };
    let ended = stream_lines(script, &mut port);
    tell_refusal(errors, &end_row(alloc, ended))
}
