//! Lines of a script that are served over a ledger, and answered on a sink.
ghost use Rattle.std.specs.Prelude.{◌≡◌, ◌<◌, ◌≤◌, ◌^◌, [], ◌∷◌, length, OnOk};
ghost use Rattle.std.specs.List.{position_or_len};
ghost use Rattle.text_lines.specs.Lines.{is_line_feed};
ghost use Rattle.sqlite.specs.State.{HasCleanDisk};
ghost use Rattle.sqlite.specs.Held.{state};
ghost use Rattle.ledger_tables.specs.Held.{HasLedgerTable};
ghost use Rattle.ledger_shift.specs.declared.line.ShiftLine.TheVariants as ask;
ghost use Rattle.ledger_shift.specs.declared.port.Noted.{Noted};
ghost use Rattle.ledger_shift.specs.Shifts.{ShiftAt, TellsAnswer, TellsServed, ServesCommand, ServesAsk, ServesLine};
ghost use Rattle.ledger_shift.specs.Shifts.{TakesShiftLine, PausesShift, EndsShift, printed_line_number};
ghost use Rattle.ledger_shift.specs.Shifts.{noted_of};
ghost use Rattle.ledger_shift.specs.Told.{shift_answer_text};

use crate::line::{ShiftLine, read_shift_line};
use crate::origin::Origin;
use crate::serving::{serve_confirm, serve_issue, serve_list, serve_remark, serve_show};
use crate::told::{ShiftTold, is_refusal, push_told};
use bus_port::{PortFailed, Sink, write_all};
use key_campaign::{Confirm, Issue};
use key_slots::SlotId;
use ledger_rows::{ListKind, Remark};
use line_stream::LineTaker;
use memory_update::Uid;
use sqlite::{Alter, Connection, Error};
use std::alloc::{AllocError, Global};
use text_lines::{LineFault, ScriptFault};

/// How a shift ends.
#[derive(Clone, Copy, Debug, PartialEq, Eq)]
pub enum ShiftEnd {
    /// The script ended, and no command was refused.
    Done,
    /// The script ended, and a command was refused.
    SomeRefused,
    /// A line of the script is refused, or there was no memory for it or for its answer.
    Refused(ScriptFault),
    /// This line asks for a row, and no line before it names who enters it.
    Unnamed(u32),
    /// The file failed.
    Failed(Error),
    /// The sink failed.
    Unwritten,
}

/// What a shift notes of its lines.
#[derive(Clone, Copy, Debug, PartialEq, Eq)]
pub struct Noted {
    /// A line named who enters rows.
    pub is_named: bool,
    /// A command was refused.
    pub has_refused: bool,
}

/// A ledger in a file, who enters its rows, what is noted, and the sink that is answered on.
#[derive(Drop)]
pub(crate) struct ShiftPort<'a, 'b, 'c, S: Alter, K: Sink> {
    pub(crate) alloc: Global,
    pub(crate) conn: &'a mut Connection<S>,
    pub(crate) origin: &'b mut Origin,
    pub(crate) noted: Noted,
    pub(crate) sink: &'c mut K,
}

/// Writes the text of an answer.
fn answer<K: Sink>(
    alloc: Global,
    sink: &mut K,
    number: u32,
    told: &ShiftTold,
) -> Result<(), ShiftEnd>
    ensures { TellsAnswer (K.state sink.old) (K.state sink.new) (shift_answer_text number told.now) result }
{
    let mut text = Vec::new(alloc);
    match push_told(&mut text, number, told) {
        Ok(()) => (),
        Err(AllocError) => return Err(ShiftEnd::Refused(ScriptFault::Memory)),
    }
    match write_all(sink, text.as_slice()) {
        Ok(()) => Ok(()),
        Err(PortFailed) => Err(ShiftEnd::Unwritten),
    }
}

/// Answers what was served of a command.
fn tell_served<K: Sink>(
    alloc: Global,
    sink: &mut K,
    number: u32,
    served: Result<ShiftTold, Error>,
) -> Result<(), ShiftEnd>
    ensures { TellsServed (K.state sink.old) (K.state sink.new) number served result }
{
    match served {
        Ok(told) => answer(alloc, sink, number, &told),
        Err(error) => Err(ShiftEnd::Failed(error)),
    }
}

/// Notes whether a command was refused.
fn note_served(noted: &mut Noted, served: &Result<ShiftTold, Error>)
    ensures { noted.new ≡ noted_of noted.old served.now }
{
    if let Ok(told) = served {
        if is_refusal(told) {
            noted.has_refused = true;
        }
    }
}

/// Serves an issue, and answers it.
fn take_issue<S: Alter, K: Sink>(
    alloc: Global,
    conn: &mut Connection<S>,
    origin: &Origin,
    noted: &mut Noted,
    sink: &mut K,
    number: u32,
    asked: &Issue,
) -> Result<(), ShiftEnd>
    requires { HasCleanDisk (state S.Store conn.old) → HasLedgerTable (state S.Store conn.old) }
    ensures serves { ServesCommand S.Store
        (record { conn = conn.old; origin = origin.now; noted = noted.old; sink = K.state sink.old }) number
        (ask.Issue asked.now)
        (record { conn = conn.new; origin = origin.now; noted = noted.new; sink = K.state sink.new }) result }
    ensures ready { HasCleanDisk (state S.Store conn.new)
        → OnOk result (HasLedgerTable (state S.Store conn.new)) }
{
    let served = serve_issue(conn, alloc, asked, origin);
    note_served(noted, &served);
    tell_served(alloc, sink, number, served)
}

/// Serves a confirmation, and answers it.
fn take_confirm<S: Alter, K: Sink>(
    alloc: Global,
    conn: &mut Connection<S>,
    origin: &Origin,
    noted: &mut Noted,
    sink: &mut K,
    number: u32,
    asked: &Confirm,
) -> Result<(), ShiftEnd>
    requires { HasCleanDisk (state S.Store conn.old) → HasLedgerTable (state S.Store conn.old) }
    ensures serves { ServesCommand S.Store
        (record { conn = conn.old; origin = origin.now; noted = noted.old; sink = K.state sink.old }) number
        (ask.Confirm asked.now)
        (record { conn = conn.new; origin = origin.now; noted = noted.new; sink = K.state sink.new }) result }
    ensures ready { HasCleanDisk (state S.Store conn.new)
        → OnOk result (HasLedgerTable (state S.Store conn.new)) }
{
    let served = serve_confirm(conn, alloc, asked, origin);
    note_served(noted, &served);
    tell_served(alloc, sink, number, served)
}

/// Serves a remark, and answers it.
fn take_remark<S: Alter, K: Sink>(
    alloc: Global,
    conn: &mut Connection<S>,
    origin: &Origin,
    noted: &mut Noted,
    sink: &mut K,
    number: u32,
    asked: &Remark,
) -> Result<(), ShiftEnd>
    requires { HasCleanDisk (state S.Store conn.old) → HasLedgerTable (state S.Store conn.old) }
    ensures serves { ServesCommand S.Store
        (record { conn = conn.old; origin = origin.now; noted = noted.old; sink = K.state sink.old }) number
        (ask.Remark asked.now)
        (record { conn = conn.new; origin = origin.now; noted = noted.new; sink = K.state sink.new }) result }
    ensures ready { HasCleanDisk (state S.Store conn.new)
        → OnOk result (HasLedgerTable (state S.Store conn.new)) }
{
    let served = serve_remark(conn, alloc, asked, origin);
    note_served(noted, &served);
    tell_served(alloc, sink, number, served)
}

/// Serves a look, and answers it.
fn take_show<S: Alter, K: Sink>(
    alloc: Global,
    conn: &mut Connection<S>,
    origin: &Origin,
    sink: &mut K,
    number: u32,
    uid: &Uid,
    id: SlotId,
) -> Result<(), ShiftEnd>
    requires { HasCleanDisk (state S.Store conn.old) → HasLedgerTable (state S.Store conn.old) }
    ensures serves { (noted : Noted) → ServesCommand S.Store
        (record { conn = conn.old; origin = origin.now; noted = noted; sink = K.state sink.old }) number
        (ask.Show uid.now id)
        (record { conn = conn.new; origin = origin.now; noted = noted; sink = K.state sink.new }) result }
    ensures ready { HasCleanDisk (state S.Store conn.new)
        → OnOk result (HasLedgerTable (state S.Store conn.new)) }
{
    let served = serve_show(conn, alloc, uid, id, origin);
    tell_served(alloc, sink, number, served)
}

/// Serves a list, and answers it.
fn take_list<S: Alter, K: Sink>(
    alloc: Global,
    conn: &mut Connection<S>,
    origin: &Origin,
    sink: &mut K,
    number: u32,
    kind: ListKind,
    uid: &Uid,
    id: SlotId,
) -> Result<(), ShiftEnd>
    requires { HasCleanDisk (state S.Store conn.old) → HasLedgerTable (state S.Store conn.old) }
    ensures serves { (noted : Noted) → ServesCommand S.Store
        (record { conn = conn.old; origin = origin.now; noted = noted; sink = K.state sink.old }) number
        (ask.List kind uid.now id)
        (record { conn = conn.new; origin = origin.now; noted = noted; sink = K.state sink.new }) result }
    ensures ready { HasCleanDisk (state S.Store conn.new)
        → OnOk result (HasLedgerTable (state S.Store conn.new)) }
{
    let served = serve_list(conn, alloc, kind, uid, id, origin);
    tell_served(alloc, sink, number, served)
}

/// Serves what a line asks, and answers it.
fn take_asked<S: Alter, K: Sink>(
    alloc: Global,
    conn: &mut Connection<S>,
    origin: &mut Origin,
    noted: &mut Noted,
    sink: &mut K,
    number: u32,
    asked: ShiftLine,
) -> Result<(), ShiftEnd>
    requires { HasCleanDisk (state S.Store conn.old) → HasLedgerTable (state S.Store conn.old) }
    ensures serves { ServesAsk S.Store
        (record { conn = conn.old; origin = origin.old; noted = noted.old; sink = K.state sink.old }) number asked
        (record { conn = conn.new; origin = origin.new; noted = noted.new; sink = K.state sink.new }) result }
    ensures ready { HasCleanDisk (state S.Store conn.new)
        → OnOk result (HasLedgerTable (state S.Store conn.new)) }
{
    match asked {
        ShiftLine::Skipped => Ok(()),
        ShiftLine::By(named) => {
            *origin = named;
            noted.is_named = true;
            Ok(())
        }
        ShiftLine::Issue(issue) => {
            if !noted.is_named {
                return Err(ShiftEnd::Unnamed(number));
            }
            take_issue(alloc, conn, origin, noted, sink, number, &issue)
        }
        ShiftLine::Confirm(confirm) => {
            if !noted.is_named {
                return Err(ShiftEnd::Unnamed(number));
            }
            take_confirm(alloc, conn, origin, noted, sink, number, &confirm)
        }
        ShiftLine::Remark(remark) => {
            if !noted.is_named {
                return Err(ShiftEnd::Unnamed(number));
            }
            take_remark(alloc, conn, origin, noted, sink, number, &remark)
        }
        ShiftLine::List(kind, uid, id) => {
            take_list(alloc, conn, origin, sink, number, kind, &uid, id)
        }
        ShiftLine::Show(uid, id) => take_show(alloc, conn, origin, sink, number, &uid, id),
    }
}

/// The number of a line as it is printed.
fn printed_number(number: u64) -> u32
    ensures { result ≡ printed_line_number number }
{
    u32::try_from(number).unwrap_or(u32::MAX)
}

/// Serves a line, and answers it once its row is committed.
fn take_line<S: Alter, K: Sink>(
    alloc: Global,
    conn: &mut Connection<S>,
    origin: &mut Origin,
    noted: &mut Noted,
    sink: &mut K,
    number: u32,
    line: &[u8],
) -> Result<(), ShiftEnd>
    requires table { HasCleanDisk (state S.Store conn.old) → HasLedgerTable (state S.Store conn.old) }
    requires short { length line.now < 2 ^ 32 }
    requires one { position_or_len is_line_feed line.now ≡ length line.now }
    ensures serves { ServesLine S.Store
        (record { conn = conn.old; origin = origin.old; noted = noted.old; sink = K.state sink.old }) number line.now
        (record { conn = conn.new; origin = origin.new; noted = noted.new; sink = K.state sink.new }) result }
    ensures ready { HasCleanDisk (state S.Store conn.new)
        → OnOk result (HasLedgerTable (state S.Store conn.new)) }
{
    match read_shift_line(alloc, line) {
        Ok(asked) => take_asked(alloc, conn, origin, noted, sink, number, asked),
        Err(LineFault::Refused(cause)) => Err(ShiftEnd::Refused(ScriptFault::At {
            line: number,
            cause,
        })),
        Err(LineFault::OutOfMemory) => Err(ShiftEnd::Refused(ScriptFault::Memory)),
    }
}

impl<'a, 'b, 'c, S: Alter, K: Sink> LineTaker for ShiftPort<'a, 'b, 'c, S, K> {
    type End = ShiftEnd;

    ghost State = { ShiftAt S };

    ghost state = { λ port. record {
      conn = port.conn.now;
      origin = port.origin.now;
      noted = port.noted;
      sink = K.state port.sink.now;
    } };

    ghost ready = { λ port bytes _. (bytes ≤ 8193) × (HasCleanDisk (state S.Store port.conn.now) → HasLedgerTable (state S.Store port.conn.now)) };

    ghost borrows = { λ port. port.conn.ghost_name ∷ port.origin.ghost_name ∷ port.sink.ghost_name ∷ [] };

    ghost takes = { TakesShiftLine S.Store };

    ghost pauses = { PausesShift S.Store };

    ghost ends = { EndsShift S.Store };

    fn take(&mut self, number: u64, line: &[u8]) -> Result<(), ShiftEnd> {
        let number = printed_number(number);
        take_line(
            self.alloc,
            self.conn,
            self.origin,
            &mut self.noted,
            self.sink,
            number,
            line,
        )
    }

    fn pause(&mut self) -> Result<(), ShiftEnd> {
        Ok(())
    }

    fn finish(&mut self) -> ShiftEnd {
        if self.noted.has_refused {
            ShiftEnd::SomeRefused
        } else {
            ShiftEnd::Done
        }
    }
}
