//! What holds of each shift over a ledger, put together from the laws of the crates below.
ghost use Rattle.ledger_shift.specs.Crashes.{CrashesLeaveRuns, CutLinesLeaveRuns};
ghost use Rattle.ledger_shift.specs.Laws.{ShiftsAreRuns};

use ledger_rows::laws::answered_counters_rise;
use sqlite::Alter;

/// The calls of the lines that were taken are a run of the ledger's file, so the counters that were written as issued or
/// raised for a unit and slot strictly rise.
pub fn shifts_are_runs<S: Alter>()
    ensures { ShiftsAreRuns S.Store }
{
    answered_counters_rise();
}

/// Whatever a crash leaves after lines that were taken has the row of each counter that was answered.
pub fn crashes_leave_runs<S: Alter>()
    ensures { CrashesLeaveRuns S.Store }
{}

/// The same of a crash in a line: beside those rows there is at most that of the line's command.
pub fn cut_lines_leave_runs<S: Alter>()
    ensures { CutLinesLeaveRuns S.Store }
{}
