//! Laws of all runs of a ledger's file. Each function has an empty body, and its contract is the law.
ghost use Rattle.ledger_rows.specs.Files.{FilesCountersRise, FilesKeepRows, FilesConfirmByAnswer};

/// The counters that are issued or raised for one unit and slot strictly rise, over all runs and whatever crashes
/// leave.
pub fn answered_counters_rise()
    ensures { FilesCountersRise }
{}

/// No row goes, of those at the start and of those after any call.
pub fn no_row_goes()
    ensures { FilesKeepRows }
{}

/// A row that is confirmed was there at the start, or a command came with a reply that confirms the update with the
/// row's counter, for its unit and slot, under a key with the row's check value.
pub fn rows_are_confirmed_by_an_answer()
    ensures { FilesConfirmByAnswer }
{}
