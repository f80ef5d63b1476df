//! A shift over the file that an argument names: opened, served and closed.
ghost use Rattle.std.specs.Prelude.{◌≡◌, ◌++◌, ◌∷◌, [], false};
ghost use Rattle.sqlite.specs.State.{HasCleanDisk};
ghost use Rattle.sqlite.specs.Files.{IsOpened, file_state};
ghost use Rattle.ledger_shift.specs.FileRuns.{ServesFile, ServesOpened, ClosesShift, TellsClosing};

use crate::opening::{LedgerOpener, fault_refusal, file_refusal, find_table};
use crate::run::run_shift;
use bus_port::{Sink, Source};
use program_edge::tell_refusal;
use sqlite::{Connection, Error, FileStore};
use sqlite_disk::Disk;
use std::alloc::Global;

/// Says that the close failed after a shift with this status, unless that says what failed before.
fn tell_closing<E: Sink>(error: &Error, status: u8, errors: &mut E) -> u8
    ensures { TellsClosing error.now (E.state errors.old) status (E.state errors.new) result }
{
    if 1 < status {
        return status;
    }
    tell_refusal(errors, &file_refusal(error))
}

/// Closes the file after a shift with this status. Each commit is in it then, and none only in the log beside it.
fn close_shift<D: Disk + Drop, E: Sink>(
    conn: Connection<FileStore<D>>,
    status: u8,
    errors: &mut E,
) -> u8
    ensures { ClosesShift D.Disk conn (E.state errors.old) status (E.state errors.new) result }
{
    match conn.close_files() {
        Ok(_files) => status,
        Err((error, store)) => {
            drop(store.close());
            tell_closing(&error, status, errors)
        }
    }
}

/// Serves a script over an opened file, and closes the file.
fn serve_opened<D: Disk + Drop, T: Source, K: Sink, E: Sink>(
    alloc: Global,
    mut conn: Connection<FileStore<D>>,
    is_new: bool,
    script: &mut T,
    sink: &mut K,
    errors: &mut E,
) -> u8
    requires alone { conn.in_transaction ≡ false }
    requires sound { HasCleanDisk (file_state conn) → IsOpened conn }
    ensures { ServesOpened D.Disk conn (record {
      is_new = is_new;
      script = record { before = T.state script.old; after = T.state script.new };
      sink_before = K.state sink.old;
      sink_after = K.state sink.new;
      errors_before = E.state errors.old;
      errors_after = E.state errors.new;
      status = result;
    }) }
{
    match find_table(&mut conn, alloc, is_new) {
        Ok(()) => {
            let status = run_shift(alloc, &mut conn, script, sink, errors);
            close_shift(conn, status, errors)
        }
        Err(fault) => {
            let _closed = conn.close();
            tell_refusal(errors, &fault_refusal(&fault))
        }
    }
}

/// Opens the file that an argument names, once, serves a script over it, and closes it.
pub(crate) fn serve_file<P: LedgerOpener, T: Source, K: Sink, E: Sink>(
    alloc: Global,
    ledgers: &mut P,
    path: &str,
    is_new: bool,
    script: &mut T,
    sink: &mut K,
    errors: &mut E,
) -> u8
    ensures opened { P.opened ledgers.new ≡ P.opened ledgers.old ++ path.now ∷ [] }
    ensures serves { ServesFile P.File.Disk (record {
      is_new = is_new;
      script = record { before = T.state script.old; after = T.state script.new };
      sink_before = K.state sink.old;
      sink_after = K.state sink.new;
      errors_before = E.state errors.old;
      errors_after = E.state errors.new;
      status = result;
    }) }
{
    match ledgers.open(path, is_new) {
        Ok(conn) => serve_opened(alloc, conn, is_new, script, sink, errors),
        Err(fault) => tell_refusal(errors, &fault_refusal(&fault)),
    }
}
