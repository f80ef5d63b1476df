//! The table of a file that is opened.

ghost use Rattle.std.specs.Prelude.{◌≡◌, false, [], ◌↔◌, IsTrue, IfErr, IfOk, OnOk};
ghost use Rattle.sqlite.specs.State.{HasCleanDisk, Survives};
ghost use Rattle.sqlite.specs.Held.{state};
ghost use Rattle.ledger_tables.specs.Table.{ledger_schema, no_schema};
ghost use Rattle.sqlite.specs.declared.error.ErrorCode.TheVariants.{OutOfMemory};
ghost use Rattle.sqlite.specs.declared.error.Error.TheVariants.{SqliteFailure};
ghost use Rattle.ledger_tables.specs.Held.{ledger_of, ledger_in, HasLedgerTable};
ghost use Rattle.ledger_tables.specs.Failing.{StoreFailed};

use crate::schemas::{is_ledger_schema, is_no_schema};
use sqlite::{Alter, Connection, Error};
use std::alloc::Global;

/// Creates the table in a file that has none.
fn create<S: Alter>(conn: &mut Connection<S>) -> Result<usize, Error>
    requires schema { (state S.Store conn.old).now.schema ≡ no_schema }
    requires alone { (state S.Store conn.old).in_transaction ≡ false }
    ensures ready { HasCleanDisk (state S.Store conn.new) → OnOk result (HasLedgerTable (state S.Store conn.new)) }
    ensures none { HasCleanDisk (state S.Store conn.new) → OnOk result (ledger_in (state S.Store conn.new) ≡ []) }
    ensures failed { HasCleanDisk (state S.Store conn.new)
        → IfErr result (StoreFailed (state S.Store conn.old) (state S.Store conn.new)) }
    ensures crash { Survives (state S.Store conn.old) (state S.Store conn.new) (λ left. ledger_of (left 0) ≡ []) }
{
    conn.execute(
        "CREATE TABLE entry (uid BLOB NOT NULL, slot INTEGER NOT NULL, counter INTEGER NOT NULL, what TEXT NOT NULL, \
         kcv BLOB NOT NULL, auth INTEGER NOT NULL, station TEXT NOT NULL, operator TEXT NOT NULL, \
         time TEXT NOT NULL, id INTEGER PRIMARY KEY, UNIQUE (uid, slot, counter, id)) STRICT",
        &[],
    )
}

/// Makes an empty ledger of a file that has nothing; `false` if it has something, and then it is as before.
pub fn new_ledger<S: Alter>(conn: &mut Connection<S>) -> Result<bool, Error>
    requires { (state S.Store conn.old).in_transaction ≡ false }
    ensures made { HasCleanDisk (state S.Store conn.new) → IfOk result (λ made. IsTrue made
        → HasLedgerTable (state S.Store conn.new) × (ledger_in (state S.Store conn.new) ≡ [])) }
    ensures something { IfOk result (λ made. made ≡ false
        → (¬ ((state S.Store conn.old).now.schema ≡ no_schema)) × (conn.new ≡ conn.old)) }
    ensures failed { HasCleanDisk (state S.Store conn.new)
        → IfErr result (StoreFailed (state S.Store conn.old) (state S.Store conn.new)) }
    ensures crash { Survives (state S.Store conn.old) (state S.Store conn.new) (λ left. ledger_of (left 0) ≡ []) }
{
    if !is_no_schema(conn.schema()) {
        return Ok(false);
    }
    create(conn)?;
    Ok(true)
}

/// Sees that an opened file has the table of a ledger and nothing else.
pub fn is_ledger<S: Alter>(conn: &Connection<S>, alloc: Global) -> Result<bool, Error>
    ensures is { IfOk result (λ yes. IsTrue yes ↔ ((state S.Store conn.now).now.schema ≡ ledger_schema)) }
    ensures failed { IfErr result (λ e. e ≡ SqliteFailure OutOfMemory) }
{
    Ok(is_ledger_schema(alloc, conn.schema())?)
}
