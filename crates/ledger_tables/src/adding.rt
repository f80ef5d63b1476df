//! A row that is added.

ghost use Rattle.std.specs.Prelude.{◌≡◌, IfErr, OnErr, OnOk};
ghost use Rattle.sqlite.specs.State.{HasCleanDisk, Survives};
ghost use Rattle.sqlite.specs.Held.{state};
ghost use Rattle.sqlite_trees.specs.Tree.{Trees};
ghost use Rattle.ledger_rows.specs.Steps.{AddsRow};
ghost use Rattle.ledger_tables.specs.Held.{ledger_of, ledger_in, HasLedgerTable};
ghost use Rattle.ledger_tables.specs.Adding.{row_of_new, origin_by};
ghost use Rattle.ledger_tables.specs.Failing.{FailsToAdd, IsUndone};

use key_slots::{Counter28, SlotId};
use ledger_rows::RowKind;
use memory_update::Uid;
use sqlite::{Alter, Connection, Error, params};

/// What a row that is added says, apart from who enters it.
#[derive(Clone, Copy)]
pub struct NewRow {
    pub uid: Uid,
    pub id: SlotId,
    pub counter: Counter28,
    pub kind: RowKind,
    /// The check value of the key.
    pub check: [u8; 3],
    /// The authorising slot.
    pub auth: SlotId,
}

/// Adds a row. Once it is answered, a crash keeps it.
pub(crate) fn add<S: Alter>(
    conn: &mut Connection<S>,
    row: &NewRow,
    station: &str,
    operator: &str,
    time: &str,
) -> Result<usize, Error>
    requires { HasCleanDisk (state S.Store conn.old) → HasLedgerTable (state S.Store conn.old) }
    ensures adds { HasCleanDisk (state S.Store conn.new)
        → OnOk result (AddsRow (row_of_new row.now (origin_by station.now operator.now time.now))
        (ledger_in (state S.Store conn.old)) (ledger_in (state S.Store conn.new))) }
    ensures ready { HasCleanDisk (state S.Store conn.new)
        → OnOk result (HasLedgerTable (state S.Store conn.new)) }
    ensures failed { HasCleanDisk (state S.Store conn.new) → IfErr result
        (FailsToAdd (row_of_new row.now (origin_by station.now operator.now time.now))
        (state S.Store conn.old) (state S.Store conn.new)) }
    ensures undone { HasCleanDisk (state S.Store conn.new)
        → OnErr result (IsUndone (state S.Store conn.old) (state S.Store conn.new)) }
    ensures kept { HasCleanDisk (state S.Store conn.new)
        → OnOk result ((left : Trees) → (state S.Store conn.new).may_leave left
        → left ≡ (state S.Store conn.new).now.trees) }
    ensures crash { Survives (state S.Store conn.old) (state S.Store conn.new)
        (λ left. AddsRow (row_of_new row.now (origin_by station.now operator.now time.now))
        (ledger_in (state S.Store conn.old)) (ledger_of (left 0))) }
{
    conn.execute(
        "INSERT INTO entry (uid, slot, counter, what, kcv, auth, station, operator, time) \
         VALUES (?1, ?2, ?3, ?4, ?5, ?6, ?7, ?8, ?9)",
        params![
            row.uid.as_slice(),
            u32::from(row.id.number()),
            row.counter.number(),
            row.kind.word(),
            row.check.as_slice(),
            u32::from(row.auth.number()),
            station,
            operator,
            time
        ],
    )
}
