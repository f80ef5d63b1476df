//! The verbs.

ghost use Rattle.std.specs.Prelude.{◌≡◌, ℕ, IfOk, IfErr, OnErr, OnOk};
ghost use Rattle.sqlite.specs.State.{HasCleanDisk, IsUnchanged, Survives};
ghost use Rattle.sqlite.specs.Held.{state};
ghost use Rattle.sqlite.specs.declared.error.ErrorCode.TheVariants.{OutOfMemory};
ghost use Rattle.sqlite.specs.declared.error.Error.TheVariants.{SqliteFailure};
ghost use Rattle.sqlite_trees.specs.Tree.{Trees};
ghost use Rattle.ledger_rows.specs.Lists.{ListsRows};
ghost use Rattle.ledger_rows.specs.Rows.{slot_rows as slot_rows_of};
ghost use Rattle.ledger_rows.specs.Steps.{IssuesRow, RefusesRow, ConfirmsRow, RefusesAnswer, RemarksRow, RefusesRemark, IsShown};
ghost use Rattle.ledger_tables.specs.Held.{ledger_of, ledger_in, HasLedgerTable};
ghost use Rattle.ledger_tables.specs.Adding.{origin_by};
ghost use Rattle.ledger_tables.specs.Failing.{FailsToLook, FailsToIssue, FailsToConfirm, FailsToRemark, IsUndone};

use crate::adding::{NewRow, add};
use crate::reading::rows_for;
use key_campaign::{Confirm, Issue, LedgerRefusal};
use key_slots::{Counter28, SlotId, may_authorise};
use ledger_rows::{
    ListKind, Remark, RemarkRefusal, RowKind, SlotRow, answered_row, check_value, listed_rows,
    next_counter, remarked, shown,
};
use memory_update::Uid;
use sqlite::{Alter, Connection, Error};
use std::alloc::Global;

/// Issues the next counter of a unit's slot. Once it is answered, a crash keeps its row.
///
/// # Errors
/// `BadPair` and `Spent` change nothing. An error of the file says that it failed; the ledger is then as before, or has
/// the row.
pub fn issue<S: Alter>(
    conn: &mut Connection<S>,
    alloc: Global,
    issue: &Issue,
    station: &str,
    operator: &str,
    time: &str,
) -> Result<Result<Counter28, LedgerRefusal>, Error>
    requires { HasCleanDisk (state S.Store conn.old) → HasLedgerTable (state S.Store conn.old) }
    ensures issued { HasCleanDisk (state S.Store conn.new) → IfOk result (λ answer. IfOk answer (λ counter.
        IssuesRow issue.now (origin_by station.now operator.now time.now) counter
        (ledger_in (state S.Store conn.old)) (ledger_in (state S.Store conn.new)))) }
    ensures refused { HasCleanDisk (state S.Store conn.new) → IfOk result (λ answer. IfErr answer (λ why.
        RefusesRow (ledger_in (state S.Store conn.old)) issue.now why)) }
    ensures same { HasCleanDisk (state S.Store conn.new) → IfOk result (λ answer. IfErr answer (λ _.
        (state S.Store conn.new).now ≡ (state S.Store conn.old).now)) }
    ensures ready { HasCleanDisk (state S.Store conn.new)
        → OnOk result (HasLedgerTable (state S.Store conn.new)) }
    ensures failed { HasCleanDisk (state S.Store conn.new) → IfErr result
        (FailsToIssue issue.now (origin_by station.now operator.now time.now)
        (state S.Store conn.old) (state S.Store conn.new)) }
    ensures undone { HasCleanDisk (state S.Store conn.new)
        → OnErr result (IsUndone (state S.Store conn.old) (state S.Store conn.new)) }
    ensures kept { HasCleanDisk (state S.Store conn.new) → IfOk result (λ answer. OnOk answer ((left : Trees)
        → (state S.Store conn.new).may_leave left → left ≡ (state S.Store conn.new).now.trees)) }
    ensures crash { Survives (state S.Store conn.old) (state S.Store conn.new) (λ left. (counter : ℕ)
        × IssuesRow issue.now (origin_by station.now operator.now time.now) counter
        (ledger_in (state S.Store conn.old)) (ledger_of (left 0))) }
{
    if !may_authorise(issue.id, issue.auth) {
        return Ok(Err(LedgerRefusal::BadPair));
    }
    let rows = rows_for(conn, alloc, &issue.uid, issue.id)?;
    let Some(counter) = next_counter(rows.as_slice()) else {
        return Ok(Err(LedgerRefusal::Spent));
    };
    let row = NewRow {
        uid: issue.uid,
        id: issue.id,
        counter,
        kind: RowKind::Issued,
        check: check_value(&issue.key),
        auth: issue.auth,
    };
    add(conn, &row, station, operator, time)?;
    Ok(Ok(counter))
}

/// Records that a reply confirms the update of a request that was issued. Once it is answered, a crash keeps its row.
///
/// # Errors
/// `Unknown`, `NotConfirmed` and `AlreadyConfirmed` change nothing. An error of the file says that it failed; the
/// ledger is then as before, or has the row.
pub fn confirm<S: Alter>(
    conn: &mut Connection<S>,
    alloc: Global,
    confirm: &Confirm,
    station: &str,
    operator: &str,
    time: &str,
) -> Result<Result<Counter28, LedgerRefusal>, Error>
    requires { HasCleanDisk (state S.Store conn.old) → HasLedgerTable (state S.Store conn.old) }
    ensures confirmed { HasCleanDisk (state S.Store conn.new) → IfOk result (λ answer. IfOk answer (λ counter.
        ConfirmsRow confirm.now (origin_by station.now operator.now time.now) counter
        (ledger_in (state S.Store conn.old)) (ledger_in (state S.Store conn.new)))) }
    ensures refused { HasCleanDisk (state S.Store conn.new) → IfOk result (λ answer. IfErr answer (λ why.
        RefusesAnswer (slot_rows_of confirm.now.uid confirm.now.id (ledger_in (state S.Store conn.old)))
        confirm.now why)) }
    ensures same { HasCleanDisk (state S.Store conn.new) → IfOk result (λ answer. IfErr answer (λ _.
        (state S.Store conn.new).now ≡ (state S.Store conn.old).now)) }
    ensures ready { HasCleanDisk (state S.Store conn.new)
        → OnOk result (HasLedgerTable (state S.Store conn.new)) }
    ensures failed { HasCleanDisk (state S.Store conn.new) → IfErr result
        (FailsToConfirm confirm.now (origin_by station.now operator.now time.now)
        (state S.Store conn.old) (state S.Store conn.new)) }
    ensures undone { HasCleanDisk (state S.Store conn.new)
        → OnErr result (IsUndone (state S.Store conn.old) (state S.Store conn.new)) }
    ensures kept { HasCleanDisk (state S.Store conn.new) → IfOk result (λ answer. OnOk answer ((left : Trees)
        → (state S.Store conn.new).may_leave left → left ≡ (state S.Store conn.new).now.trees)) }
    ensures crash { Survives (state S.Store conn.old) (state S.Store conn.new) (λ left. (counter : ℕ)
        × ConfirmsRow confirm.now (origin_by station.now operator.now time.now) counter
        (ledger_in (state S.Store conn.old)) (ledger_of (left 0))) }
{
    let rows = rows_for(conn, alloc, &confirm.uid, confirm.id)?;
    let counter = match answered_row(rows.as_slice(), confirm) {
        Ok(counter) => counter,
        Err(why) => return Ok(Err(why)),
    };
    let row = NewRow {
        uid: confirm.uid,
        id: confirm.id,
        counter,
        kind: RowKind::Confirmed,
        check: check_value(&confirm.key),
        auth: confirm.auth,
    };
    add(conn, &row, station, operator, time)?;
    Ok(Ok(counter))
}

/// Records what an operator says of a counter. Once it is answered, a crash keeps its row.
///
/// # Errors
/// `Behind`, `Unknown` and `AlreadyConfirmed` change nothing. An error of the file says that it failed; the ledger is
/// then as before, or has the row.
pub fn remark<S: Alter>(
    conn: &mut Connection<S>,
    alloc: Global,
    remark: &Remark,
    station: &str,
    operator: &str,
    time: &str,
) -> Result<Result<Counter28, RemarkRefusal>, Error>
    requires { HasCleanDisk (state S.Store conn.old) → HasLedgerTable (state S.Store conn.old) }
    ensures remarked { HasCleanDisk (state S.Store conn.new) → IfOk result (λ answer. IfOk answer (λ counter.
        RemarksRow remark.now (origin_by station.now operator.now time.now) counter
        (ledger_in (state S.Store conn.old)) (ledger_in (state S.Store conn.new)))) }
    ensures refused { HasCleanDisk (state S.Store conn.new) → IfOk result (λ answer. IfErr answer (λ why.
        RefusesRemark remark.now.kind remark.now.counter
        (slot_rows_of remark.now.uid remark.now.id (ledger_in (state S.Store conn.old))) why)) }
    ensures same { HasCleanDisk (state S.Store conn.new) → IfOk result (λ answer. IfErr answer (λ _.
        (state S.Store conn.new).now ≡ (state S.Store conn.old).now)) }
    ensures ready { HasCleanDisk (state S.Store conn.new)
        → OnOk result (HasLedgerTable (state S.Store conn.new)) }
    ensures failed { HasCleanDisk (state S.Store conn.new) → IfErr result
        (FailsToRemark remark.now (origin_by station.now operator.now time.now)
        (state S.Store conn.old) (state S.Store conn.new)) }
    ensures undone { HasCleanDisk (state S.Store conn.new)
        → OnErr result (IsUndone (state S.Store conn.old) (state S.Store conn.new)) }
    ensures kept { HasCleanDisk (state S.Store conn.new) → IfOk result (λ answer. OnOk answer ((left : Trees)
        → (state S.Store conn.new).may_leave left → left ≡ (state S.Store conn.new).now.trees)) }
    ensures crash { Survives (state S.Store conn.old) (state S.Store conn.new) (λ left. (counter : ℕ)
        × RemarksRow remark.now (origin_by station.now operator.now time.now) counter
        (ledger_in (state S.Store conn.old)) (ledger_of (left 0))) }
{
    let rows = rows_for(conn, alloc, &remark.uid, remark.id)?;
    let counter = match remarked(rows.as_slice(), remark.kind, remark.counter) {
        Ok(counter) => counter,
        Err(why) => return Ok(Err(why)),
    };
    let row = NewRow {
        uid: remark.uid,
        id: remark.id,
        counter: remark.counter,
        kind: remark.kind.row_kind(),
        check: [0; 3],
        auth: remark.id,
    };
    add(conn, &row, station, operator, time)?;
    Ok(Ok(counter))
}

/// Shows the greatest counter of a unit's slot, and whether it was confirmed; `None` if it has no row.
pub fn show<S: Alter>(
    conn: &mut Connection<S>,
    alloc: Global,
    uid: &Uid,
    id: SlotId,
) -> Result<Option<(Counter28, bool)>, Error>
    requires { HasCleanDisk (state S.Store conn.old) → HasLedgerTable (state S.Store conn.old) }
    ensures shown { HasCleanDisk (state S.Store conn.new) → IfOk result (λ told.
        IsShown (slot_rows_of uid.now id (ledger_in (state S.Store conn.old))) told) }
    ensures same { HasCleanDisk (state S.Store conn.new)
        → OnOk result (IsUnchanged (state S.Store conn.old) (state S.Store conn.new)) }
    ensures failed { HasCleanDisk (state S.Store conn.new) → IfErr result
        (FailsToLook uid.now id (state S.Store conn.old) (state S.Store conn.new)) }
    ensures undone { HasCleanDisk (state S.Store conn.new)
        → OnErr result (IsUndone (state S.Store conn.old) (state S.Store conn.new)) }
    ensures survives { Survives (state S.Store conn.old) (state S.Store conn.new) (λ _. ⊥) }
{
    let rows = rows_for(conn, alloc, uid, id)?;
    Ok(shown(rows.as_slice()))
}

/// Which of these rows are listed.
fn listed(alloc: Global, kind: ListKind, rows: Vec<SlotRow>) -> Result<Vec<SlotRow>, Error>
    ensures lists { IfOk result (λ listed. ListsRows kind rows.items listed.items) }
    ensures failed { IfErr result (λ e. e ≡ SqliteFailure OutOfMemory) }
{
    Ok(listed_rows(alloc, kind, rows)?)
}

/// Lists rows of a unit's slot, in any order: all, or exactly those that were issued and not confirmed.
pub fn list<S: Alter>(
    conn: &mut Connection<S>,
    alloc: Global,
    kind: ListKind,
    uid: &Uid,
    id: SlotId,
) -> Result<Vec<SlotRow>, Error>
    requires { HasCleanDisk (state S.Store conn.old) → HasLedgerTable (state S.Store conn.old) }
    ensures lists { HasCleanDisk (state S.Store conn.new) → IfOk result (λ listed.
        ListsRows kind (slot_rows_of uid.now id (ledger_in (state S.Store conn.old))) listed.items) }
    ensures same { HasCleanDisk (state S.Store conn.new)
        → OnOk result (IsUnchanged (state S.Store conn.old) (state S.Store conn.new)) }
    ensures failed { HasCleanDisk (state S.Store conn.new) → IfErr result
        (FailsToLook uid.now id (state S.Store conn.old) (state S.Store conn.new)) }
    ensures undone { HasCleanDisk (state S.Store conn.new)
        → OnErr result (IsUndone (state S.Store conn.old) (state S.Store conn.new)) }
    ensures survives { Survives (state S.Store conn.old) (state S.Store conn.new) (λ _. ⊥) }
{
    let rows = rows_for(conn, alloc, uid, id)?;
    listed(alloc, kind, rows)
}
