//! The rows of a unit and slot.

ghost use Rattle.std.specs.Prelude.{◌≡◌, ◌⊎◌, ◌≤◌, ℕ, pos, Any, IfErr, IfNone, IfOk, IfSome, OnErr, OnOk, map, length};
ghost use Rattle.std.specs.Option.{option_and_then};
ghost use Rattle.std.specs.List.Sorted.{IsPermutation};
ghost use Rattle.key_campaign.specs.Entries.{greatest_counter};
ghost use Rattle.sqlite_value.specs.declared.value.Value.TheVariants.{Blob};
ghost use Rattle.sqlite_value.specs.Order.{column};
ghost use Rattle.sqlite.specs.State.{HasCleanDisk, IsUnchanged, Survives};
ghost use Rattle.sqlite.specs.Held.{state};
ghost use Rattle.sqlite.specs.declared.error.ErrorCode.TheVariants.{DatabaseCorrupt, OutOfMemory};
ghost use Rattle.sqlite.specs.declared.error.Error.TheVariants.{SqliteFailure};
ghost use Rattle.ledger_rows.specs.Kinds.{row_kind_of};
ghost use Rattle.ledger_rows.specs.Rows.{slot_rows};
ghost use Rattle.ledger_tables.specs.Held.{number_held, text_held, blob_held, ledger_in, HasLedgerTable};
ghost use Rattle.ledger_tables.specs.Reading.{shown_slot_row, IsShownWhole};
ghost use Rattle.ledger_tables.specs.Failing.{FailsToLook, IsUndone};

use key_slots::{Counter28, SlotId};
use ledger_rows::{RowKind, SlotRow};
use memory_update::Uid;
use sqlite::types::ValueRef;
use sqlite::{Alter, Connection, Error, ErrorCode, Row, params};
use std::alloc::Global;

/// What a file that breaks the ledger's rules is answered with.
const DAMAGED: Error = Error::SqliteFailure(ErrorCode::DatabaseCorrupt);

/// The check value of a row: three bytes.
fn check_of_row(row: &Row) -> Option<[u8; 3]>
    ensures some { IfSome result (λ check. blob_held (column row.now 3) ≡ Some check) }
    ensures none { IfNone result ((check : _) → blob_held (column row.now 3) ≡ Some check → ¬ (length check ≡ 3)) }
{
    let Ok(ValueRef::Blob(bytes)) = row.get_ref(3) else {
        return None;
    };
    if bytes.len() != 3 {
        return None;
    }
    let mut check = [0; 3];
    check.copy_from_slice(bytes);
    Some(check)
}

/// What a row was added for.
fn kind_of_row(row: &Row) -> Option<RowKind>
    ensures { option_and_then row_kind_of (text_held (column row.now 2)) ≡ result }
{
    match row.get_ref(2) {
        Ok(ValueRef::Text(word)) => RowKind::of_word(word),
        _ => None,
    }
}

/// A number of a row.
fn number_of_row(row: &Row, at: usize) -> Option<u64>
    ensures { number_held (column row.now at) ≡ result }
{
    match row.get_ref(at) {
        Ok(ValueRef::Int(number)) => u64::try_from(number).ok(),
        _ => None,
    }
}

/// The counter of a row.
fn counter_of_row(row: &Row) -> Option<Counter28>
    ensures some { IfSome result (λ counter. number_held (column row.now 1) ≡ Some counter) }
    ensures none { IfNone result ((n : ℕ) → number_held (column row.now 1) ≡ Some n → ¬ (n ≤ greatest_counter)) }
{
    Counter28::new(u32::try_from(number_of_row(row, 1)?).ok()?)
}

/// A row as it is shown: slot, counter, what and kcv.
fn slot_row_of(row: &Row) -> Option<SlotRow>
    ensures some { IfSome result (λ it. shown_slot_row row.now ≡ Some it) }
    ensures none { IfNone result (¬ IsShownWhole row.now) }
{
    let _id = number_of_row(row, 0)?;
    Some(SlotRow {
        counter: counter_of_row(row)?,
        kind: kind_of_row(row)?,
        check: check_of_row(row)?,
    })
}

/// Each row, as it is shown.
fn each_slot_row(alloc: Global, rows: &[Row]) -> Result<Vec<SlotRow>, Error>
    ensures read { IfOk result (λ read. map shown_slot_row rows.now ≡ map Some read.items) }
    ensures failed { IfErr result (λ e. (e ≡ SqliteFailure OutOfMemory)
        ⊎ ((e ≡ SqliteFailure DatabaseCorrupt) × Any (λ row. ¬ IsShownWhole row) rows.now)) }
{
    let mut read = Vec::new(alloc);
    for row in rows {
        let Some(it) = slot_row_of(row) else {
            return Err(DAMAGED);
        };
        read.push(it)?;
    }
    Ok(read)
}

/// The rows of a unit and slot, in any order. A row whose values aren't those of a ledger is refused.
pub(crate) fn rows_for<S: Alter>(
    conn: &mut Connection<S>,
    alloc: Global,
    uid: &Uid,
    id: SlotId,
) -> Result<Vec<SlotRow>, Error>
    requires { HasCleanDisk (state S.Store conn.old) → HasLedgerTable (state S.Store conn.old) }
    ensures rows { HasCleanDisk (state S.Store conn.new) → IfOk result (λ rows.
        IsPermutation (slot_rows uid.now id (ledger_in (state S.Store conn.old))) rows.items) }
    ensures same { HasCleanDisk (state S.Store conn.new)
        → OnOk result (IsUnchanged (state S.Store conn.old) (state S.Store conn.new)) }
    ensures failed { HasCleanDisk (state S.Store conn.new) → IfErr result
        (FailsToLook uid.now id (state S.Store conn.old) (state S.Store conn.new)) }
    ensures undone { HasCleanDisk (state S.Store conn.new)
        → OnErr result (IsUndone (state S.Store conn.old) (state S.Store conn.new)) }
    ensures survives { Survives (state S.Store conn.old) (state S.Store conn.new) (λ _. ⊥) }
{
    let rows = conn.query_all(
        "SELECT slot, counter, what, kcv FROM entry WHERE uid = ?1 AND slot = ?2",
        params![uid.as_slice(), u32::from(id.number())],
    )?;
    each_slot_row(alloc, rows.as_slice())
}
