//! What is listed of the rows of a unit and slot.

ghost use Rattle.std.specs.Prelude.{◌≡◌, IfOk, filter};
ghost use Rattle.std.specs.List.{list_any};
ghost use Rattle.ledger_rows.specs.Lists.{says_issued as issued_kind, says_confirmed as confirmed_kind};
ghost use Rattle.ledger_rows.specs.Lists.{confirms_counter as confirmed_counter, is_unconfirmed as unconfirmed, ListsRows};

use crate::kinds::{RowKind, SlotRow};
use key_slots::Counter28;
use std::alloc::{AllocError, Global};

/// Which rows of a unit and slot are listed.
#[derive(Clone, Copy, Debug, PartialEq, Eq)]
pub enum ListKind {
    /// All.
    History,
    /// Those of requests that were issued and not confirmed.
    Open,
}

fn says_issued(kind: RowKind) -> bool
    ensures { result ≡ issued_kind kind }
{
    match kind {
        RowKind::Issued => true,
        RowKind::Confirmed => false,
        RowKind::Failed => false,
        RowKind::Imported => false,
        RowKind::Raised => false,
    }
}

fn says_confirmed(kind: RowKind) -> bool
    ensures { result ≡ confirmed_kind kind }
{
    match kind {
        RowKind::Issued => false,
        RowKind::Confirmed => true,
        RowKind::Failed => false,
        RowKind::Imported => false,
        RowKind::Raised => false,
    }
}

/// Whether the row confirms the update with this counter.
fn confirms_counter(counter: Counter28, row: &SlotRow) -> bool
    ensures { result ≡ confirmed_counter counter row.now }
{
    says_confirmed(row.kind) && row.counter.number() == counter.number()
}

/// Whether one of the rows does.
fn has_confirmation(rows: &[SlotRow], counter: Counter28) -> bool
    ensures { result ≡ list_any (confirmed_counter counter) rows.now }
{
    rows.iter().any(|row| confirms_counter(counter, row))
}

/// Whether the row is of a request that was issued, and that none of the rows confirms.
fn is_unconfirmed(rows: &[SlotRow], row: &SlotRow) -> bool
    ensures { result ≡ unconfirmed rows.now row.now }
{
    says_issued(row.kind) && !has_confirmation(rows, row.counter)
}

/// The rows of requests that were issued and not confirmed.
fn open_rows(alloc: Global, rows: &[SlotRow]) -> Result<Vec<SlotRow>, AllocError>
    ensures { IfOk result (λ listed. listed.items ≡ filter (unconfirmed rows.now) rows.now) }
{
    let mut listed = Vec::new(alloc);
    for row in rows {
        if is_unconfirmed(rows, row) {
            listed.push(*row)?;
        }
    }
    Ok(listed)
}

/// The rows that are listed of these rows of a unit and slot.
pub fn listed_rows(
    alloc: Global,
    kind: ListKind,
    rows: Vec<SlotRow>,
) -> Result<Vec<SlotRow>, AllocError>
    ensures { IfOk result (λ listed. ListsRows kind rows.items listed.items) }
{
    match kind {
        ListKind::History => Ok(rows),
        ListKind::Open => open_rows(alloc, rows.as_slice()),
    }
}
