//! What the rows of a unit and slot say to a command.

ghost use Rattle.std.specs.Prelude.{◌≡◌, ◌+◌, ◌^◌, ◌<◌, ◌≤◌, ◌↔◌, IsTrue, All, Any, IfOk, IfErr, IfSome, IfNone};
ghost use Rattle.key_campaign.specs.Entries.{greatest_counter};
ghost use Rattle.ledger_rows.specs.Check.{key_check};
ghost use Rattle.ledger_rows.specs.Rows.{greatest_in};
ghost use Rattle.ledger_rows.specs.declared.kinds.RowKind.TheVariants.{Issued};
ghost use Rattle.ledger_rows.specs.Steps.{AnswersRow, HasConfirmed, RefusesAnswer, IsShown};

use crate::check::check_value;
use crate::kinds::{RowKind, SlotRow};
use key_campaign::{Confirm, LedgerRefusal};
use key_slots::{Counter28, Flags};
use memory_update::{Update, is_confirmed};

/// The greatest counter of the rows, 0 if there is none.
pub(crate) fn greatest(rows: &[SlotRow]) -> u32
    ensures value { result ≡ greatest_in rows.now }
    ensures fits { result < 2 ^ 28 }
{
    let mut most = 0;
    for row in rows {
        let counter = row.counter.number();
        if counter > most {
            most = counter;
        }
    }
    most
}

/// The counter that is issued next over these rows of a unit and slot; `None` if the last one is in use.
pub fn next_counter(rows: &[SlotRow]) -> Option<Counter28>
    ensures next { IfSome result (λ counter. counter ≡ greatest_in rows.now + 1) }
    ensures fits { IfSome result (λ counter. counter ≤ greatest_counter) }
    ensures spent { IfNone result (greatest_counter ≤ greatest_in rows.now) }
{
    Counter28::new(greatest(rows) + 1)
}

/// Whether a request was issued.
fn has_issued(rows: &[SlotRow]) -> bool
    ensures { IsTrue result ↔ Any (λ row. row.kind ≡ Issued) rows.now }
{
    rows.iter().any(|row| row.kind == RowKind::Issued)
}

/// Whether the update with this counter was confirmed.
pub(crate) fn has_confirmed(rows: &[SlotRow], counter: Counter28) -> bool
    ensures { IsTrue result ↔ HasConfirmed counter rows.now }
{
    rows.iter().any(|row| row.kind == RowKind::Confirmed && row.counter == counter)
}

/// Whether the reply answers the request of this row; `check` is the check value of the key.
fn answers(confirm: &Confirm, check: [u8; 3], row: &SlotRow) -> bool
    requires { check ≡ key_check confirm.now.key }
    ensures { IsTrue result ↔ AnswersRow confirm.now row.now }
{
    if row.kind != RowKind::Issued || row.check != check {
        return false;
    }
    let update = Update {
        uid: confirm.uid,
        id: confirm.id,
        auth: confirm.auth,
        counter: row.counter,
        flags: Flags::of(0),
        key: confirm.key,
    };
    is_confirmed(&confirm.reply, &update, confirm.uid)
}

/// The counter of the first request that the reply answers.
fn first_answered(rows: &[SlotRow], confirm: &Confirm) -> Option<Counter28>
    ensures some { IfSome result (λ counter.
        Any (λ row. AnswersRow confirm.now row × (row.counter ≡ counter)) rows.now) }
    ensures none { IfNone result (All (λ row. ¬ AnswersRow confirm.now row) rows.now) }
{
    let check = check_value(&confirm.key);
    for row in rows {
        if answers(confirm, check, row) {
            return Some(row.counter);
        }
    }
    None
}

/// The counter of the request, of those of a unit and slot, that the reply answers.
///
/// # Errors
/// `Unknown` if nothing was issued, `NotConfirmed` if the reply answers no request, and `AlreadyConfirmed` if the one
/// that it answers was confirmed.
pub fn answered_row(rows: &[SlotRow], confirm: &Confirm) -> Result<Counter28, LedgerRefusal>
    ensures answers { IfOk result (λ counter.
        Any (λ row. AnswersRow confirm.now row × (row.counter ≡ counter)) rows.now) }
    ensures unconfirmed { IfOk result (λ counter. ¬ HasConfirmed counter rows.now) }
    ensures refused { IfErr result (RefusesAnswer rows.now confirm.now) }
{
    let Some(counter) = first_answered(rows, confirm) else {
        if has_issued(rows) {
            return Err(LedgerRefusal::NotConfirmed);
        }
        return Err(LedgerRefusal::Unknown);
    };
    if has_confirmed(rows, counter) {
        return Err(LedgerRefusal::AlreadyConfirmed);
    }
    Ok(counter)
}

/// What is shown of a unit and slot: the greatest counter of its rows, and whether it was confirmed; `None` if there is
/// no row.
pub fn shown(rows: &[SlotRow]) -> Option<(Counter28, bool)>
    ensures { IsShown rows.now result }
{
    if rows.is_empty() {
        return None;
    }
    let counter = Counter28::new(greatest(rows))?;
    Some((counter, has_confirmed(rows, counter)))
}
