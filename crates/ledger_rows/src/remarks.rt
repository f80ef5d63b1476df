//! What an operator says of a counter, without a reply of the unit.

ghost use Rattle.std.specs.Prelude.{◌≡◌, ◌↔◌, IsTrue, IfErr, IfOk, OnOk};
ghost use Rattle.ledger_rows.specs.Steps.{HasIssued, MayRemark, RefusesRemark, remarked_kind};
ghost use Rattle.ledger_rows.specs.declared.remarks.RemarkKind.TheVariants.{Raise, Fail};

use crate::decisions::{greatest, has_confirmed};
use crate::kinds::{RowKind, SlotRow};
use key_slots::{Counter28, SlotId};
use memory_update::Uid;

/// What is said of a counter.
#[derive(Clone, Copy, Debug, PartialEq, Eq)]
pub enum RemarkKind {
    /// No request with a greater one may have gone out.
    Raise,
    /// The load of its request failed.
    Fail,
}

/// What an operator says of a counter of a unit's slot.
#[derive(Clone, Copy)]
pub struct Remark {
    /// The unit's identifier, not zero.
    pub uid: Uid,
    /// The slot.
    pub id: SlotId,
    /// The counter.
    pub counter: Counter28,
    /// What is said of it.
    pub kind: RemarkKind,
}

/// Why a remark is refused.
#[derive(Clone, Copy, Debug, PartialEq, Eq)]
pub enum RemarkRefusal {
    /// A raised counter isn't above the last one, which is this.
    Behind(Counter28),
    /// No request with the counter was issued.
    Unknown,
    /// The update with the counter was confirmed.
    AlreadyConfirmed,
}

impl RemarkKind {
    /// The kind of the row that it adds.
    pub fn row_kind(self) -> RowKind
        ensures { result ≡ remarked_kind self }
    {
        match self {
            RemarkKind::Raise => RowKind::Raised,
            RemarkKind::Fail => RowKind::Failed,
        }
    }
}

/// Whether a request with this counter was issued.
fn was_issued(rows: &[SlotRow], counter: Counter28) -> bool
    ensures { IsTrue result ↔ HasIssued counter rows.now }
{
    rows.iter().any(|row| row.kind == RowKind::Issued && row.counter == counter)
}

/// A counter that is raised.
fn raised(rows: &[SlotRow], counter: Counter28) -> Result<Counter28, RemarkRefusal>
    ensures is { IfOk result (λ it. it ≡ counter) }
    ensures may { OnOk result (MayRemark Raise counter rows.now) }
    ensures refused { IfErr result (RefusesRemark Raise counter rows.now) }
{
    let Some(last) = Counter28::new(greatest(rows)) else {
        return Ok(counter);
    };
    if counter.number() <= last.number() {
        return Err(RemarkRefusal::Behind(last));
    }
    Ok(counter)
}

/// The counter of a load that failed.
fn failed(rows: &[SlotRow], counter: Counter28) -> Result<Counter28, RemarkRefusal>
    ensures is { IfOk result (λ it. it ≡ counter) }
    ensures may { OnOk result (MayRemark Fail counter rows.now) }
    ensures refused { IfErr result (RefusesRemark Fail counter rows.now) }
{
    if !was_issued(rows, counter) {
        return Err(RemarkRefusal::Unknown);
    }
    if has_confirmed(rows, counter) {
        return Err(RemarkRefusal::AlreadyConfirmed);
    }
    Ok(counter)
}

/// The counter that is recorded for a remark, over the rows of its unit and slot.
///
/// # Errors
/// `Behind` if a counter isn't raised above the last. `Unknown` if a load is to fail that wasn't issued, and
/// `AlreadyConfirmed` if it was confirmed.
pub fn remarked(
    rows: &[SlotRow],
    kind: RemarkKind,
    counter: Counter28,
) -> Result<Counter28, RemarkRefusal>
    ensures is { IfOk result (λ it. it ≡ counter) }
    ensures may { OnOk result (MayRemark kind counter rows.now) }
    ensures refused { IfErr result (RefusesRemark kind counter rows.now) }
{
    match kind {
        RemarkKind::Raise => raised(rows, counter),
        RemarkKind::Fail => failed(rows, counter),
    }
}
