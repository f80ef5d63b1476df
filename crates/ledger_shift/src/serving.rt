//! What a command of a shift is answered.
ghost use Rattle.std.specs.Prelude.{◌≡◌, false, IfErr, IfOk, OnErr, OnOk};
ghost use Rattle.memory_update.specs.Messages.{Builds};
ghost use Rattle.key_campaign.specs.Steps.{update_for};
ghost use Rattle.sqlite.specs.State.{HasCleanDisk, Survives};
ghost use Rattle.sqlite.specs.Held.{state};
ghost use Rattle.ledger_tables.specs.Held.{HasLedgerTable};
ghost use Rattle.ledger_tables.specs.Failing.{IsUndone};
ghost use Rattle.ledger_shift.specs.declared.line.ShiftLine.TheVariants as ask;
ghost use Rattle.ledger_shift.specs.Answers.{AnswersAsk, FailsAsk, MayAddRow};
ghost use Rattle.ledger_shift.specs.Told.{tells_refusal};

use crate::origin::Origin;
use crate::told::ShiftTold;
use key_campaign::{Confirm, Issue};
use key_slots::{Counter28, SlotId};
use ledger_rows::{ListKind, Remark};
use ledger_tables::{confirm, issue, list, remark, show};
use memory_update::{Request, Uid, Update, build};
use sqlite::{Alter, Connection, Error};
use std::alloc::Global;

/// The request of an issue with this counter.
fn request_for(asked: &Issue, counter: Counter28) -> Request
    ensures { Builds result asked.now.authkey (update_for asked.now counter) }
{
    let update = Update {
        uid: asked.uid,
        id: asked.id,
        auth: asked.auth,
        counter,
        flags: asked.flags,
        key: asked.key,
    };
    build(&update, &asked.authkey)
}

/// Issues, and makes the request. Its row is committed.
pub(crate) fn serve_issue<S: Alter>(
    conn: &mut Connection<S>,
    alloc: Global,
    asked: &Issue,
    origin: &Origin,
) -> Result<ShiftTold, Error>
    requires { HasCleanDisk (state S.Store conn.old) → HasLedgerTable (state S.Store conn.old) }
    ensures answers { HasCleanDisk (state S.Store conn.new) → IfOk result
        (AnswersAsk origin.now (state S.Store conn.old) (state S.Store conn.new) (ask.Issue asked.now)) }
    ensures ready { HasCleanDisk (state S.Store conn.new)
        → OnOk result (HasLedgerTable (state S.Store conn.new)) }
    ensures failed { HasCleanDisk (state S.Store conn.new) → IfErr result
        (FailsAsk origin.now (state S.Store conn.old) (state S.Store conn.new) (ask.Issue asked.now)) }
    ensures undone { HasCleanDisk (state S.Store conn.new)
        → OnErr result (IsUndone (state S.Store conn.old) (state S.Store conn.new)) }
    ensures survives { Survives (state S.Store conn.old) (state S.Store conn.new)
        (MayAddRow origin.now (state S.Store conn.old) (ask.Issue asked.now)) }
{
    match issue(
        conn,
        alloc,
        asked,
        origin.station(),
        origin.operator(),
        origin.time(),
    ) {
        Ok(Ok(counter)) => Ok(ShiftTold::Issued {
            counter,
            request: request_for(asked, counter),
        }),
        Ok(Err(why)) => Ok(ShiftTold::Refused(why)),
        Err(error) => Err(error),
    }
}

/// Records a reply. Its row is committed.
pub(crate) fn serve_confirm<S: Alter>(
    conn: &mut Connection<S>,
    alloc: Global,
    asked: &Confirm,
    origin: &Origin,
) -> Result<ShiftTold, Error>
    requires { HasCleanDisk (state S.Store conn.old) → HasLedgerTable (state S.Store conn.old) }
    ensures answers { HasCleanDisk (state S.Store conn.new) → IfOk result
        (AnswersAsk origin.now (state S.Store conn.old) (state S.Store conn.new) (ask.Confirm asked.now)) }
    ensures ready { HasCleanDisk (state S.Store conn.new)
        → OnOk result (HasLedgerTable (state S.Store conn.new)) }
    ensures failed { HasCleanDisk (state S.Store conn.new) → IfErr result
        (FailsAsk origin.now (state S.Store conn.old) (state S.Store conn.new) (ask.Confirm asked.now)) }
    ensures undone { HasCleanDisk (state S.Store conn.new)
        → OnErr result (IsUndone (state S.Store conn.old) (state S.Store conn.new)) }
    ensures survives { Survives (state S.Store conn.old) (state S.Store conn.new)
        (MayAddRow origin.now (state S.Store conn.old) (ask.Confirm asked.now)) }
{
    match confirm(
        conn,
        alloc,
        asked,
        origin.station(),
        origin.operator(),
        origin.time(),
    ) {
        Ok(Ok(counter)) => Ok(ShiftTold::Confirmed(counter)),
        Ok(Err(why)) => Ok(ShiftTold::Refused(why)),
        Err(error) => Err(error),
    }
}

/// Records what an operator says. Its row is committed.
pub(crate) fn serve_remark<S: Alter>(
    conn: &mut Connection<S>,
    alloc: Global,
    asked: &Remark,
    origin: &Origin,
) -> Result<ShiftTold, Error>
    requires { HasCleanDisk (state S.Store conn.old) → HasLedgerTable (state S.Store conn.old) }
    ensures answers { HasCleanDisk (state S.Store conn.new) → IfOk result
        (AnswersAsk origin.now (state S.Store conn.old) (state S.Store conn.new) (ask.Remark asked.now)) }
    ensures ready { HasCleanDisk (state S.Store conn.new)
        → OnOk result (HasLedgerTable (state S.Store conn.new)) }
    ensures failed { HasCleanDisk (state S.Store conn.new) → IfErr result
        (FailsAsk origin.now (state S.Store conn.old) (state S.Store conn.new) (ask.Remark asked.now)) }
    ensures undone { HasCleanDisk (state S.Store conn.new)
        → OnErr result (IsUndone (state S.Store conn.old) (state S.Store conn.new)) }
    ensures survives { Survives (state S.Store conn.old) (state S.Store conn.new)
        (MayAddRow origin.now (state S.Store conn.old) (ask.Remark asked.now)) }
{
    match remark(
        conn,
        alloc,
        asked,
        origin.station(),
        origin.operator(),
        origin.time(),
    ) {
        Ok(Ok(counter)) => Ok(ShiftTold::Remarked(asked.kind, counter)),
        Ok(Err(why)) => Ok(ShiftTold::Unremarked(why)),
        Err(error) => Err(error),
    }
}

/// Looks at a unit's slot.
pub(crate) fn serve_show<S: Alter>(
    conn: &mut Connection<S>,
    alloc: Global,
    uid: &Uid,
    id: SlotId,
    _origin: &Origin,
) -> Result<ShiftTold, Error>
    requires { HasCleanDisk (state S.Store conn.old) → HasLedgerTable (state S.Store conn.old) }
    ensures answers { HasCleanDisk (state S.Store conn.new) → IfOk result
        (AnswersAsk _origin.now (state S.Store conn.old) (state S.Store conn.new) (ask.Show uid.now id)) }
    ensures ready { HasCleanDisk (state S.Store conn.new)
        → OnOk result (HasLedgerTable (state S.Store conn.new)) }
    ensures failed { HasCleanDisk (state S.Store conn.new) → IfErr result
        (FailsAsk _origin.now (state S.Store conn.old) (state S.Store conn.new) (ask.Show uid.now id)) }
    ensures undone { HasCleanDisk (state S.Store conn.new)
        → OnErr result (IsUndone (state S.Store conn.old) (state S.Store conn.new)) }
    ensures calm { IfOk result (λ told. tells_refusal told ≡ false) }
    ensures survives { Survives (state S.Store conn.old) (state S.Store conn.new)
        (MayAddRow _origin.now (state S.Store conn.old) (ask.Show uid.now id)) }
{
    match show(conn, alloc, uid, id) {
        Ok(told) => Ok(ShiftTold::Shown(told)),
        Err(error) => Err(error),
    }
}

/// Lists rows of a unit's slot.
pub(crate) fn serve_list<S: Alter>(
    conn: &mut Connection<S>,
    alloc: Global,
    kind: ListKind,
    uid: &Uid,
    id: SlotId,
    _origin: &Origin,
) -> Result<ShiftTold, Error>
    requires { HasCleanDisk (state S.Store conn.old) → HasLedgerTable (state S.Store conn.old) }
    ensures answers { HasCleanDisk (state S.Store conn.new) → IfOk result
        (AnswersAsk _origin.now (state S.Store conn.old) (state S.Store conn.new) (ask.List kind uid.now id)) }
    ensures ready { HasCleanDisk (state S.Store conn.new)
        → OnOk result (HasLedgerTable (state S.Store conn.new)) }
    ensures failed { HasCleanDisk (state S.Store conn.new) → IfErr result
        (FailsAsk _origin.now (state S.Store conn.old) (state S.Store conn.new) (ask.List kind uid.now id)) }
    ensures undone { HasCleanDisk (state S.Store conn.new)
        → OnErr result (IsUndone (state S.Store conn.old) (state S.Store conn.new)) }
    ensures calm { IfOk result (λ told. tells_refusal told ≡ false) }
    ensures survives { Survives (state S.Store conn.old) (state S.Store conn.new)
        (MayAddRow _origin.now (state S.Store conn.old) (ask.List kind uid.now id)) }
{
    match list(conn, alloc, kind, uid, id) {
        Ok(rows) => Ok(ShiftTold::Listed(rows)),
        Err(error) => Err(error),
    }
}
