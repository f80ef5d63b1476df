//! Whether a ledger is down, and how many cells it hands back, which no program asks.
use crate::comparing::same;
use basics::Block;
use campaign_commands::open_ledger;
use cell_store::Cells;
use cut_disk::{MemDisk, Torn};
use key_campaign::LedgerFault;
use key_slots::{Flags, SlotId};
use memory_update::Uid;
use std::test::Fail;

#[test]
fn a_ledger_is_down_from_a_fault_to_the_next_power_up(rt: HostRuntime) -> Result<(), Fail> {
    let (Some(id), Some(auth)) = (SlotId::new(4), SlotId::new(1)) else {
        return Err(Fail::from("no slot"));
    };
    let uid = Uid::of([0, 0, 0, 0, 0, 0, 0, 0, 0, 0, 0, 0, 0, 0, 1]);
    if uid.is_zero() {
        return Err(Fail::from("no unit"));
    }
    let key = Block::of([0x5a; 16]);
    let disk = MemDisk::new(rt.alloc(), 65_536)?;
    let Ok(mut ledger) = open_ledger(rt.alloc(), disk) else {
        return Err(Fail::from("no ledger"));
    };
    let none = ledger.show(uid, id).is_none();
    same(&rt, "blank", &(none, ledger.is_down()), &(true, false));
    ledger.fail_at(3);
    same(&rt, "armed", &ledger.is_down(), &false);
    let fault = match ledger.issue(uid, id, auth, Flags::of(0), &key, &key) {
        Ok(_) => None,
        Err(fault) => Some(fault),
    };
    let told = (fault, ledger.is_down());
    same(&rt, "issued", &told, &(Some(LedgerFault::Faulted), true));
    let none = ledger.show(uid, id).is_none();
    same(&rt, "shown", &(none, ledger.is_down()), &(true, true));
    let up = ledger.power_cut(Torn::Keep).is_ok();
    same(&rt, "cut", &(up, ledger.is_down()), &(true, false));
    same(&rt, "cells", &ledger.release().count(), &256);
    Ok(())
}
