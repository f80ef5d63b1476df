//! What all tests here are made of: slots, and stores in memory.
ghost use Rattle.std.specs.Prelude.{◌≡◌, length, false, IfOk};
ghost use Rattle.cell_store.specs.Store.{FewCells};
ghost use Rattle.any_cells.specs.Either.{any_state};

use any_cells::AnyCells;
use cell_store::{Kind, Version};
use cut_disk::MemDisk;
use freshness_manager::Direction;
use freshness_store::bound_bytes;
use key_slots::{Block, Counter28, Flags, Slot, SlotId};
use slot_disk::slot_bytes;
use std::alloc::Global;
use std::test::Fail;

/// The key of the examples of SP 800-38A and SP 800-38B.
pub(crate) const KEY: u128 = 0x2b7e151628aed2a6abf7158809cf4f3c;

/// The Data ID of every route.
pub(crate) const ID: u16 = 0x6bc1;

pub(crate) const UID: [u8; 15] = [0, 0, 0, 0, 0, 0, 0, 0, 0, 0, 0, 0, 0, 0, 1];

pub(crate) fn block(number: u128) -> Block {
    Block::of(number.to_be_bytes())
}

pub(crate) fn slot(number: u8) -> Result<SlotId, &'static str> {
    SlotId::new(number).ok_or("a slot's number")
}

pub(crate) fn filled(key: u128, counter: u32, flags: u8) -> Result<Slot, &'static str> {
    Ok(Slot::Filled {
        key: block(key),
        counter: Counter28::new(counter).ok_or("a counter")?,
        flags: Flags::of(flags % 32),
    })
}

/// A twin store with these cells, on a disk in memory.
fn store_of(alloc: Global, cells: &[[u8; 32]]) -> Result<AnyCells<MemDisk>, Fail>
    requires { FewCells (length cells.now) }
    ensures count { IfOk result (λ store. length (any_state store).cells ≡ length cells.now) }
    ensures whole { IfOk result (λ store. (any_state store).broken ≡ false) }
{
    let disk = MemDisk::new(alloc, 40_000)?;
    let disk = match AnyCells::format_as(disk, Kind::Twin, Version::One, cells) {
        Ok(disk) => disk,
        Err(refused) => return Err(Fail::from(refused.fault)),
    };
    match AnyCells::attach_as(alloc, disk, Kind::Twin, Version::One, cells.len() as u16) {
        Ok(store) => Ok(store),
        Err(refused) => Err(Fail::from(refused.fault)),
    }
}

/// The cells of fourteen slots, one of them with the key, and of a bound.
fn cells_with(direction: Direction, bound: u64) -> Result<[[u8; 32]; 15], &'static str> {
    let mut cells = [[0; 32]; 15];
    cells[4] = slot_bytes(&filled(KEY, 1, 2)?);
    cells[14] = bound_bytes(ID, direction, bound);
    Ok(cells)
}

/// A twin store of fourteen slots and this bound: the key of slot 4 serves MACs, and the others are empty.
pub(crate) fn store_with(
    alloc: Global,
    direction: Direction,
    bound: u64,
) -> Result<AnyCells<MemDisk>, Fail>
    ensures whole { IfOk result (λ store. (any_state store).broken ≡ false) }
    ensures count { IfOk result (λ store. length (any_state store).cells ≡ 15) }
{
    let cells = cells_with(direction, bound)?;
    store_of(alloc, &cells)
}
