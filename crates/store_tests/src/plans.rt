// A fresh image and a planned put, beside what a store over a disk in memory writes and reads.
ghost use Rattle.std.specs.Prelude.{◌≡◌, ◌≤◌, length, IfOk};

use crate::comparing::{holds, same};
use crate::cutting::ELEVENS;
use cell_store::{Cells, TwinCells};
use cut_disk::{Disk, MemDisk};
use std::alloc::Global;
use std::process::Abort;
use std::test::Fail;
use store_plan::{
    Plan, TellFault, cells_told, check, count_in, done, is_within, make, make_cell, may_grow,
    perform, plan_count, plan_growth, plan_put,
};

// All bytes of a disk that has room for two cells.
fn bytes_of(disk: &mut MemDisk) -> Result<[u8; 168], Fail> {
    let mut out = [0; 168];
    if disk.size() < 168 {
        return Err(Fail::from("the disk is too small"));
    }
    disk.read(0, &mut out)?;
    Ok(out)
}

#[test]
fn a_fresh_image_is_what_format_writes(rt: HostRuntime) -> Result<(), Fail> {
    let disk = MemDisk::new(rt.alloc(), 168)?;
    let mut disk = match TwinCells::format(disk, &[[0; 32]; 2]) {
        Ok(disk) => disk,
        Err(refused) => return Err(Fail::from(refused.fault)),
    };
    let mut image = [0xff; 168];
    make(&mut image, 2);
    holds(
        &rt,
        "image == bytes_of(&mut disk)",
        image == bytes_of(&mut disk)?,
    );
    Ok(())
}

/// Plans a put of elevens, and performs it on the disk and on the image.
fn puts(disk: &mut MemDisk, image: &mut [u8; 168], cell: u16) -> Result<(), Fail> {
    let Ok(mut plan) = plan_put(image, cell, &ELEVENS) else {
        return Err(Fail::from("there is no plan"));
    };
    if disk.size() < 168 || !is_within(&plan, 168) {
        return Err(Fail::from("the plan reaches beyond the disk"));
    }
    perform(disk, &plan)?;
    done(image, &mut plan);
    Ok(())
}

/// The second cell of the store of two cells on this disk.
fn second_cell(alloc: Global, disk: MemDisk) -> Result<[u8; 32], Fail> {
    let store = match TwinCells::attach(alloc, disk, 2) {
        Ok(store) => store,
        Err(refused) => return Err(Fail::from(refused.fault)),
    };
    let mut cell = [0; 32];
    store.get(1, &mut cell);
    Ok(cell)
}

#[test]
fn a_planned_put_is_what_a_store_reads(rt: HostRuntime) -> Result<(), Fail> {
    let mut image = [0; 168];
    make(&mut image, 2);
    let mut disk = MemDisk::of(rt.alloc(), &image)?;
    for cell in [0, 1, 1, 0, 1] {
        puts(&mut disk, &mut image, cell)?;
        holds(&rt, cell, image == bytes_of(&mut disk)?);
    }
    holds(&rt, "cell", second_cell(rt.alloc(), disk)? == ELEVENS);
    Ok(())
}

#[test]
fn a_write_of_no_byte_may_stand_anywhere(rt: HostRuntime) {
    let mut image = [0x5a; 168];
    let mut plan = Plan::NONE;
    plan.second.offset = 0xffff_ffff;
    holds(&rt, "is_within", is_within(&plan, 168));
    done(&mut image, &mut plan);
    holds(
        &rt,
        "image == [0x5a; 168] && plan == Plan::NONE",
        image == [0x5a; 168] && plan == Plan::NONE,
    );
    plan.second.offset = 168;
    plan.second.size = 1;
    holds(&rt, "is_within", !is_within(&plan, 168));
    plan.second.offset = 167;
    holds(&rt, "is_within", is_within(&plan, 168));
}

/// What is after the second cell of a store.
#[derive(Clone, Copy)]
enum Behind {
    Zeros,
    Ones,
    Cell,
    Damaged,
}

/// A number of cells in the header of a store of two cells, what is after them, and what the cells tell.
const NUMBERS: [(u16, Behind, Result<u16, TellFault>); 10] = [
    (2, Behind::Zeros, Ok(2)),
    (1, Behind::Zeros, Ok(2)),
    (0, Behind::Zeros, Ok(2)),
    (3, Behind::Ones, Ok(2)),
    (0xffff, Behind::Ones, Ok(2)),
    (3, Behind::Cell, Ok(3)),
    (2, Behind::Cell, Err(TellFault::TooShort)),
    (0xffff, Behind::Cell, Err(TellFault::TooShort)),
    (2, Behind::Damaged, Ok(2)),
    (3, Behind::Damaged, Err(TellFault::Damaged)),
];

/// Puts it there: of the damaged cell no copy counts.
fn put_behind(image: &mut [u8; 236], behind: Behind) {
    match behind {
        Behind::Zeros => (),
        Behind::Ones => image[168..].fill(0xff),
        Behind::Cell => make_cell(image, 2, &ELEVENS),
        Behind::Damaged => {
            make_cell(image, 2, &ELEVENS);
            image[168] = 0;
            image[202] = 0;
        }
    }
}

/// A store of one cell, which gets another, of elevens.
fn grown(rt: &impl Abort, image: &mut [u8; 236]) {
    make(&mut image[..100], 1);
    holds(rt, "the store may grow", may_grow(image, 1));
    let mut plan = plan_growth(1, &ELEVENS);
    done(image, &mut plan);
    holds(
        rt,
        "the store has two cells",
        check(&image[..168], 2).is_ok(),
    );
}

/// The number of cells that the image has in its header.
fn count_at(image: &[u8; 236]) -> Option<u16> {
    let mut head = [0; 32];
    head.copy_from_slice(&image[..32]);
    count_in(&head)
}

#[test]
fn the_cells_tell_their_number(rt: HostRuntime) {
    for (number, behind, told) in NUMBERS {
        let mut image = [0; 236];
        grown(&rt, &mut image);
        put_behind(&mut image, behind);
        image[10..12].copy_from_slice(&number.to_be_bytes());
        same(&rt, number, &cells_told(&image), &told);
    }
}

#[test]
fn a_torn_number_is_put_right(rt: HostRuntime) {
    let mut image = [0; 236];
    grown(&rt, &mut image);
    image[11] = 77;
    same(&rt, "torn", &count_at(&image), &Some(77));
    let mut plan = plan_count(2);
    done(&mut image, &mut plan);
    same(&rt, "put right", &count_at(&image), &Some(2));
}
