//! The calls of a store on flash as C makes them: over two banks of eighteen lines in memory, which a driver reads,
//! erases and programs.
ghost use Rattle.std.specs.Prelude.{◌≡◌, length};

use flash_calls::{
    FlashNumbers, FlashOperation, FlashRefusal, begin, did, next, numbers_of, put, take,
};
use flash_lines::{FlashSizes, line_bytes, read_line, told_sizes};
use flash_places::FlashLine;
use flash_plan::FlashPlan;
use std::process::Abort;
use std::test::Fail;

/// How many cells there are, and how many lines in a bank: a head, the copy, and three puts.
const CELLS: usize = 14;

const LINES: usize = 18;

#[derive(Clone, Copy, Drop)]
struct Line {
    bytes: [u8; 48],
}

/// The lines of two banks, those of bank 0 first.
#[derive(Clone, Copy, Drop)]
struct Banks {
    lines: [Line; 2 * LINES],
    /// Whether a line that was erased is told as blank.
    tells_blank: bool,
    done: Done,
}

/// How many operations of each kind were performed.
#[derive(Clone, Copy, Debug, PartialEq, Eq, Drop)]
struct Done {
    reads: u32,
    erases: u32,
    programs: u32,
}

/// What a store costs that was made, without what making it cost.
struct CostRow {
    tells_blank: bool,
    starts: u32,
    /// After the last start.
    puts: u32,
    done: Done,
}

/// A start copies fourteen cells and a head, unless it goes on; a put is one program, and each third one finds its bank
/// full. A start reads a copy and the place behind it, and the other bank only if its head is later: every second time.
const COSTS: [CostRow; 5] = [
    CostRow {
        tells_blank: false,
        starts: 1000,
        puts: 0,
        done: Done {
            reads: 24_500,
            erases: 1000,
            programs: 15_000,
        },
    },
    CostRow {
        tells_blank: true,
        starts: 1000,
        puts: 0,
        done: Done {
            reads: 19_000,
            erases: 0,
            programs: 0,
        },
    },
    CostRow {
        tells_blank: false,
        starts: 1,
        puts: 3,
        done: Done {
            reads: 17,
            erases: 1,
            programs: 18,
        },
    },
    CostRow {
        tells_blank: false,
        starts: 1,
        puts: 200,
        done: Done {
            reads: 17,
            erases: 67,
            programs: 1205,
        },
    },
    CostRow {
        tells_blank: true,
        starts: 1,
        puts: 200,
        done: Done {
            reads: 19,
            erases: 66,
            programs: 1190,
        },
    },
];

/// Unit, banks, bytes of a bank, cells, and whether a store of so many cells fits such a part.
const PARTS: [(u16, u8, u32, usize, bool); 16] = [
    (8, 2, 768, 14, true),
    (8, 2, 767, 14, false),
    (16, 16, 13_056, 270, true),
    (16, 16, 13_055, 270, false),
    (32, 2, 1_024, 14, true),
    (64, 2, 1_024, 14, true),
    (64, 2, 1_023, 14, false),
    (128, 2, 2_048, 14, true),
    (128, 2, 4_294_967_295, 270, true),
    (4, 2, 4_096, 14, false),
    (0, 2, 4_096, 14, false),
    (24, 2, 4_096, 14, false),
    (8, 1, 4_096, 14, false),
    (8, 17, 4_096, 14, false),
    (8, 2, 65_536, 13, false),
    (8, 2, 65_536, 271, false),
];

/// Sizes that say nothing.
const UNTOLD: FlashSizes = FlashSizes {
    unit: 0,
    banks: 0,
    bank_size: 0,
    cells: 0,
};

/// A start over a store of 14 cells on two banks of 864 bytes, with units of 8: unit, banks, bytes of a bank, cells,
/// whether its heads tell its sizes, and whether it is found.
const STARTS: [(u16, u8, u32, usize, bool, bool); 11] = [
    (8, 2, 864, 14, true, true),
    (16, 2, 864, 14, true, false),
    (8, 3, 864, 14, true, false),
    (8, 16, 864, 14, true, false),
    (8, 2, 768, 14, true, false),
    (8, 2, 863, 14, true, false),
    (8, 2, 1_728, 14, true, false),
    (8, 2, 864, 15, true, false),
    (8, 2, 864, 14, false, true),
    (16, 2, 864, 14, false, true),
    (8, 2, 864, 15, false, false),
];

/// Numbers of some plan.
fn some_numbers() -> FlashNumbers {
    numbers_of(&FlashPlan::start(2, 20), &UNTOLD, 0)
}

/// A line that was erased.
fn erased() -> Line {
    Line { bytes: [0xff; 48] }
}

/// Two banks of lines of this byte.
fn banks_of(byte: u8) -> Banks {
    let lines = [Line { bytes: [byte; 48] }; 2 * LINES];
    let done = Done {
        reads: 0,
        erases: 0,
        programs: 0,
    };
    Banks {
        lines,
        tells_blank: false,
        done,
    }
}

/// Whether all is zero that the operation doesn't use.
fn is_quiet(operation: &FlashOperation) -> bool {
    let first = if operation.kind == 3 { 48 } else { 0 };
    let none = operation.kind != 0 || operation.bank == 0 && operation.offset == 0;
    none && operation.bytes[first..].iter().all(|byte| *byte == 0)
}

/// Performs an operation on the banks: its outcome.
fn perform(banks: &mut Banks, operation: &mut FlashOperation) -> u32 {
    let line = operation.offset as usize / 48;
    if operation.bank >= 2 || line >= LINES {
        return 3;
    }
    let first = operation.bank as usize * LINES;
    match operation.kind {
        1 => {
            banks.done.reads = banks.done.reads.saturating_add(1);
            operation.bytes[..48].copy_from_slice(&banks.lines[first + line].bytes);
            if banks.tells_blank && operation.bytes[..48] == [0xff; 48] {
                return 1;
            }
        }
        2 => {
            banks.done.erases = banks.done.erases.saturating_add(1);
            banks.lines[first..first + LINES].fill(erased());
        }
        _ => {
            banks.done.programs = banks.done.programs.saturating_add(1);
            banks.lines[first + line]
                .bytes
                .copy_from_slice(&operation.bytes[..48]);
        }
    }
    0
}

/// Performs operations until none comes: why none does, if the plan has ended.
fn work(
    flash: &mut FlashNumbers,
    cells: &mut [[u8; 32]],
    scratch: &mut [[u8; 32]],
    banks: &mut Banks,
) -> Result<(), FlashRefusal> {
    let mut operation = FlashOperation {
        kind: 0,
        bank: 0,
        offset: 0,
        length: 0,
        bytes: [0; 128],
    };
    for _ in 0..100u32 {
        next(flash, cells, &mut operation)?;
        if !is_quiet(&operation) {
            return Err(FlashRefusal::BadValue);
        }
        if operation.kind == 0 {
            return Ok(());
        }
        let outcome = perform(banks, &mut operation);
        did(flash, cells, scratch, outcome, &operation.bytes)?;
    }
    Err(FlashRefusal::Busy)
}

/// Starts a store: its cells.
fn started(banks: &mut Banks) -> Result<[[u8; 32]; CELLS], FlashRefusal> {
    let mut flash = some_numbers();
    let mut cells = [[0; 32]; CELLS];
    let mut scratch = [[0; 32]; CELLS];
    begin(&mut flash, 8, 2, 864, CELLS)?;
    work(&mut flash, &mut cells, &mut scratch, banks)?;
    Ok(cells)
}

/// Makes a store of cells that are all alike, starts it, and puts into its cells in turn.
fn made(banks: &mut Banks, puts: u8) -> Result<(), FlashRefusal> {
    let mut flash = some_numbers();
    let mut cells = [[1; 32]; CELLS];
    let mut scratch = [[0; 32]; CELLS];
    take(&mut flash, 8, 2, 864, CELLS)?;
    work(&mut flash, &mut cells, &mut scratch, banks)?;
    begin(&mut flash, 8, 2, 864, CELLS)?;
    work(&mut flash, &mut cells, &mut scratch, banks)?;
    for k in 0..puts {
        put(&mut flash, &cells, k as u16 % 14, &[k; 32])?;
        work(&mut flash, &mut cells, &mut scratch, banks)?;
    }
    Ok(())
}

/// Makes a store, starts it so often, and puts into its first cell: what that cost, without the making.
fn cost(row: &CostRow) -> Result<Done, FlashRefusal> {
    let mut banks = banks_of(0x5a);
    let mut flash = some_numbers();
    let mut cells = [[1; 32]; CELLS];
    let mut scratch = [[0; 32]; CELLS];
    take(&mut flash, 8, 2, 864, CELLS)?;
    work(&mut flash, &mut cells, &mut scratch, &mut banks)?;
    banks.done = banks_of(0).done;
    banks.tells_blank = row.tells_blank;
    for _ in 0..row.starts {
        begin(&mut flash, 8, 2, 864, CELLS)?;
        work(&mut flash, &mut cells, &mut scratch, &mut banks)?;
    }
    for k in 0..row.puts {
        put(&mut flash, &cells, 0, &[(k % 256) as u8; 32])?;
        work(&mut flash, &mut cells, &mut scratch, &mut banks)?;
    }
    Ok(banks.done)
}

/// The store as an earlier version made it: its heads tell nothing.
fn forget(banks: &mut Banks) {
    for at in 0..2 * LINES {
        if let Some(FlashLine::Head(generation)) = read_line(&banks.lines[at].bytes) {
            let head = FlashLine::Head(generation);
            line_bytes(&UNTOLD, &head, &mut banks.lines[at].bytes);
        }
    }
}

/// Whether each head tells these sizes.
fn tell(banks: &Banks, sizes: &FlashSizes) -> bool {
    banks.lines.iter().all(|line| match told_sizes(&line.bytes) {
        Some(told) => told == *sizes,
        None => true,
    })
}

/// Starts a store with these sizes.
fn started_with(
    banks: &mut Banks,
    unit: u16,
    count: u8,
    bank_size: u32,
    cells: usize,
) -> Result<(), FlashRefusal> {
    let mut flash = some_numbers();
    let mut room = [[0; 32]; 15];
    let mut scratch = [[0; 32]; 15];
    begin(&mut flash, unit, count, bank_size, cells)?;
    if cells > 15 {
        return Err(FlashRefusal::BadLength);
    }
    work(&mut flash, &mut room[..cells], &mut scratch[..cells], banks)
}

/// What an outcome that is reported with `scratch` of another length is answered.
fn reported_with_other_scratch() -> Result<(), FlashRefusal> {
    let mut flash = some_numbers();
    let mut cells = [[0; 32]; CELLS];
    let mut scratch = [[0; 32]; 13];
    begin(&mut flash, 8, 2, 864, CELLS)?;
    did(&mut flash, &mut cells, &mut scratch, 2, &[0; 128])
}

/// What an outcome that is reported with one cell less than the store was begun with is answered.
fn reported_with_fewer_cells() -> Result<(), FlashRefusal> {
    let mut flash = some_numbers();
    let mut cells = [[0; 32]; 13];
    let mut scratch = [[0; 32]; 13];
    begin(&mut flash, 8, 2, 864, CELLS)?;
    did(&mut flash, &mut cells, &mut scratch, 2, &[0; 128])
}

#[test]
fn a_part_that_no_store_fits_is_refused(rt: HostRuntime) -> Result<(), Fail> {
    for (unit, banks, bank_size, cells, fits) in PARTS {
        let mut flash = some_numbers();
        let answer = begin(&mut flash, unit, banks, bank_size, cells);
        assert_eq!(rt; answer.is_ok(), fits);
        assert_eq!(rt; take(&mut flash, unit, banks, bank_size, cells), answer);
    }
    Ok(())
}

#[test]
fn puts_through_some_changes_of_banks_are_there_at_the_next_start(
    rt: HostRuntime,
) -> Result<(), Fail> {
    let mut banks = banks_of(0x5a);
    assert_eq!(rt; made(&mut banks, 12), Ok(()));
    let mut cells = [[1; 32]; CELLS];
    for k in 0..12u8 {
        cells[k as usize] = [k; 32];
    }
    assert_eq!(rt; started(&mut banks), Ok(cells));
    Ok(())
}

#[test]
fn starts_and_puts_cost_so_many_operations(rt: HostRuntime) -> Result<(), Fail> {
    for row in &COSTS {
        assert_eq!(rt; cost(row), Ok(row.done));
    }
    Ok(())
}

#[test]
fn bytes_that_are_no_lines_are_no_store(rt: HostRuntime) -> Result<(), Fail> {
    for byte in [0, 0x5a, 0x96, 0xff] {
        let mut banks = banks_of(byte);
        assert_eq!(rt; started(&mut banks), Err(FlashRefusal::NoStore));
    }
    Ok(())
}

#[test]
fn scratch_of_another_length_is_refused(rt: HostRuntime) -> Result<(), Fail> {
    assert_eq!(rt; reported_with_other_scratch(), Err(FlashRefusal::BadLength));
    Ok(())
}

#[test]
fn another_number_of_cells_is_refused(rt: HostRuntime) -> Result<(), Fail> {
    assert_eq!(rt; reported_with_fewer_cells(), Err(FlashRefusal::BadValue));
    Ok(())
}

#[test]
fn a_store_of_other_sizes_is_no_store(rt: HostRuntime) -> Result<(), Fail> {
    let own = FlashSizes {
        unit: 8,
        banks: 2,
        bank_size: 864,
        cells: 14,
    };
    for (unit, count, bank_size, cells, tells, found) in STARTS {
        let mut banks = banks_of(0x5a);
        assert_eq!(rt; made(&mut banks, 5), Ok(()));
        if !tells {
            forget(&mut banks);
        }
        let told = if tells { own } else { UNTOLD };
        assert!(rt; tell(&banks, &told));
        let answer = started_with(&mut banks, unit, count, bank_size, cells);
        assert_eq!(rt;
            answer,
            if found {
                Ok(())
            } else {
                Err(FlashRefusal::NoStore)
            }
        );
        assert!(rt; tell(&banks, &told));
    }
    Ok(())
}
