//! What a start makes of what it read: worked rows of two banks of four places, and one cell.
ghost use Rattle.std.specs.Prelude.{◌≡◌, length};

use seal_logs::{
    Latest, LogSizes, PlaceRead, StartEnd, find_latest, find_start, lacks_line, next_free,
};
use seal_parts::{DeedBody, LineBody, LogDeed, SealLine};
use std::process::Abort;
use std::test::Fail;

const SIZES: LogSizes = LogSizes {
    banks: 2,
    places: 4,
    cells: 1,
};

const EMPTY: PlaceRead = PlaceRead {
    line: None,
    is_begun: false,
    is_confirmed: false,
    is_closed: false,
};

const GUARDED: PlaceRead = PlaceRead {
    line: None,
    is_begun: true,
    is_confirmed: false,
    is_closed: false,
};

const LOST: PlaceRead = PlaceRead {
    line: None,
    is_begun: true,
    is_confirmed: true,
    is_closed: true,
};

const COPY: PlaceRead = PlaceRead {
    line: Some(SealLine {
        generation: 1,
        body: LineBody::Copies(0, [1; 32]),
    }),
    is_begun: false,
    is_confirmed: false,
    is_closed: false,
};

const OPENED: PlaceRead = PlaceRead {
    line: Some(SealLine {
        generation: 1,
        body: LineBody::Does(LogDeed {
            prev: None,
            body: DeedBody::Opens,
        }),
    }),
    is_begun: true,
    is_confirmed: true,
    is_closed: true,
};

/// A put whose program was cut.
const PUT_CUT: PlaceRead = PlaceRead {
    line: Some(SealLine {
        generation: 1,
        body: LineBody::Does(LogDeed {
            prev: Some(1),
            body: DeedBody::Puts(0, [2; 32]),
        }),
    }),
    is_begun: true,
    is_confirmed: false,
    is_closed: false,
};

const PUT: PlaceRead = PlaceRead {
    line: Some(SealLine {
        generation: 1,
        body: LineBody::Does(LogDeed {
            prev: Some(1),
            body: DeedBody::Puts(0, [2; 32]),
        }),
    }),
    is_begun: true,
    is_confirmed: true,
    is_closed: true,
};

const NEXT_PUT: PlaceRead = PlaceRead {
    line: Some(SealLine {
        generation: 1,
        body: LineBody::Does(LogDeed {
            prev: Some(2),
            body: DeedBody::Puts(0, [3; 32]),
        }),
    }),
    is_begun: true,
    is_confirmed: true,
    is_closed: true,
};

/// The move to bank 1, under generation 2.
const MOVED: PlaceRead = PlaceRead {
    line: Some(SealLine {
        generation: 1,
        body: LineBody::Does(LogDeed {
            prev: Some(1),
            body: DeedBody::Moves(1, 2),
        }),
    }),
    is_begun: true,
    is_confirmed: true,
    is_closed: true,
};

const NEXT_COPY: PlaceRead = PlaceRead {
    line: Some(SealLine {
        generation: 2,
        body: LineBody::Copies(0, [9; 32]),
    }),
    is_begun: false,
    is_confirmed: false,
    is_closed: false,
};

/// How a start ends: with this cell, after a clean end or not.
#[derive(Clone, Copy, Debug, PartialEq, Eq)]
enum RowEnd {
    NoStore,
    Damaged,
    Exhausted,
    Clean(u8),
    Restated(u8),
}

/// What a start has read, the place of the latest deed, the place after the last one of bank 0 that may have been begun,
/// whether a line of bank 0 was lost, and how the start ends.
struct LogRow {
    reads: [PlaceRead; 8],
    latest: Option<u32>,
    next: u32,
    is_lost: bool,
    end: RowEnd,
}

const ROWS: [LogRow; 10] = [
    LogRow {
        reads: [COPY, EMPTY, EMPTY, EMPTY, EMPTY, EMPTY, EMPTY, EMPTY],
        latest: None,
        next: 1,
        is_lost: false,
        end: RowEnd::NoStore,
    },
    LogRow {
        reads: [COPY, OPENED, GUARDED, EMPTY, EMPTY, EMPTY, EMPTY, EMPTY],
        latest: Some(1),
        next: 3,
        is_lost: false,
        end: RowEnd::Restated(1),
    },
    LogRow {
        reads: [COPY, OPENED, PUT_CUT, EMPTY, EMPTY, EMPTY, EMPTY, EMPTY],
        latest: Some(2),
        next: 3,
        is_lost: false,
        end: RowEnd::Restated(2),
    },
    LogRow {
        reads: [COPY, OPENED, LOST, EMPTY, EMPTY, EMPTY, EMPTY, EMPTY],
        latest: Some(1),
        next: 3,
        is_lost: true,
        end: RowEnd::Damaged,
    },
    LogRow {
        reads: [COPY, OPENED, PUT, NEXT_PUT, EMPTY, EMPTY, EMPTY, EMPTY],
        latest: Some(3),
        next: 4,
        is_lost: false,
        end: RowEnd::Clean(3),
    },
    LogRow {
        reads: [COPY, OPENED, LOST, NEXT_PUT, EMPTY, EMPTY, EMPTY, EMPTY],
        latest: Some(3),
        next: 4,
        is_lost: true,
        end: RowEnd::Damaged,
    },
    LogRow {
        reads: [COPY, OPENED, EMPTY, NEXT_PUT, EMPTY, EMPTY, EMPTY, EMPTY],
        latest: Some(3),
        next: 4,
        is_lost: false,
        end: RowEnd::Damaged,
    },
    LogRow {
        reads: [COPY, OPENED, PUT, GUARDED, EMPTY, EMPTY, EMPTY, EMPTY],
        latest: Some(2),
        next: 4,
        is_lost: false,
        end: RowEnd::Exhausted,
    },
    LogRow {
        reads: [COPY, OPENED, MOVED, EMPTY, NEXT_COPY, EMPTY, EMPTY, EMPTY],
        latest: Some(2),
        next: 3,
        is_lost: false,
        end: RowEnd::Clean(9),
    },
    LogRow {
        reads: [COPY, OPENED, MOVED, EMPTY, EMPTY, EMPTY, EMPTY, EMPTY],
        latest: Some(2),
        next: 3,
        is_lost: false,
        end: RowEnd::Damaged,
    },
];

/// The place of the latest deed.
fn latest_place(reads: &[PlaceRead; 8]) -> Option<u32> {
    match find_latest(reads, SIZES) {
        Latest::One(found) => Some(found.place),
        Latest::NoDeed => None,
        Latest::Tie(_) => None,
    }
}

/// How a start ends.
fn end_of(reads: &[PlaceRead; 8]) -> RowEnd {
    let mut cells = [[0; 32]; 1];
    let mut chain = [0; 4];
    match find_start(reads, SIZES, &mut cells, &mut chain) {
        StartEnd::NoStore => RowEnd::NoStore,
        StartEnd::Damaged => RowEnd::Damaged,
        StartEnd::Exhausted => RowEnd::Exhausted,
        StartEnd::Found(found) => {
            if found.is_clean {
                return RowEnd::Clean(cells[0][0]);
            }
            RowEnd::Restated(cells[0][0])
        }
    }
}

#[test]
fn a_start_makes_of_what_it_read_what_the_rows_say(rt: HostRuntime) -> Result<(), Fail> {
    for row in &ROWS {
        assert_eq!(rt; latest_place(&row.reads), row.latest);
        assert_eq!(rt; next_free(&row.reads, SIZES, 0, 1), row.next);
        assert_eq!(rt; lacks_line(&row.reads, SIZES, 0, 1), row.is_lost);
        assert_eq!(rt; end_of(&row.reads), row.end);
    }
    Ok(())
}
