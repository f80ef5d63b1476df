// What a store answers if it can't do what is asked.
ghost use Rattle.std.specs.Prelude.{◌≡◌};
ghost use Rattle.cell_store.specs.Faults.{store_fault};

use cut_disk::DiskFailed;

/// Why a store isn't formatted, attached or probed.
#[derive(Clone, Copy, Debug, PartialEq, Eq, Drop)]
pub enum StoreFault {
    /// A call of the disk failed.
    DiskFailed,
    /// The 32 bytes at the base aren't the header of a store of this layout and number of cells.
    NotFormatted,
    /// The number of what is damaged first, in the order of reading.
    Damaged(u16),
    /// The disk has fewer bytes than are needed.
    TooSmall,
    /// There was no memory for the cells.
    Memory,
}

/// Why a store couldn't be read anew after a power cut.
#[derive(Clone, Copy, Debug, PartialEq, Eq, Drop)]
pub enum Reread {
    /// A call of the disk failed.
    DiskFailed,
    /// The 32 bytes at the base aren't the header of a store of this layout and number of cells.
    NotFormatted,
    /// The number of what is damaged first, in the order of reading.
    Damaged(u16),
}

/// A disk that is handed back, and why.
#[derive(Debug, Drop)]
pub struct Refused<D> {
    pub disk: D,
    pub fault: StoreFault,
}

/// A call of the disk failed within a put. The store is broken until its power is cut.
#[derive(Clone, Copy, Debug, PartialEq, Eq, Drop)]
pub struct PutFailed;

impl From<DiskFailed> for Reread {
    ghost use Rattle.std.specs.Prelude.{◌≡◌};
    ghost use Rattle.cell_store.specs.declared.faults.Reread.TheVariants.{DiskFailed};

    ghost from_gives = { λ _ e. e ≡ DiskFailed };

    fn from(_: DiskFailed) -> Self {
        Reread::DiskFailed
    }
}

impl From<Reread> for StoreFault {
    ghost from_gives = { λ r e. e ≡ store_fault r };

    fn from(reread: Reread) -> Self {
        match reread {
            Reread::DiskFailed => StoreFault::DiskFailed,
            Reread::NotFormatted => StoreFault::NotFormatted,
            Reread::Damaged(cell) => StoreFault::Damaged(cell),
        }
    }
}
