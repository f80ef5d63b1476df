// Stores of cells, as the layers above see them.
ghost use Rattle.std.specs.Prelude.{◌≡◌, ◌+◌, ◌<◌, ◌≤◌, [], length, slice_index_or, false, OnOk, OnErr, IfErr};
ghost use Rattle.cut_disk.specs.Armed.{ArmsStop, ArmsFail};
ghost use Rattle.cell_store.specs.Reading.{CutAndRead};
ghost use Rattle.cell_store.specs.Cells.{CellsState, Puts, FailsPut, Rereads, NotReread};

use crate::faults::{PutFailed, Reread};
use cut_disk::{Disk, Torn};

/// A list of cells of 32 bytes on a disk. A store is settled if it isn't broken, and its disk tells bytes that stand
/// for the list, none of them loose.
pub trait Cells {
    type Medium: Disk;

    /// What the store means.
    ghost state: { Self → CellsState };

    /// The number of cells.
    fn count(&self) -> u16
        ensures { result ≡ length (state self.now).cells };

    /// Copies a cell, also of a store that is broken.
    fn get(&self, cell: u16, out: &mut [u8; 32])
        requires { cell < length (state self.now).cells }
        ensures { out.new ≡ slice_index_or (state self.now).cells cell [] };

    /// Replaces a cell. If that fails, the store is broken until its power is cut. Of a settled store the cell on the
    /// disk is then the old one or the new one, whatever a power cut leaves. If no byte was loose, the bytes before and
    /// after the store stay as they are.
    fn put(&mut self, cell: u16, bytes: &[u8; 32]) -> Result<(), PutFailed>
        requires cell { cell < length (state self.old).cells }
        requires whole { (state self.old).broken ≡ false }
        ensures put { OnOk result (Puts cell bytes.now (state self.old) (state self.new)) }
        ensures failed { OnErr result (FailsPut cell bytes.now (state self.old) (state self.new)) };

    /// Gives the disk back. Nothing is written.
    fn release(self) -> Self::Medium
        ensures { Self.Medium.state result ≡ (state self).disk };
}

/// A store on a disk whose power can be cut.
pub trait CutCells: Cells {
    /// Cuts the power of the disk, and reads everything anew from it, the header first, into room that is there
    /// already. It ends a stop and what `stop_at` armed, whatever it answers. If it fails, the store is broken and its
    /// list is as before. Errors, in the order of reading: `DiskFailed`, `NotFormatted`, and `Damaged` with the first
    /// damage; no read comes after the one that found it. Nothing is written: each entry that a told past got after the
    /// cut's has the state that the cut left.
    fn power_cut(&mut self, torn: Torn) -> Result<(), Reread>
        ensures layout { (Self.state self.new).layout ≡ (Self.state self.old).layout }
        ensures count { length (Self.state self.new).cells ≡ length (Self.state self.old).cells }
        ensures disk { CutAndRead torn (68 + length (Self.state self.old).cells)
            (Self.state self.old).disk (Self.state self.new).disk }
        ensures reread { OnOk result (Rereads (Self.state self.old) (Self.state self.new)) }
        ensures refused { IfErr result (NotReread torn (Self.state self.old) (Self.state self.new)) };

    /// Passes on to the disk: from the call of this number on, each call of the disk fails until
    /// the power is cut.
    fn stop_at(&mut self, calls: u64)
        requires { 1 ≤ calls }
        ensures rest { Self.state self.new ≡ record (Self.state self.old) { disk = (Self.state self.new).disk } }
        ensures arms { ArmsStop calls (Self.state self.old).disk (Self.state self.new).disk };

    /// Passes on to the disk: the call of this number fails.
    fn fail_at(&mut self, calls: u64)
        requires { 1 ≤ calls }
        ensures rest { Self.state self.new ≡ record (Self.state self.old) { disk = (Self.state self.new).disk } }
        ensures arms { ArmsFail calls (Self.state self.old).disk (Self.state self.new).disk };
}
