// The bytes of a whole store of version 1: made without a disk, and checked.
ghost use Rattle.std.specs.Prelude.{◌≡◌, ◌≢◌, ◌+◌, ◌<◌, ◌≤◌, ◌↔◌, ℕ, List, length, replicate, Some, None, IsSome, IsTrue, IsOk, IsErrOf, MatchOption};
ghost use Rattle.cut_disk.specs.Images.{splice};
ghost use Rattle.cell_store.specs.declared.kinds.Version.TheVariants.{One};
ghost use Rattle.cell_store.specs.Layout.{twin_layout, header};
ghost use Rattle.cell_store.specs.Twin.{twin_size, first_at, fresh_cell, cell_at};
ghost use Rattle.cell_store.specs.Store.{FewCells, HasHeader, fresh_store};

use crate::planning::cell_held;
use cell_store::{Kind, Layout, Version, fresh_cell, header, is_header, pair_place};

/// Why an image isn't that of a store.
#[derive(Clone, Copy, Debug, PartialEq, Eq)]
pub enum ImageFault {
    /// It doesn't begin with the header of a twin store of version 1 with so many cells.
    NoStore,
    /// Some cell has no copy that counts.
    Damaged,
}

pub(crate) const LAYOUT: Layout = Layout {
    kind: Kind::Twin,
    version: Version::One,
};

/// The number of cells of a store, 1 to 1024, that has just so many bytes.
pub fn count_of(size: usize) -> Option<u16>
    ensures { MatchOption result ((n : ℕ) → FewCells n → size ≢ twin_size n) (λ n. FewCells n × (size ≡ twin_size n)) }
{
    if size < 100 || size > 69_664 {
        return None;
    }
    let count = (size - 32) / 68;
    if 32 + 68 * count == size {
        Some(count as u16)
    } else {
        None
    }
}

/// Makes the image of a fresh store of so many cells, each of 32 zero bytes.
pub fn make(image: &mut [u8], cells: u16)
    requires few { FewCells cells }
    requires size { length image.old ≡ twin_size cells }
    ensures { image.new ≡ fresh_store (twin_layout One) (replicate cells (replicate 32 0)) }
{
    make_head(image, cells);
    for cell in 0..cells {
        make_cell(image, cell, &[0; 32]);
    }
}

fn make_head(image: &mut [u8], cells: u16)
    requires { 32 ≤ length image.old }
    ensures { image.new ≡ splice 0 (header (twin_layout One) cells) image.old }
{
    image[..32].copy_from_slice(&header(LAYOUT, cells));
}

/// Makes a cell as it is in a fresh store: both of its copies hold these bytes.
pub fn make_cell(image: &mut [u8], cell: u16, payload: &[u8; 32])
    requires { twin_size (cell + 1) ≤ length image.old }
    ensures made { image.new ≡ splice (first_at cell) (fresh_cell payload.now) image.old }
    ensures cell { cell_at image.new cell ≡ Some payload.now }
    ensures others { (other : ℕ) → other ≢ cell → cell_at image.new other ≡ cell_at image.old other }
{
    let at = pair_place(cell) as usize;
    image[at..at + 68].copy_from_slice(&fresh_cell(payload));
}

/// Whether an image is that of a store of so many cells, each with a copy that counts.
pub fn check(image: &[u8], cells: u16) -> Result<(), ImageFault>
    requires { length image.now ≡ twin_size cells }
    ensures no_store { IsErrOf result ImageFault.NoStore ↔ ¬ HasHeader (twin_layout One) cells image.now }
    ensures damaged { IsErrOf result ImageFault.Damaged ↔ (HasHeader (twin_layout One) cells image.now
        × ((i : ℕ) × ((i < cells) × (cell_at image.now i ≡ None)))) }
    ensures head { IsOk result → HasHeader (twin_layout One) cells image.now }
    ensures whole { IsOk result → (i : ℕ) → i < cells → IsSome (cell_at image.now i) }
{
    if !has_head(image, cells) {
        return Err(ImageFault::NoStore);
    }
    for cell in 0..cells {
        if cell_held(image, cell).is_err() {
            return Err(ImageFault::Damaged);
        }
    }
    Ok(())
}

/// Whether an image begins with the header of a store of so many cells.
pub fn has_head(image: &[u8], cells: u16) -> bool
    requires { 32 ≤ length image.now }
    ensures { IsTrue result ↔ HasHeader (twin_layout One) cells image.now }
{
    let mut head = [0; 32];
    head.copy_from_slice(&image[..32]);
    is_header(&head, LAYOUT, cells)
}
