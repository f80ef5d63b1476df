//! An image, and its cells.
ghost use Rattle.std.specs.Prelude.{◌≡◌, ◌<◌, ℕ, length, IsSome};
ghost use Rattle.cell_store.specs.declared.kinds.Version.TheVariants.{One};
ghost use Rattle.cell_store.specs.Layout.{twin_layout};
ghost use Rattle.cell_store.specs.Twin.{twin_size, cell_at};
ghost use Rattle.cell_store.specs.Store.{FewCells, HasHeader};
ghost use Rattle.store_plan.specs.Leaving.{IsImageOf};

use store_plan::{cell_in, make, make_cell};

/// Makes the image of a store of bytes that holds these cells.
pub fn image_of(cells: &[[u8; 32]], image: &mut [u8])
    requires few { FewCells (length cells.now) }
    requires size { length image.old ≡ twin_size (length cells.now) }
    ensures { IsImageOf image.new cells.now }
{
    let count = cells.len() as u16;
    make(image, count);
    for cell in 0..count {
        make_cell(image, cell, &cells[cell as usize]);
    }
}

/// Reads the cells of an image, of which each has a copy that counts.
pub fn read_cells(image: &[u8], cells: &mut [[u8; 32]])
    requires few { FewCells (length cells.old) }
    requires size { length image.now ≡ twin_size (length cells.old) }
    requires head { HasHeader (twin_layout One) (length cells.old) image.now }
    requires whole { (i : ℕ) → i < length cells.old → IsSome (cell_at image.now i) }
    ensures { IsImageOf image.now cells.new }
{
    let count = cells.len() as u16;
    for cell in 0..count {
        if let Ok(bytes) = cell_in(image, cell) {
            cells[cell as usize] = bytes;
        }
    }
}
