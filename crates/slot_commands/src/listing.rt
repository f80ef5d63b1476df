//! The list of what a store holds.
ghost use Rattle.std.specs.Prelude.{◌≡◌, ◌<◌, ◌≤◌, ◌⊎◌, ◌^◌, ◌++◌, [], length, slice_index_or, IfOk, IfErr, OnOk};
ghost use Rattle.program_edge.specs.Rows.{memory_row};
ghost use Rattle.any_cells.specs.Either.{any_state};
ghost use Rattle.text_lines.specs.Written.{written};
ghost use Rattle.slot_commands.specs.Cells.{AddsCell};
ghost use Rattle.slot_commands.specs.StoreWords.{kind_word, version_number, store_line_words};
ghost use Rattle.slot_commands.specs.Stores.{ListsStore, IsUnreadable, ListsCells, head_words};

use crate::cells::{meaning_of, push_meaning};
use crate::reading::read_store;
use any_cells::{AnyCells, CountingStore};
use cell_store::{Cells, Kind, Version};
use cut_disk::MemDisk;
use program_edge::Refusal;
use std::alloc::{AllocError, Global};
use text_lines::pushing::{end_line, push_number, push_word};

/// The text of the list of what the store in these bytes holds: its kind, version and number of cells, and a line a
/// cell. Errors: 9 and the first cause why it can't be read, or 7 if memory is out.
pub fn list_bytes(alloc: Global, bytes: &[u8]) -> Result<Vec<u8>, Refusal>
    requires { length bytes.now ≤ 2 ^ 24 }
    ensures listed { IfOk result (λ text. ListsStore bytes.now text.items) }
    ensures refused { IfErr result (λ row. IsUnreadable bytes.now row ⊎ (row ≡ memory_row)) }
{
    let (found, store) = read_store(alloc, bytes)?;
    match list_text(alloc, found, &store) {
        Ok(text) => Ok(text),
        Err(AllocError) => Err(Refusal::no_memory()),
    }
}

fn list_text(
    alloc: Global,
    found: CountingStore,
    store: &AnyCells<MemDisk>,
) -> Result<Vec<u8>, AllocError>
    requires { length (any_state store.now).cells ≡ found.cells }
    ensures { IfOk result (λ text. ListsCells (head_words found) (any_state store.now).cells text.items) }
{
    let mut text = Vec::new(alloc);
    push_head(&mut text, found)?;
    for place in 0..found.cells {
        push_cell(&mut text, store, place)?;
    }
    Ok(text)
}

/// Adds the line of a cell.
fn push_cell(text: &mut Vec<u8>, store: &AnyCells<MemDisk>, place: u16) -> Result<(), AllocError>
    requires { place < length (any_state store.now).cells }
    ensures { OnOk result (AddsCell place (slice_index_or (any_state store.now).cells place [])
        text.old.items text.new.items) }
{
    let mut cell = [0; 32];
    store.get(place, &mut cell);
    push_meaning(text, place, &meaning_of(place, &cell))
}

/// Adds the first line: `store`, kind, version and number of cells.
pub fn push_head(text: &mut Vec<u8>, found: CountingStore) -> Result<(), AllocError>
    ensures { OnOk result (text.new.items ≡ text.old.items ++ written (head_words found)) }
{
    push_store_line(text, b"store", found.kind, found.version, found.cells)
}

/// Adds a line on a store: a name, its kind, version and number of cells.
pub fn push_store_line(
    text: &mut Vec<u8>,
    name: &[u8],
    kind: Kind,
    version: Version,
    cells: u16,
) -> Result<(), AllocError>
    ensures { OnOk result (text.new.items ≡ text.old.items ++ written (store_line_words name.now kind version cells)) }
{
    text.extend_from_slice(name)?;
    push_word(text, kind_name(kind))?;
    push_number(text, version_of(version))?;
    push_number(text, u32::from(cells))?;
    end_line(text)
}

fn kind_name(kind: Kind) -> &'static [u8]
    ensures { result.now ≡ kind_word kind }
{
    match kind {
        Kind::Twin => b"twin",
        Kind::Log => b"log",
    }
}

fn version_of(version: Version) -> u32
    ensures { result ≡ version_number version }
{
    match version {
        Version::One => 1,
        Version::Two => 2,
    }
}
