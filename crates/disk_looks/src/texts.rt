//! The row that names a store.
ghost use Rattle.std.specs.Prelude.{◌≡◌, string_bytes, IfOk};
ghost use Rattle.program_edge.specs.Rows.{row_of};
ghost use Rattle.disk_looks.specs.Texts.{standing_text};

use cell_store::{Kind, Version};
use program_edge::Refusal;
use std::alloc::{AllocError, Global};
use store_growing::StoreHeader;

/// The row with this status that names the store whose header stands, where another is wanted:
/// `store: KIND VERSION CELLS`, with its line feed. It takes no memory.
pub fn standing_refusal(status: u8, there: StoreHeader) -> Refusal
    ensures { result ≡ row_of status (standing_text there) }
{
    let cells = u32::from(there.cells);
    match (there.layout.kind, there.layout.version) {
        (Kind::Twin, Version::One) => Refusal::numbered(status, "store: twin 1 ", cells, "\n"),
        (Kind::Twin, Version::Two) => Refusal::numbered(status, "store: twin 2 ", cells, "\n"),
        (Kind::Log, Version::One) => Refusal::numbered(status, "store: log 1 ", cells, "\n"),
        (Kind::Log, Version::Two) => Refusal::numbered(status, "store: log 2 ", cells, "\n"),
    }
}

/// The text of that row, in memory of its own.
pub fn standing_text(alloc: Global, there: StoreHeader) -> Result<String, AllocError>
    ensures { IfOk result (λ text. string_bytes text ≡ standing_text there) }
{
    String::from_str(alloc, standing_refusal(9, there).text())
}
