//! The rows of stores that aren't made or grown.
ghost use Rattle.std.specs.Prelude.{◌≡◌, ◌⊎◌, IfOk, IfErr, string_bytes};
ghost use Rattle.program_edge.specs.Rows.{row_of, memory_row};
ghost use Rattle.bus_store_commands.specs.StandingRows.{standing_row};

use disk_looks::standing_text;
use program_edge::Refusal;
use std::alloc::{AllocError, Global};
use store_growing::StoreHeader;

/// The row of 9 that names the store whose header stands, or out of memory for it.
pub(crate) fn standing_refusal(alloc: Global, there: StoreHeader) -> Refusal
    ensures { (result ≡ standing_row there) ⊎ (result ≡ memory_row) }
{
    made(standing_text(alloc, there))
}

/// The row of 9 with this text, or out of memory for the text.
pub(crate) fn made(text: Result<String, AllocError>) -> Refusal
    ensures ok { IfOk text (λ text. result ≡ row_of 9 (string_bytes text)) }
    ensures err { IfErr text (λ _. result ≡ memory_row) }
{
    match text {
        Ok(text) => Refusal::made(9, text),
        Err(AllocError) => Refusal::no_memory(),
    }
}
