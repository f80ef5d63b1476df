//! Why a subcommand isn't done, and what is printed then.
ghost use Rattle.std.specs.Prelude.{◌≡◌, ◌⊎◌};
ghost use Rattle.program_edge.specs.Rows.{row_of, memory_row};
ghost use Rattle.key_commands.specs.Texts.{key_usage, value_text};

use crate::tasks::BadValue;
use crate::texts::value_text;
use program_edge::Refusal;
use std::alloc::{AllocError, Global};

const USAGE: &str = "usage: make, read, confirm, bootmac, load\n";

/// The refusal of arguments that name no subcommand, or that `clap` refuses.
pub fn usage_refusal() -> Refusal
    ensures { result ≡ row_of 2 key_usage }
{
    Refusal::fixed(2, USAGE)
}

/// The refusal of the first value that isn't of its form, with the text that names it, or out of memory for the text.
pub fn value_refusal(alloc: Global, bad: BadValue) -> Refusal
    ensures { (result ≡ row_of 3 (value_text bad.number)) ⊎ (result ≡ memory_row) }
{
    match value_text(alloc, bad.number) {
        Ok(text) => Refusal::made(3, text),
        Err(AllocError) => Refusal::no_memory(),
    }
}
