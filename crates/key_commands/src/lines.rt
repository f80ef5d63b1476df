//! The lines that loading answers, and their texts.
ghost use Rattle.std.specs.Prelude.{◌≡◌, ◌++◌, ℕ, IfOk, OnOk, string_bytes};
ghost use Rattle.std.specs.List.{flat_map};
ghost use Rattle.hex.specs.Hex.{encode_lower};
ghost use Rattle.key_commands.specs.declared.lines.LoadLine.TheVariants.{Loaded};
ghost use Rattle.key_commands.specs.LoadTexts.{load_text, is_failed};

use basics::Block;
use bus_port::Memory;
use hex::encode;
use key_slots::Erc;
use memory_update::Reply;
use run_driver::{EndingText, LineText};
use std::alloc::{AllocError, Global};

/// What came of a request.
#[derive(Debug, Drop)]
pub enum LoadLine {
    /// The key is in its slot and in the store; the reply confirms it.
    Loaded { reply: Reply },
    /// The first refusal that applies.
    Refused(Erc),
    /// The disk failed as the slot was put.
    Failed,
}

/// How the lines are printed: `loaded M4 M5`, `refused ERC` or `refused MEMORY_FAILURE`, after which there is none.
pub struct LoadText;

impl LineText<LoadLine> for LoadText {
    ghost text = { λ _ line. load_text line };

    fn append(
        alloc: Global,
        _number: u32,
        line: &LoadLine,
        out: &mut Vec<u8>,
    ) -> Result<(), Memory> {
        let text = match text_of(alloc, line) {
            Ok(text) => text,
            Err(AllocError) => return Err(Memory),
        };
        match out.extend_from_slice(text.as_bytes()) {
            Ok(()) => Ok(()),
            Err(AllocError) => Err(Memory),
        }
    }
}

impl EndingText<LoadLine> for LoadText {
    ghost ends = { is_failed };

    fn is_last(line: &LoadLine) -> bool {
        matches!(line, LoadLine::Failed)
    }
}

/// The text of a line, with its line feed.
fn text_of(alloc: Global, line: &LoadLine) -> Result<String, AllocError>
    ensures { IfOk result (λ text. string_bytes text ≡ load_text line.now) }
{
    match line {
        LoadLine::Loaded { reply } => loaded_text(alloc, reply),
        LoadLine::Refused(refusal) => {
            let name = refusal.name();
            format!(in alloc; "refused {name}\n")
        }
        LoadLine::Failed => String::from_str(alloc, "refused MEMORY_FAILURE\n"),
    }
}

/// The text of a key that is loaded.
fn loaded_text(alloc: Global, reply: &Reply) -> Result<String, AllocError>
    ensures { IfOk result (λ text. string_bytes text ≡ load_text (Loaded reply.now)) }
{
    let m4 = two_text(alloc, &reply.m4)?;
    let m5 = encode(alloc, reply.m5.as_slice())?;
    format!(in alloc; "loaded {m4} {m5}\n")
}

/// The digits of two blocks, one after the other.
fn two_text(alloc: Global, blocks: &[Block; 2]) -> Result<String, AllocError>
    ensures { IfOk result (λ text. string_bytes text ≡ flat_map encode_lower blocks.now) }
{
    let [first, second] = *blocks;
    let front = encode(alloc, first.as_slice())?;
    let back = encode(alloc, second.as_slice())?;
    format!(in alloc; "{front}{back}")
}
