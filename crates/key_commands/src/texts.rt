//! The printed texts, in lower-case digits, each line with its line feed.
ghost use Rattle.std.specs.Prelude.{◌≡◌, [], IfOk, string_bytes};
ghost use Rattle.std.specs.List.{flat_map};
ghost use Rattle.hex.specs.Hex.{encode_lower};
ghost use Rattle.key_commands.specs.Texts.{mac_text as mac_line, request_text as request_lines};
ghost use Rattle.key_commands.specs.Texts.{update_text as update_lines, target_rows, content_rows};
ghost use Rattle.key_commands.specs.Texts.{value_text as value_line};

use basics::Block;
use hex::encode;
use memory_update::{Request, Update};
use secoc_words::texts::flags_text;
use std::alloc::{AllocError, Global};

/// The line that names a value that isn't of its form.
pub fn value_text(alloc: Global, number: u8) -> Result<String, AllocError>
    ensures { IfOk result (λ text. string_bytes text ≡ value_line number) }
{
    format!(in alloc; "value {number}\n")
}

/// M1, M2 and M3, a line each.
pub fn request_text(alloc: Global, request: &Request) -> Result<String, AllocError>
    ensures { IfOk result (λ text. string_bytes text ≡ request_lines request.now) }
{
    let m1 = encode(alloc, request.m1.as_slice())?;
    let m2 = two_text(alloc, &request.m2)?;
    let m3 = encode(alloc, request.m3.as_slice())?;
    format!(in alloc; "{m1}\n{m2}\n{m3}\n")
}

/// A MAC, on a line.
pub fn mac_text(alloc: Global, mac: &Block) -> Result<String, AllocError>
    ensures { IfOk result (λ text. string_bytes text ≡ mac_line mac.now) }
{
    let digits = encode(alloc, mac.as_slice())?;
    format!(in alloc; "{digits}\n")
}

/// The digits of two blocks, one after the other.
fn two_text(alloc: Global, blocks: &[Block; 2]) -> Result<String, AllocError>
    ensures { IfOk result (λ text. string_bytes text ≡ flat_map encode_lower blocks.now) }
{
    let [first, second] = *blocks;
    let front = encode(alloc, first.as_slice())?;
    let back = encode(alloc, second.as_slice())?;
    format!(in alloc; "{front}{back}")
}

/// The six values of an update, a line each.
#[tactic(auto, using(crate::proofs::Rows::both_parts))]
pub fn update_text(alloc: Global, update: &Update) -> Result<String, AllocError>
    ensures { IfOk result (λ text. string_bytes text ≡ update_lines update.now) }
{
    let target = target_text(alloc, update)?;
    let content = content_text(alloc, update)?;
    format!(in alloc; "{target}{content}")
}

/// The lines of whom the update is for.
fn target_text(alloc: Global, update: &Update) -> Result<String, AllocError>
    ensures { IfOk result (λ text. string_bytes text ≡ target_rows update.now []) }
{
    let uid = encode(alloc, update.uid.bytes().as_slice())?;
    let id = update.id.number();
    let auth = update.auth.number();
    format!(in alloc; "uid {uid}\nid {id}\nauth {auth}\n")
}

/// The lines of what it puts there.
fn content_text(alloc: Global, update: &Update) -> Result<String, AllocError>
    ensures { IfOk result (λ text. string_bytes text ≡ content_rows update.now) }
{
    let counter = update.counter.number();
    let flags = flags_text(alloc, update.flags)?;
    let key = encode(alloc, update.key.as_slice())?;
    format!(in alloc; "counter {counter}\nflags {flags}\nkey {key}\n")
}
