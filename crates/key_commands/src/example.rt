//! The example of the key commands.
ghost use Rattle.std.specs.Prelude.{◌≡◌, map, string_bytes, IfOk};

use std::alloc::{AllocError, Global};

/// The arguments of the example of the SHE specification: the request that puts a key into slot 4 under the key of slot
/// 1.
pub const EXAMPLE: [&str; 8] = [
    "make",
    "000000000000000000000000000001",
    "4",
    "1",
    "1",
    "00000",
    "0f0e0d0c0b0a09080706050403020100",
    "000102030405060708090a0b0c0d0e0f",
];

/// These texts as arguments.
pub fn texts_of(alloc: Global, texts: &[&str]) -> Result<Vec<String>, AllocError>
    ensures { IfOk result (λ words. map string_bytes words.items ≡ map (λ text. text.now) texts.now) }
{
    let mut words = Vec::new(alloc);
    for text in texts {
        words.push(String::from_str(alloc, text)?)?;
    }
    Ok(words)
}
