//! Key files.
ghost use Rattle.std.specs.Prelude.{◌≡◌};
ghost use Rattle.keyfile_commands.specs.KeyFiles.{is_key_end, key_file_of};
ghost use Rattle.keyfile_commands.specs.Steps.{TakesKey};

use basics::Block;
use bus_port::Source;
use program_edge::{Refusal, read_input};
use std::alloc::Global;

/// The key that these bytes of a key file are: 16 bytes, or 32 hexadecimal digits and at most one line end.
pub fn key_in(bytes: &[u8]) -> Option<Block>
    ensures { result ≡ key_file_of bytes.now }
{
    if bytes.len() == 16 {
        let mut key = [0; 16];
        key.copy_from_slice(bytes);
        return Some(Block::of(key));
    }
    if bytes.len() < 32 {
        return secoc_words::key(bytes);
    }
    if !is_key_end(&bytes[32..]) {
        return None;
    }
    secoc_words::key(&bytes[..32])
}

/// Whether nothing or a line end stands there.
fn is_key_end(bytes: &[u8]) -> bool
    ensures { result ≡ is_key_end bytes.now }
{
    match bytes {
        [] => true,
        [a] => *a == 10,
        [a, b] => *a == 13 && *b == 10,
        _ => false,
    }
}

/// The key of the file with this source. Refusals: 5, 8 and 7 of an input, 4 if it is no key file.
pub fn key_from<S: Source>(alloc: Global, file: &mut S) -> Result<Block, Refusal>
    ensures { TakesKey (record { before = S.state file.old; after = S.state file.new }) result }
{
    let bytes = read_input(alloc, file)?;
    let Some(key) = key_in(bytes.as_slice()) else {
        return Err(Refusal::fixed(4, "key: not 16 bytes\n"));
    };
    Ok(key)
}
