//! The arguments of keytool that stand for the arguments, with each file's key in its place.
ghost use Rattle.std.specs.Prelude.{◌≡◌, map as each, string_bytes, IfOk};
ghost use Rattle.keyfile_commands.specs.Values.{plain_value, make_values, read_values, confirm_values};
ghost use Rattle.keyfile_commands.specs.Steps.{IsKeytoolCall};
ghost use Rattle.key_commands.specs.declared.subcommands.Subcommand.TheVariants as subcommand;

use crate::calls::argument;
use basics::Block;
use hex::encode;
use std::alloc::{AllocError, Global};

/// The arguments of `keytool make`, with its name.
pub fn make_words(
    alloc: Global,
    words: &[String],
    key: &Block,
    auth: &Block,
) -> Result<Vec<String>, AllocError>
    ensures { IfOk result (λ made.
        IsKeytoolCall subcommand.Make (make_values (each string_bytes words.now) key.now auth.now)
        (each string_bytes made.items)) }
{
    let key = encode(alloc, key.as_slice())?;
    let auth = encode(alloc, auth.as_slice())?;
    let (key, auth) = (key.as_str(), auth.as_str());
    let (uid, id, slot) = (argument(words, 1), argument(words, 2), argument(words, 3));
    let (counter, flags) = (argument(words, 4), argument(words, 5));
    plain_words(
        alloc,
        &["keytool", "make", uid, id, slot, counter, flags, key, auth],
    )
}

/// The arguments of `keytool read`, with its name.
pub fn read_words(alloc: Global, words: &[String], auth: &Block) -> Result<Vec<String>, AllocError>
    ensures { IfOk result (λ made.
        IsKeytoolCall subcommand.Read (read_values (each string_bytes words.now) auth.now)
        (each string_bytes made.items)) }
{
    let auth = encode(alloc, auth.as_slice())?;
    let (m1, m2, m3) = (argument(words, 3), argument(words, 4), argument(words, 5));
    plain_words(alloc, &["keytool", "read", auth.as_str(), m1, m2, m3])
}

/// The arguments of `keytool confirm`, with its name.
pub fn confirm_words(
    alloc: Global,
    words: &[String],
    key: &Block,
) -> Result<Vec<String>, AllocError>
    ensures { IfOk result (λ made.
        IsKeytoolCall subcommand.Confirm (confirm_values (each string_bytes words.now) key.now)
        (each string_bytes made.items)) }
{
    let key = encode(alloc, key.as_slice())?;
    let key = key.as_str();
    let (uid, id, slot) = (argument(words, 1), argument(words, 2), argument(words, 3));
    let (counter, m4, m5) = (argument(words, 4), argument(words, 7), argument(words, 8));
    plain_words(
        alloc,
        &["keytool", "confirm", uid, id, slot, counter, key, m4, m5],
    )
}

/// The same words; those that begin with `-` are empty.
fn plain_words(alloc: Global, words: &[&str]) -> Result<Vec<String>, AllocError>
    ensures { IfOk result (λ made. each string_bytes made.items ≡ each (λ word. plain_value word.now) words.now) }
{
    let mut made = Vec::new(alloc);
    for word in words {
        made.push(String::from_str(alloc, plain(*word))?)?;
    }
    Ok(made)
}

/// The word, or an empty one if it begins with `-`.
fn plain(word: &str) -> &str
    ensures { result.now ≡ plain_value word.now }
{
    match word.as_bytes() {
        [b'-', ..] => "",
        _ => word,
    }
}
