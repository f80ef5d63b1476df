//! The forms of words about disks.

ghost use Rattle.std.specs.Prelude.{◌≡◌};
ghost use Rattle.secoc_words.specs.DiskForms.{torn_form, calls_form};

use cut_disk::Torn;
use hex::FromHex;
use text_lines::forms::number;

/// What a power cut leaves of loose bytes: `keep`, `old`, `half`, or two hexadecimal digits for the byte that fills
/// them.
#[tactic(auto, unfolding(crate::specs::DiskForms::torn_form))]
pub fn torn(word: &[u8]) -> Option<Torn>
    ensures { result ≡ torn_form word.now }
{
    if word == b"keep".as_slice() {
        return Some(Torn::Keep);
    }
    if word == b"old".as_slice() {
        return Some(Torn::Old);
    }
    if word == b"half".as_slice() {
        return Some(Torn::Half);
    }
    let [value] = <[u8; 1] as FromHex>::from_hex(word).ok()?;
    Some(Torn::Fill(value))
}

/// A number of disk calls: a number from 1 to 1,000,000.
#[tactic(auto, using(text_lines::proofs::Numbers::number_within))]
pub fn calls(word: &[u8]) -> Option<u32>
    ensures { result ≡ calls_form word.now }
{
    let value = number(word, 1, 1_000_000)?;
    Some(value as u32)
}
