//! A log that is read in pieces: how many bytes a piece has, where its first line ends, and room for a text.
ghost use Rattle.std.specs.Prelude.{◌≡◌, ◌≤◌, ◌+◌, ◌++◌, length, vec_len, vec_capacity};
ghost use Rattle.std.specs.List.{position_or_len};
ghost use Rattle.text_lines.specs.Lines.{is_line_feed};

use memchr::memchr_iter;

/// The most bytes of a piece.
pub const PIECE: usize = 4096;

/// How many bytes stand before the first line feed, or all if there is none.
#[tactic(auto, using(text_lines::proofs::Stops::first_item_or_length, text_lines::proofs::Pieces::position_or_len_within))]
pub fn until_feed(bytes: &[u8]) -> usize
    ensures exact { result ≡ position_or_len is_line_feed bytes.now }
    ensures within { result ≤ length bytes.now }
{
    let mut feeds = memchr_iter(b'\n', bytes);
    feeds.next().unwrap_or(bytes.len())
}

/// Adds bytes in room that there is. It takes no memory.
pub fn add_bytes(text: &mut Vec<u8>, bytes: &[u8])
    requires { vec_len text.old + length bytes.now ≤ vec_capacity text.old }
    ensures bytes { text.new.items ≡ text.old.items ++ bytes.now }
    ensures len { vec_len text.new ≡ vec_len text.old + length bytes.now }
    ensures capacity { vec_capacity text.old ≤ vec_capacity text.new }
{
    text.extend_from_slice(bytes).unwrap();
}
