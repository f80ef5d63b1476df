//! The arguments of the command line.
ghost use Rattle.std.specs.Prelude.{◌≡◌, ◌≤◌, length, map, take, string_bytes, IfOk, IfErr, MatchOption};
ghost use Rattle.gateway_commands.specs.Words.{pair_form, AsksGateway, AsksNoGateway, AsksSomeGateway};
ghost use Rattle.gateway_commands.specs.Steps.{HasPairs, AsksPairs};

use std::alloc::{AllocError, Global};

/// The pairs that the arguments give after the names of the bus file and of the script, the program's name left out.
/// None, without taking memory, if the arguments are of another form than `B F IN=OUT ..`.
pub fn asked_pairs(alloc: Global, words: &[String]) -> Result<Option<Vec<(u16, u16)>>, AllocError>
    ensures asked { IfOk result (AsksPairs (map string_bytes words.now)) }
    ensures wanted { IfErr result (λ _. AsksSomeGateway (map string_bytes words.now)) }
{
    let mut room = [(0, 0); 32];
    match read_pairs(words, &mut room) {
        None => Ok(None),
        Some(count) => Ok(Some(Vec::from_slice(alloc, &room[..count])?)),
    }
}

// Puts the pairs that the arguments give at the beginning of the room, and tells how many they are; None if the
// arguments are of another form.
fn read_pairs(words: &[String], room: &mut [(u16, u16); 32]) -> Option<usize>
    ensures { MatchOption result (AsksNoGateway (map string_bytes words.now))
        (λ count. (count ≤ 32) × AsksGateway (map string_bytes words.now) (take count room.new)) }
{
    if words.len() < 3 {
        return None;
    }
    if words.len() > 34 {
        return None;
    }
    let given = &words[2..];
    if !read_given(given, room) {
        return None;
    }
    Some(given.len())
}

// Puts the pair of each word into its place; false if a word is of another form.
fn read_given(given: &[String], room: &mut [(u16, u16); 32]) -> bool
    requires { length given.now ≤ 32 }
    ensures { HasPairs (map string_bytes given.now) room.new result }
{
    for (place, word) in given.iter().enumerate() {
        let Some(pair) = pair_of(word.as_str()) else {
            return false;
        };
        room[place] = pair;
    }
    true
}

// The Data IDs of a word `IN=OUT`.
#[tactic(auto, unfolding(crate::specs::Words::pair_form))]
fn pair_of(word: &str) -> Option<(u16, u16)>
    ensures { result ≡ pair_form word.now }
{
    let bytes = word.as_bytes();
    if bytes.len() != 9 || bytes[4] != b'=' {
        return None;
    }
    let first = secoc_words::data_id(&bytes[..4])?;
    let second = secoc_words::data_id(&bytes[5..])?;
    Some((first, second))
}
