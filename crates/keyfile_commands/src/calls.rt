//! The arguments, and the files that they name.
ghost use Rattle.std.specs.Prelude.{◌≡◌, map as each, string_bytes, option_map};
ghost use Rattle.keyfile_commands.specs.Calls.{argument, is_call, call_of as call_in, first_file, second_file};

/// What the arguments ask for.
#[derive(Clone, Copy, Debug, PartialEq, Eq)]
pub enum KeyCall {
    /// `make UID ID AUTH COUNTER FLAGS --key FILE --auth FILE`: the messages M1, M2 and M3.
    Make,
    /// `read --auth FILE M1 M2 M3`: the update that the messages carry.
    Read,
    /// `confirm UID ID AUTH COUNTER --key FILE M4 M5`: whether the messages confirm the update.
    Confirm,
    /// `bootmac --key FILE IMAGE`: the boot MAC of the image under the key.
    Bootmac,
}

/// The argument at this place, from 0, or an empty one if there are fewer.
pub fn argument(words: &[String], place: usize) -> &str
    ensures { result.now ≡ argument (each string_bytes words.now) place }
{
    if place >= words.len() {
        return "";
    }
    words[place].as_str()
}

/// Whether there are so many arguments, the first is this, and an option stands at this place.
fn is_call(words: &[String], count: usize, name: &str, place: usize, option: &str) -> bool
    ensures { result ≡ is_call (each string_bytes words.now) count name.now place option.now }
{
    words.len() == count && argument(words, 0) == name && argument(words, place) == option
}

/// What the arguments ask for, the program's name and `key` left out; none if they are malformed.
#[tactic(auto, unfolding(crate::specs::Calls::call_of))]
pub fn call_of(words: &[String]) -> Option<KeyCall>
    ensures { result ≡ call_in (each string_bytes words.now) }
{
    if is_call(words, 10, "make", 6, "--key") && argument(words, 8) == "--auth" {
        return Some(KeyCall::Make);
    }
    if is_call(words, 6, "read", 1, "--auth") {
        return Some(KeyCall::Read);
    }
    if is_call(words, 9, "confirm", 5, "--key") {
        return Some(KeyCall::Confirm);
    }
    if is_call(words, 4, "bootmac", 1, "--key") {
        return Some(KeyCall::Bootmac);
    }
    None
}

/// The name of the first file: the new key's, or the authorising key's of `read`.
pub fn first_file(words: &[String]) -> Option<&str>
    ensures { option_map (λ w. w.now) result ≡ first_file (each string_bytes words.now) }
{
    match call_of(words) {
        Some(KeyCall::Make) => Some(argument(words, 7)),
        Some(KeyCall::Read) => Some(argument(words, 2)),
        Some(KeyCall::Confirm) => Some(argument(words, 6)),
        Some(KeyCall::Bootmac) => Some(argument(words, 2)),
        None => None,
    }
}

/// The name of the second file: the authorising key's of `make`, or the image's.
pub fn second_file(words: &[String]) -> Option<&str>
    ensures { option_map (λ w. w.now) result ≡ second_file (each string_bytes words.now) }
{
    match call_of(words) {
        Some(KeyCall::Make) => Some(argument(words, 9)),
        Some(KeyCall::Bootmac) => Some(argument(words, 3)),
        _ => None,
    }
}
