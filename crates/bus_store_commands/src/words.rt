//! The arguments `NAME FILE BUS`.
ghost use Rattle.std.specs.Prelude.{◌≡◌, [], slice_index_or, map as each, string_bytes, option_map};
ghost use Rattle.bus_store_commands.specs.BusWords.{asks_over_bus as asks_named, file_over_bus as file_named};

/// The argument at a place, from 0; empty if there are fewer.
pub fn argument_at(words: &[String], place: usize) -> &str
    ensures { result.now ≡ slice_index_or (each string_bytes words.now) place [] }
{
    if place >= words.len() {
        return "";
    }
    words[place].as_str()
}

/// Whether the arguments are this name and two files.
pub fn asks_over_bus(name: &str, words: &[String]) -> bool
    ensures { result ≡ asks_named name.now (each string_bytes words.now) }
{
    words.len() == 3 && argument_at(words, 0) == name
}

/// The file at a place, from 0, of such arguments; none of others.
pub fn file_over_bus<'a>(name: &str, words: &'a [String], place: usize) -> Option<&'a str>
    ensures { option_map (λ w. w.now) result ≡ file_named name.now (each string_bytes words.entry.now) place }
{
    if asks_over_bus(name, words) {
        Some(argument_at(words, place))
    } else {
        None
    }
}
