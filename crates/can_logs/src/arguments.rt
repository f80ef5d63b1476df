//! What the words of a command line say of a map and a log.
ghost use Rattle.std.specs.Prelude.{◌≡◌, ◌↔◌, map as each, string_bytes, IsTrue};
ghost use Rattle.can_logs.specs.LogRuns.{NamesInputs, is_only_word};

/// Whether the words, the program's name left out, are the two that name the map and the log.
pub fn names_inputs(words: &[String]) -> bool
    ensures { IsTrue result ↔ NamesInputs (each string_bytes words.now) }
{
    words.len() == 2
}

/// Whether there is one word, and it is this.
pub fn is_only(words: &[String], word: &str) -> bool
    ensures { result ≡ is_only_word word.now (each string_bytes words.now) }
{
    match words {
        [only] => only.as_str() == word,
        _ => false,
    }
}
