//! The words of the command line, the program's name left out: `--locate [--from N] [--to N] MAP LOG`.
ghost use Rattle.std.specs.Prelude.{◌≡◌, map as each, string_bytes};
ghost use Rattle.locate_commands.specs.LocateOptions.{says_locate, number_after, locate_asked};

use std::marker::Model;
use text_lines::forms;

/// The values of freshness that are looked at.
#[derive(Clone, Copy, Debug, PartialEq, Eq)]
pub struct Candidates {
    /// The first.
    pub first: u64,
    /// The last.
    pub last: u64,
}

/// The last freshness that is looked at if the words name none.
const LAST: u64 = 1 << 32;

/// What the words ask for: the values of freshness that are looked at, and the words that name the map and the log.
#[derive(Drop)]
pub struct LocateWords<'a> {
    /// The values.
    pub candidates: Candidates,
    /// The words.
    pub inputs: &'a [String],
}

impl<'a> Model for LocateWords<'a> {
    ghost use Rattle.std.specs.Prelude.{map, string_bytes};
    ghost use Rattle.locate_commands.specs.LocateOptions.{LocateArguments};

    ghost Value = { LocateArguments };

    ghost view = { λ w. record { candidates = w.candidates; inputs = map string_bytes w.inputs.now } };
}

/// A number, and the words after it.
#[derive(Drop)]
struct Numbered<'a> {
    number: u64,
    rest: &'a [String],
}

impl<'a> Model for Numbered<'a> {
    ghost use Rattle.std.specs.Prelude.{map, string_bytes};
    ghost use Rattle.locate_commands.specs.LocateOptions.{NumberAndRest};

    ghost Value = { NumberAndRest };

    ghost view = { λ n. record { number = n.number; rest = map string_bytes n.rest.now } };
}

/// Whether the first word is `--locate`.
pub fn asks_locate(words: &[String]) -> bool
    ensures { result ≡ says_locate (each string_bytes words.now) }
{
    match words {
        [first, ..] => first.as_str() == "--locate",
        [] => false,
    }
}

/// The number that follows this word, if the words begin with it; else this one, and all words. `None` if it is none.
fn number_after<'a>(words: &'a [String], name: &str, otherwise: u64) -> Option<Numbered<'a>>
    ensures { result ≡ number_after name.now otherwise (each string_bytes words.now) }
{
    match words {
        [first, number, rest @ ..] if first.as_str() == name => {
            let number = forms::number(number.as_bytes(), 1, u64::MAX)?;
            Some(Numbered { number, rest })
        }
        _ => Some(Numbered {
            number: otherwise,
            rest: words,
        }),
    }
}

/// What the words ask for; `None` if they are malformed.
pub fn asked(words: &[String]) -> Option<LocateWords<'_>>
    ensures { result ≡ locate_asked (each string_bytes words.now) }
{
    if !asks_locate(words) {
        return None;
    }
    let first = number_after(&words[1..], "--from", 1)?;
    let last = number_after(first.rest, "--to", LAST)?;
    if last.rest.len() != 2 {
        return None;
    }
    let candidates = Candidates {
        first: first.number,
        last: last.number,
    };
    Some(LocateWords {
        candidates,
        inputs: last.rest,
    })
}
