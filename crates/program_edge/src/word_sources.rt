//! What a word of a command line names.
ghost use Rattle.std.specs.Prelude.{◌≡◌, ℕ, List, true, Some, None, codes, map, string_bytes, option_map, IsErr};
ghost use Rattle.bus_port.specs.Source.{SourceState, Reads};
ghost use Rattle.program_edge.specs.NamedSources.{word_source, is_missing, Openings, openings, behind, IsNamed};
ghost use Rattle.program_edge.specs.NamedSources.{only_word, first_of_two, second_of_two, AreNamed};

use crate::missing::MissingSource;
use crate::opener::Opener;
use bus_port::{PortFailed, Source};

/// A source that a word names.
#[derive(Drop)]
pub enum WordSource<O: Source, I: Source> {
    /// The one that was opened by the word.
    Opened(O),
    /// The input.
    Input(I),
    /// A missing one.
    Missing(MissingSource),
}

impl<O: Source, I: Source> Source for WordSource<O, I> {
    ghost state = { word_source O.state I.state };

    /// A missing source fails each read, and stays one.
    fn read(&mut self, out: &mut [u8]) -> Result<usize, PortFailed>
        ensures fails { is_missing self.old ≡ true → IsErr result }
        ensures stays { is_missing self.old ≡ true → is_missing self.new ≡ true }
        ensures reads { Reads (word_source O.state I.state self.old) (word_source O.state I.state self.new)
            out.old out.new result }
    {
        match self {
            WordSource::Opened(source) => source.read(out),
            WordSource::Input(source) => source.read(out),
            WordSource::Missing(source) => source.read(out),
        }
    }
}

/// What an argument names: `-` the input, which is taken; any other argument what the opener opens by it, once. If
/// there is no argument, or `-` took the input already, it is a missing source.
pub fn open_word<O: Opener, I: Source + Drop>(
    opener: &mut O,
    input: &mut Option<I>,
    word: Option<&str>,
) -> WordSource<O::Opened, I>
    ensures named { IsNamed (O.opens opener.old)
        (openings (O.opened opener.old) (option_map I.state input.old)) (option_map (λ w. w.now) word.entry)
        (word_source O.Opened.state I.state result) }
    ensures left { openings (O.opened opener.new) (option_map I.state input.new)
        ≡ behind (option_map (λ w. w.now) word.entry)
        (openings (O.opened opener.old) (option_map I.state input.old)) }
    ensures keeps { (next : List ℕ) (source : SourceState) → O.opens opener.new next source
        → O.opens opener.old next source }

    // A missing source fails each read.
    ensures none { option_map (λ w. w.now) word.entry ≡ None → is_missing result ≡ true }
    ensures gone { option_map (λ w. w.now) word.entry ≡ Some (codes "-") → option_map I.state input.old ≡ None
        → is_missing result ≡ true }
{
    let Some(word) = word else {
        return WordSource::Missing(MissingSource::new());
    };
    if word != "-" {
        return WordSource::Opened(opener.open(word));
    }
    match input.take() {
        Some(input) => WordSource::Input(input),
        None => WordSource::Missing(MissingSource::new()),
    }
}

/// What the arguments of a command line name if there is one. Of words of another number nothing is opened, and the
/// source is missing.
pub fn open_one<O: Opener, I: Source + Drop>(
    opener: &mut O,
    input: &mut Option<I>,
    words: &[String],
) -> WordSource<O::Opened, I>
    ensures named { IsNamed (O.opens opener.old)
        (openings (O.opened opener.old) (option_map I.state input.old)) (only_word (map string_bytes words.now))
        (word_source O.Opened.state I.state result) }
    ensures left { openings (O.opened opener.new) (option_map I.state input.new)
        ≡ behind (only_word (map string_bytes words.now))
        (openings (O.opened opener.old) (option_map I.state input.old)) }
{
    match words {
        [word] => open_word(opener, input, Some(word.as_str())),
        _ => open_word(opener, input, None),
    }
}

/// What two arguments name, opened one after the other.
pub fn open_both<O: Opener, I: Source + Drop>(
    opener: &mut O,
    input: &mut Option<I>,
    first: Option<&str>,
    second: Option<&str>,
) -> (WordSource<O::Opened, I>, WordSource<O::Opened, I>)
    ensures named { AreNamed (O.opens opener.old) (openings (O.opened opener.old) (option_map I.state input.old))
        (option_map (λ w. w.now) first.entry) (option_map (λ w. w.now) second.entry)
        (word_source O.Opened.state I.state result.0) (word_source O.Opened.state I.state result.1) }
    ensures left { openings (O.opened opener.new) (option_map I.state input.new)
        ≡ behind (option_map (λ w. w.now) second.entry) (behind (option_map (λ w. w.now) first.entry)
        (openings (O.opened opener.old) (option_map I.state input.old))) }

    // There is one input: if both words are `-`, the second has a source that fails each read.
    ensures both { option_map (λ w. w.now) first.entry ≡ Some (codes "-")
        → option_map (λ w. w.now) second.entry ≡ Some (codes "-") → is_missing result.1 ≡ true }
{
    let first = open_word(opener, input, first);
    let second = open_word(opener, input, second);
    (first, second)
}

/// What the arguments of a command line name if they are two, opened one after the other. Of words of another number
/// nothing is opened, and both sources are missing.
pub fn open_two<O: Opener, I: Source + Drop>(
    opener: &mut O,
    input: &mut Option<I>,
    words: &[String],
) -> (WordSource<O::Opened, I>, WordSource<O::Opened, I>)
    ensures named { AreNamed (O.opens opener.old) (openings (O.opened opener.old) (option_map I.state input.old))
        (first_of_two (map string_bytes words.now)) (second_of_two (map string_bytes words.now))
        (word_source O.Opened.state I.state result.0) (word_source O.Opened.state I.state result.1) }
    ensures left { openings (O.opened opener.new) (option_map I.state input.new)
        ≡ behind (second_of_two (map string_bytes words.now)) (behind (first_of_two (map string_bytes words.now))
        (openings (O.opened opener.old) (option_map I.state input.old))) }
{
    let (first, second) = two_words(words);
    open_both(opener, input, first, second)
}

/// The words of a command line where they are two, and none of another number.
pub fn two_words(words: &[String]) -> (Option<&str>, Option<&str>)
    ensures first { option_map (λ w. w.now) result.0 ≡ first_of_two (map string_bytes words.now) }
    ensures second { option_map (λ w. w.now) result.1 ≡ second_of_two (map string_bytes words.now) }
{
    match words {
        [first, second] => (Some(first.as_str()), Some(second.as_str())),
        _ => (None, None),
    }
}
