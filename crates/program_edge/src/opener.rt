//! What opens the sources that words name.
ghost use Rattle.std.specs.Prelude.{◌≡◌, ◌∷◌, ◌++◌, [], List, ℕ};
ghost use Rattle.bus_port.specs.Source.{SourceState};

use crate::opened::OpenedWords;
use bus_port::{Source, StdSource};
use std::fs::File;
use std::rt::Files;

/// What opens a source by a word.
pub trait Opener {
    type Opened: Source + Drop;

    /// The arguments that it opened so far, the oldest first.
    ghost opened: { Self → List (List ℕ) };

    /// What is known of a source that is opened by this word.
    ghost opens: { Self → List ℕ → SourceState → Type 0 };

    /// The source that the word opens. It is a missing one if nothing can be opened.
    fn open(&mut self, word: &str) -> Self::Opened
        ensures source { opens self.old word.now (Self.Opened.state result) }
        ensures noted { opened self.new ≡ opened self.old ++ word.now ∷ [] }

        // What is known of a source that is opened next was known of it before.
        ensures keeps { (next : List ℕ) (source : SourceState) → opens self.new next source
            → opens self.old next source };
}

/// Opens the file whose path the word is. A file that doesn't open is a missing source, each of whose reads fails.
#[derive(Drop)]
pub struct Paths<'a, R: Files> {
    rt: &'a R,
    opened: OpenedWords,
}

impl<'a, R: Files> Paths<'a, R> {
    /// The files of this runtime; none was opened here.
    pub fn of(rt: &'a R) -> Paths<'a, R>
        ensures { result.opened ≡ [] }
    {
        Paths {
            rt,
            opened: OpenedWords::none(),
        }
    }
}

impl<'a, R: Files> Opener for Paths<'a, R> {
    ghost use Rattle.program_edge.specs.NamedSources.{IsFresh};

    type Opened = StdSource<R::File>;

    ghost opened = { λ paths. paths.opened };

    // Nothing came from it yet, and what it holds isn't known.
    ghost opens = { λ _ _ source. IsFresh source };

    fn open(&mut self, word: &str) -> StdSource<R::File> {
        self.opened = self.opened.and(word);
        match File::open(self.rt, word) {
            Ok(file) => StdSource::new(file),
            Err(_) => StdSource::missing(),
        }
    }
}
