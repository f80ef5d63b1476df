//! The arguments that an opener has opened.
ghost use Rattle.std.specs.Prelude.{◌≡◌, [], ◌∷◌, ◌++◌};

use boxcar::tag::{Names, Tag};
use std::marker::Model;

/// The arguments that were opened so far, the oldest first. It has no bytes, and proofs alone read it: clauses see it
/// as the list of these arguments.
#[derive(Drop)]
pub struct OpenedWords {
    words: Tag,
}

impl Model for OpenedWords {
    ghost use Rattle.std.specs.Prelude.{ℕ, List};
    ghost use Rattle.program_edge.specs.OpenedWords.{words_noted};

    ghost Value = { List (List ℕ) };

    ghost view = { λ opened. words_noted opened.words.numbers };
}

/// One word more.
#[derive(Drop)]
struct Note<'a> {
    earlier: &'a Tag,
    word: &'a str,
}

/// The word stands before the earlier ones.
struct Newest;

impl<'a> Names<Note<'a>> for Newest {
    ghost use Rattle.program_edge.specs.OpenedWords.{note_of};

    ghost numbers = { λ note. note_of note.word.now ++ note.earlier.now.numbers };
}

impl OpenedWords {
    /// None so far.
    pub fn none() -> OpenedWords
        ensures { result ≡ [] }
    {
        OpenedWords {
            words: Tag::empty(),
        }
    }

    /// The same, and then this word.
    pub fn and(&self, word: &str) -> OpenedWords
        ensures { result ≡ self.now ++ word.now ∷ [] }
    {
        OpenedWords {
            words: Tag::of::<Note<'_>, Newest>(&Note {
                earlier: &self.words,
                word,
            }),
        }
    }
}
