//! The places of words in a text.

ghost use Rattle.std.specs.Prelude.{◌≡◌};

use std::marker::Model;

/// The place of a word in a text: that of its first byte, counted from 0, and its length in bytes.
#[derive(Clone, Copy, Debug, PartialEq, Eq)]
pub struct Span {
    pub at: u32,
    pub len: u32,
}

/// The places of the words of a line. A contract sees the list of them.
#[derive(Debug, Drop)]
pub struct Spans {
    spans: Vec<Span>,
}

impl Model for Spans {
    ghost use Rattle.std.specs.Prelude.{List};
    ghost use Rattle.text_lines.specs.declared.span.Span.{Span};

    ghost Value = { List Span };

    ghost view = { λ s. s.spans.items };
}

impl Spans {
    /// These places; it takes no memory.
    pub fn of(spans: Vec<Span>) -> Spans
        ensures { result ≡ spans.items }
    {
        Spans { spans }
    }

    /// The places in their order.
    pub fn as_slice(&self) -> &[Span]
        ensures { result.now ≡ self.now }
    {
        self.spans.as_slice()
    }

    /// The vector that holds the places; it takes no memory.
    pub fn into_vec(self) -> Vec<Span>
        ensures { result.items ≡ self }
    {
        self.spans
    }
}

/// A line that isn't skipped: its number, counted from 1, and the places of its words.
#[derive(Debug, Drop)]
pub struct Cut {
    pub line: u32,
    pub words: Spans,
}
