//! Why a program doesn't do what it is asked, and how it is printed.
ghost use Rattle.std.specs.Prelude.{◌≡◌, ◌+◌, ◌≤◌, ◌++◌, length, string_bytes};
ghost use Rattle.std.specs.Fmt.{decimal};
ghost use Rattle.program_edge.specs.Told.{EndingTold};
ghost use Rattle.program_edge.specs.Rows.{memory_row};

use crate::{InputFault, NO_MEMORY, tell};
use arrayvec::ArrayString;
use bus_port::Sink;
use itoa::Buffer;
use std::marker::Model;

/// The most bytes of a text with numbers that takes no memory.
const MOST_SHORT: usize = 128;

/// A row of a program's answers in place of its deed: a status, and a text with its line feed. Clauses see
/// it as that row.
#[derive(Debug, Drop)]
pub struct Refusal {
    status: u8,
    text: Text,
}

/// A text that a program has, or one that was made, as it names a line or a value. A short one lies in the value itself,
/// so that making it takes no memory.
#[derive(Debug, Drop)]
enum Text {
    Fixed(&'static str),
    Made(String),
    Short(ArrayString<MOST_SHORT>),
}

impl Model for Refusal {
    ghost use Rattle.program_edge.specs.Rows.{Row, shown};

    ghost Value = { Row };

    ghost view = { λ r. record { status = r.status; text = shown r.text } };
}

impl Refusal {
    /// The row with this status and a fixed text.
    pub fn fixed(status: u8, text: &'static str) -> Refusal
        ensures { result ≡ record { status = status; text = text.now } }
    {
        Refusal {
            status,
            text: Text::Fixed(text),
        }
    }

    /// The row with this status and a text that was made.
    pub fn made(status: u8, text: String) -> Refusal
        ensures { result ≡ record { status = status; text = string_bytes text } }
    {
        Refusal {
            status,
            text: Text::Made(text),
        }
    }

    /// The row with this status and a text that has a number: these words, the number's decimal digits, and these words.
    /// It takes no memory.
    pub fn numbered(status: u8, before: &str, number: u32, after: &str) -> Refusal
        requires { length before.now + length after.now ≤ 118 }
        ensures { result ≡ record { status = status; text = before.now ++ (decimal number ++ after.now) } }
    {
        let mut text = ArrayString::new();
        text.push_str(before);
        push_number(&mut text, number);
        text.push_str(after);
        Refusal {
            status,
            text: Text::Short(text),
        }
    }

    /// The same with two numbers, the second of which stands between the last two of these words.
    pub fn twice_numbered(
        status: u8,
        before: &str,
        first: u32,
        between: &str,
        second: u32,
        after: &str,
    ) -> Refusal
        requires { length before.now + length between.now + length after.now ≤ 108 }
        ensures { result ≡ record {
          status = status;
          text = before.now ++ (decimal first ++ (between.now ++ (decimal second ++ after.now)));
        } }
    {
        let mut text = ArrayString::new();
        text.push_str(before);
        push_number(&mut text, first);
        text.push_str(between);
        push_number(&mut text, second);
        text.push_str(after);
        Refusal {
            status,
            text: Text::Short(text),
        }
    }

    /// Out of memory: 7, and nothing is printed.
    pub fn no_memory() -> Refusal
        ensures { result ≡ memory_row }
    {
        Refusal::fixed(NO_MEMORY, "")
    }

    /// The status that the program ends with, if all of the text was printed.
    pub fn status(&self) -> u8
        ensures { result ≡ self.now.status }
    {
        self.status
    }

    /// The text that is printed: a line with its line feed, or nothing.
    pub fn text(&self) -> &str
        ensures { result.now ≡ self.now.text }
    {
        match &self.text {
            Text::Fixed(text) => text,
            Text::Made(text) => text.as_str(),
            Text::Short(text) => text.as_str(),
        }
    }
}

/// Adds a number in decimal digits to a text with room for ten bytes.
fn push_number(text: &mut ArrayString<MOST_SHORT>, number: u32)
    requires { length text.old.bytes + 10 ≤ MOST_SHORT }
    ensures digits { text.new.bytes ≡ text.old.bytes ++ decimal number }
    ensures short { length text.new.bytes ≤ length text.old.bytes + 10 }
{
    let mut digits = Buffer::new();
    text.push_str(digits.format(number));
}

impl From<InputFault> for Refusal {
    ghost use Rattle.program_edge.specs.Rows.{input_row};

    ghost from_gives = { λ fault refusal. refusal ≡ input_row fault };

    fn from(fault: InputFault) -> Refusal {
        Refusal::fixed(fault.status(), fault.text())
    }
}

/// Writes the text of a refusal, and gives the status that the program ends with: the refusal's, or 6 if the sink
/// failed, which then has a proper prefix of the text.
pub fn tell_refusal<K: Sink>(sink: &mut K, refusal: &Refusal) -> u8
    ensures { EndingTold (K.state sink.old) (K.state sink.new) refusal.now.text refusal.now.status
        result }
{
    tell(sink, refusal.text().as_bytes(), refusal.status())
}
