//! Reading a text line by line.

ghost use Rattle.std.specs.Prelude.{◌≡◌, ◌<◌, ◌+◌, ◌^◌, ◌==◌, ◌++◌, length, if◌then◌else◌, Result, Ok, Err};
ghost use Rattle.text_lines.specs.Readings.{Gives, ReadsOne, read_all, field};

use crate::fault::{Cause, LineFault, ScriptFault};
use crate::lines;
use crate::words::Words;
use std::alloc::Global;

/// The most lines that a text may have if a program names no other number, without those that are skipped.
pub const MOST_LINES: usize = 65_536;

/// Reads the words of one line. It sees what the lines before gave: a later line may depend on the first, or may not
/// repeat a word.
pub trait LineReader {
    ghost use Rattle.std.specs.Prelude.{List, ℕ, Result};
    ghost use Rattle.text_lines.specs.declared.fault.Cause.{Cause};
    ghost use Rattle.text_lines.specs.Readings.{GivesLine};

    type Item: Drop;

    /// What the words of a line give, after the values of the lines before it.
    ghost means: { Self → List Self.Item → List (List ℕ) → Result Self.Item Cause };

    fn read(
        &self,
        alloc: Global,
        words: &Words<'_>,
        before: &[Self::Item],
    ) -> Result<Self::Item, LineFault>
        ensures { GivesLine (means self.now before.now words.now) result };
}

/// The value of the word with this number, counted from 1, or the cause `Field` if it has none.
pub fn value_at<T: Drop>(number: u8, value: Option<T>) -> Result<T, Cause>
    ensures { result ≡ field number value }
{
    value.ok_or(Cause::Field(number))
}

/// The cause `Count` if a line has another number of words than `count`.
pub fn expect_count(words: &Words<'_>, count: usize) -> Result<(), Cause>
    ensures { result ≡ (if length words.now == count then Ok tt else Err Cause.Count) }
{
    if words.len() == count {
        Ok(())
    } else {
        Err(Cause::Count)
    }
}

/// What a reader makes of the lines of a text that aren't skipped, at most `most`; or the first fault.
pub fn read_lines<R: LineReader>(
    alloc: Global,
    text: &[u8],
    most: usize,
    reader: &R,
) -> Result<Vec<R::Item>, ScriptFault>
    requires { length text.now < 2 ^ 32 }
    ensures { Gives (read_all (R.means reader.now) most text.now) result }
{
    let mut items = Vec::new(alloc);
    let mut spans = Vec::new(alloc);
    let mut number = 1usize;
    let mut at = 0;
    while at < text.len() {
        let end = lines::put_line(&mut spans, text, at)?;
        if !lines::is_skipped(text, &spans) {
            read_line(
                alloc,
                number as u32,
                &Words::of(text, &spans),
                most,
                reader,
                &mut items,
            )?;
        }
        number += 1;
        at = end + 1;
    }
    Ok(items)
}

// Adds what a line gives to the values of the lines before it.
fn read_line<R: LineReader>(
    alloc: Global,
    line: u32,
    words: &Words<'_>,
    most: usize,
    reader: &R,
    items: &mut Vec<R::Item>,
) -> Result<(), ScriptFault>
    ensures { ReadsOne (R.means reader.now) most line words.now items.old.items items.new.items result }
{
    if items.len() >= most {
        return Err(ScriptFault::At {
            line,
            cause: Cause::TooMany,
        });
    }
    match reader.read(alloc, words, items.as_slice()) {
        Ok(item) => items.push(item)?,
        Err(LineFault::Refused(cause)) => return Err(ScriptFault::At { line, cause }),
        Err(LineFault::OutOfMemory) => return Err(ScriptFault::Memory),
    }
    Ok(())
}
