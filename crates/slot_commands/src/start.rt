//! The words after `slots`: what they ask is done over the file that the second of them names. If they ask for nothing
//! no file is opened.
ghost use Rattle.std.specs.Prelude.{◌≡◌, map as each, string_bytes, option_map};
ghost use Rattle.program_edge.specs.NamedSources.{word_source, openings, OverNamed};
ghost use Rattle.slot_commands.specs.SlotTasks.{file_asked};
ghost use Rattle.slot_commands.specs.SlotReads.{ReadsUnitStore};

use crate::run::run_slots;
use crate::tasks::task_in;
use bus_port::{Sink, Source};
use program_edge::{Opener, WordSource, open_word};
use std::alloc::Global;

/// Does what the words after `slots` ask, as [`run_slots`] does, over the source that the second word names, and gives
/// the status that the program ends with, and that source as it was left. `-` names the input, which is taken then. If
/// the words are malformed, or a value isn't of its form, nothing is opened.
pub fn slots_words<O: Opener, I: Source + Drop, K: Sink>(
    alloc: Global,
    opener: &mut O,
    input: &mut Option<I>,
    words: &[String],
    sink: &mut K,
) -> (u8, WordSource<O::Opened, I>)
    ensures { OverNamed (O.opens opener.old)
        (openings (O.opened opener.old) (option_map I.state input.old))
        (openings (O.opened opener.new) (option_map I.state input.new))
        (file_asked (each string_bytes words.now))
        (word_source O.Opened.state I.state result.1)
        (λ file. ReadsUnitStore (record { words = each string_bytes words.now; file = file })
        (record { before = K.state sink.old; after = K.state sink.new; status = result.0 })) }
{
    let mut file = open_word(opener, input, file_word(words));
    let status = run_slots(alloc, words, &mut file, sink);
    (status, file)
}

/// The second word, if the words ask for a task.
fn file_word(words: &[String]) -> Option<&str>
    ensures { option_map (λ w. w.now) result ≡ file_asked (each string_bytes words.now) }
{
    if task_in(words).is_err() {
        return None;
    }
    match words {
        [_name, file, ..] => Some(file.as_str()),
        _ => None,
    }
}
