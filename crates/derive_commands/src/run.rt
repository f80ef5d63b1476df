//! The arguments, the master key's file, and what is printed.
ghost use Rattle.std.specs.Prelude.{◌≡◌, map as each, string_bytes, option_map, IfOk};
ghost use Rattle.hex.specs.Hex.{encode_lower};
ghost use Rattle.text_lines.specs.Texts.{line};
ghost use Rattle.program_edge.specs.NamedSources.{word_source, openings, OverNamed};
ghost use Rattle.program_edge.specs.Endings.{EndsInRow};
ghost use Rattle.program_edge.specs.Rows.{row_of};
ghost use Rattle.key_commands.specs.Texts.{value_text};
ghost use Rattle.keyfile_commands.specs.Calls.{argument as argument_of};
ghost use Rattle.derive_commands.specs.Derivation.{master_file as file_of_master, derived_for, ComesOfDerivation};
ghost use Rattle.derive_commands.specs.Derivation.{is_derivation_call, GivesUnitSlot, TellsDerivation};

use basics::Block;
use bus_port::{Sink, Source};
use hex::encode;
use key_slots::SlotId;
use keyfile_commands::key_from;
use memory_update::Uid;
use program_edge::{DONE, Opener, Refusal, WordSource, open_word, tell, tell_refusal};
use std::alloc::{AllocError, Global};
use unit_keys::unit_key;

const USAGE: &str = "usage: station key derive --key FILE UID SLOT\n";

/// The argument at this place, from 0, or an empty one if there are fewer.
fn argument(words: &[String], place: usize) -> &str
    ensures { result.now ≡ argument_of (each string_bytes words.now) place }
{
    if place >= words.len() {
        return "";
    }
    words[place].as_str()
}

/// Whether the arguments are a derivation.
fn is_derivation(words: &[String]) -> bool
    ensures { result ≡ is_derivation_call (each string_bytes words.now) }
{
    words.len() == 5 && argument(words, 0) == "derive" && argument(words, 1) == "--key"
}

/// The name of the master key's file, if they are.
fn master_file(words: &[String]) -> Option<&str>
    ensures { option_map (λ w. w.now) result ≡ file_of_master (each string_bytes words.now) }
{
    if is_derivation(words) {
        Some(argument(words, 2))
    } else {
        None
    }
}

/// The refusal of a unit that isn't of its form. The key is value 1.
fn unit_refusal() -> Refusal
    ensures { result ≡ row_of 3 (value_text 2) }
{
    Refusal::fixed(3, "value 2\n")
}

/// The refusal of a slot that isn't of its form.
fn slot_refusal() -> Refusal
    ensures { result ≡ row_of 3 (value_text 3) }
{
    Refusal::fixed(3, "value 3\n")
}

/// The unit and the slot of these arguments, or the first refusal.
fn unit_and_slot(uid: &str, slot: &str) -> Result<(Uid, SlotId), Refusal>
    ensures { GivesUnitSlot (derived_for uid.now slot.now) result }
{
    let Some(uid) = secoc_words::engine_uid(uid.as_bytes()) else {
        return Err(unit_refusal());
    };
    let Some(slot) = secoc_words::slot(slot.as_bytes()) else {
        return Err(slot_refusal());
    };
    Ok((uid, slot))
}

/// A key, on a line.
fn key_line(alloc: Global, key: &Block) -> Result<String, AllocError>
    ensures { IfOk result (λ text. string_bytes text ≡ line (encode_lower key.now)) }
{
    let digits = encode(alloc, key.as_slice())?;
    format!(in alloc; "{digits}\n")
}

/// The line that is printed, or why there is none: 2 if the arguments are malformed; 5, 8 and 4 of the file; 3.
fn derive<S: Source>(alloc: Global, words: &[String], file: &mut S) -> Result<String, Refusal>
    ensures { TellsDerivation
        (record {
          words = each string_bytes words.now;
          file = record { before = S.state file.old; after = S.state file.new };
        })
        result }
{
    if !is_derivation(words) {
        return Err(Refusal::fixed(2, USAGE));
    }
    let master = key_from(alloc, file)?;
    let uid = argument(words, 3);
    let slot = argument(words, 4);
    let target = unit_and_slot(uid, slot)?;
    let key = unit_key(&master, &target.0, target.1);
    match key_line(alloc, &key) {
        Ok(text) => Ok(text),
        Err(AllocError) => Err(Refusal::no_memory()),
    }
}

/// Prints that line, and gives the status that the program ends with.
fn tell_derived<S: Source, K: Sink>(
    alloc: Global,
    words: &[String],
    file: &mut S,
    sink: &mut K,
) -> u8
    ensures { EndsInRow
        (ComesOfDerivation (record {
          words = each string_bytes words.now;
          file = record { before = S.state file.old; after = S.state file.new };
        }))
        (record { before = K.state sink.old; after = K.state sink.new; status = result }) }
{
    match derive(alloc, words, file) {
        Ok(text) => tell(sink, text.as_bytes(), DONE),
        Err(refusal) => tell_refusal(sink, &refusal),
    }
}

/// Prints the key of a slot of a unit, derived from the master key of the file that the arguments name, the program's
/// name and `key` left out. It gives the status that the program ends with, and the source as the run left it. `-` names
/// the input, which is taken then. Of malformed arguments nothing is opened.
pub fn derive_words<O: Opener, I: Source + Drop, K: Sink>(
    alloc: Global,
    opener: &mut O,
    input: &mut Option<I>,
    words: &[String],
    sink: &mut K,
) -> (u8, WordSource<O::Opened, I>)
    ensures { OverNamed (O.opens opener.old)
        (openings (O.opened opener.old) (option_map I.state input.old))
        (openings (O.opened opener.new) (option_map I.state input.new))
        (file_of_master (each string_bytes words.now)) (word_source O.Opened.state I.state result.1)
        (λ file. EndsInRow (ComesOfDerivation (record { words = each string_bytes words.now; file = file }))
        (record { before = K.state sink.old; after = K.state sink.new; status = result.0 })) }
{
    let mut file = open_word(opener, input, master_file(words));
    let status = tell_derived(alloc, words, &mut file, sink);
    (status, file)
}
