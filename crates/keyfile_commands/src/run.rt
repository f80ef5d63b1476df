//! The run of the key commands with keys from files.
ghost use Rattle.std.specs.Prelude.{◌≡◌, ◌≢◌, ◌≤◌, ℕ, List, Ok, IfOk, length, map as each, string_bytes};
ghost use Rattle.secure_boot.specs.Booting.{bootmac};
ghost use Rattle.program_edge.specs.Endings.{EndsInRow};
ghost use Rattle.key_commands.specs.Rows.{AskedComes};
ghost use Rattle.key_commands.specs.Tasks.{task_of};
ghost use Rattle.key_commands.specs.Texts.{mac_text};
ghost use Rattle.key_commands.specs.declared.subcommands.Subcommand.{Subcommand};
ghost use Rattle.key_commands.specs.declared.subcommands.Subcommand.TheVariants as subcommand;
ghost use Rattle.key_commands.specs.declared.tasks.Task.TheVariants as task;
ghost use Rattle.key_commands.specs.declared.tasks.WordTask.TheVariants as word_task;
ghost use Rattle.keyfile_commands.specs.KeyFilesRuns.{KeyFilesRuns};
ghost use Rattle.keyfile_commands.specs.Rows.{image_limit};
ghost use Rattle.keyfile_commands.specs.Steps.{IsKeytoolCall, IsTaskOver, PreparesKeys};

use crate::calls::{KeyCall, call_of};
use crate::files::key_from;
use crate::image::{boot_image_from, image_mac};
use crate::words::{confirm_words, make_words, read_words};
use basics::Block;
use bus_port::{CleanSource, Sink, Source};
use cut_disk::MemDisk;
use hex::encode;
use key_commands::run_key;
use program_edge::{DONE, Refusal, tell, tell_refusal};
use std::alloc::{AllocError, Global};

const USAGE: &str = "usage: station key make, read, confirm, bootmac, derive\n";

/// Runs what the arguments ask for, the program's name and `key` left out, and gives the status that the program ends
/// with. `first` is the file of the new key, of the boot MAC key, or of the authorising key of `read`; `second` that of
/// the authorising key of `make`, or the image. Every text that is printed ends with a line feed.
///
/// The statuses are looked for in the order 2; 5, 8 and 4 of the first file; 5, 8 and 4 of a second key, or 5, 8 and 3
/// of an image; 3 of the other values; 1. Out of memory, 7, prints nothing. A sink that fails makes the status 6,
/// whatever was to be printed. A file that the arguments don't name isn't read.
pub fn run_keyfiles<S: Source, T: Source, K: Sink>(
    alloc: Global,
    words: &[String],
    first: &mut S,
    second: &mut T,
    sink: &mut K,
) -> u8
    // `KeyFilesRuns` of specs/KeyFilesRuns.antt has a member for each promise, in the order of the table of answers.
    ensures { KeyFilesRuns
        (record {
          words = each string_bytes words.now;
          first = record { before = S.state first.old; after = S.state first.new };
          second = record { before = T.state second.old; after = T.state second.new };
        })
        (record { before = K.state sink.old; after = K.state sink.new; status = result }) }
{
    match prepare(alloc, words, first, second) {
        Ok(task) => match &task {
            KeyTask::Words(words) => run_made(alloc, words.as_slice(), sink),
            KeyTask::Image { key, image } => print_mac(alloc, key, image.as_slice(), sink),
        },
        Err(refusal) => tell_refusal(sink, &refusal),
    }
}

/// What is done once the files were read.
#[derive(Drop)]
enum KeyTask {
    /// What keytool does of these arguments, the first of which is its name.
    Words(Vec<String>),
    /// The boot MAC of the image under the key is printed.
    Image { key: Block, image: Vec<u8> },
}

/// The first phase: the arguments and the files. It ends in a task, or in the first refusal that applies.
fn prepare<S: Source, T: Source>(
    alloc: Global,
    words: &[String],
    first: &mut S,
    second: &mut T,
) -> Result<KeyTask, Refusal>
    ensures { PreparesKeys
        (record {
          words = each string_bytes words.now;
          first = record { before = S.state first.old; after = S.state first.new };
          second = record { before = T.state second.old; after = T.state second.new };
        })
        result }
{
    let Some(call) = call_of(words) else {
        return Err(Refusal::fixed(2, USAGE));
    };
    let key = key_from(alloc, first)?;
    match call {
        KeyCall::Make => {
            let auth = key_from(alloc, second)?;
            task_over(make_words(alloc, words, &key, &auth))
        }
        KeyCall::Read => task_over(read_words(alloc, words, &key)),
        KeyCall::Confirm => task_over(confirm_words(alloc, words, &key)),
        KeyCall::Bootmac => {
            let image = boot_image_from(alloc, second)?;
            Ok(KeyTask::Image { key, image })
        }
    }
}

/// The task over these arguments, if there was memory for them.
fn task_over(made: Result<Vec<String>, AllocError>) -> Result<KeyTask, Refusal>
    ensures { IsTaskOver made result }
{
    match made {
        Ok(words) => Ok(KeyTask::Words(words)),
        Err(AllocError) => Err(Refusal::no_memory()),
    }
}

/// What keytool does of these arguments, without requests and disks.
fn run_made<K: Sink>(alloc: Global, words: &[String], sink: &mut K) -> u8
    ensures { (s : Subcommand) (values : List (List ℕ)) → s ≢ subcommand.Load
        → IsKeytoolCall s values (each string_bytes words.now) → EndsInRow (AskedComes (task_of s values))
        (record { before = K.state sink.old; after = K.state sink.new; status = result }) }
{
    let mut no_request = CleanSource::new(Vec::new(alloc));
    let mut no_disks: Vec<MemDisk> = Vec::new(alloc);
    run_key(alloc, words, &mut no_request, sink, &mut no_disks)
}

/// Prints the boot MAC of an image.
fn print_mac<K: Sink>(alloc: Global, key: &Block, image: &[u8], sink: &mut K) -> u8
    requires { length image.now ≤ image_limit }
    ensures { EndsInRow (AskedComes (Ok (task.Words (word_task.Bootmac key.now image.now))))
        (record { before = K.state sink.old; after = K.state sink.new; status = result }) }
{
    match mac_line(alloc, key, image) {
        Ok(text) => tell(sink, text.as_bytes(), DONE),
        Err(AllocError) => tell_refusal(sink, &Refusal::no_memory()),
    }
}

/// The boot MAC of an image, on a line.
fn mac_line(alloc: Global, key: &Block, image: &[u8]) -> Result<String, AllocError>
    requires { length image.now ≤ image_limit }
    ensures { IfOk result (λ text. string_bytes text ≡ mac_text (bootmac key.now image.now)) }
{
    let digits = encode(alloc, image_mac(key, image).as_slice())?;
    format!(in alloc; "{digits}\n")
}
