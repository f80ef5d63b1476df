//! Who may read the file of a store, which has keys.
ghost use Rattle.std.specs.Prelude.{◌≡◌, ◌≢◌, ◌↔◌, IsTrue, bit_and, map, option_map, string_bytes};
ghost use Rattle.station.specs.Modes.{store_word, TellsMode};

use bus_port::Sink;
use program_edge::{DONE, tell};
use std::alloc::Global;
use std::fs;
use std::os::unix::fs::PermissionsExt;

/// The bits of a file's mode that let its group read, and everybody.
const OTHERS_READ: u32 = 0o044;

/// Says on `errors` that others than its owner may read the file of a store that was opened: the third argument. Without
/// memory for the line it says nothing.
pub fn tell_open_mode<E: Sink>(alloc: Global, rt: &HostRuntime, words: &[String], errors: &mut E)
    ensures { TellsMode (map string_bytes words.now) (E.state errors.old) (E.state errors.new) }
{
    let Some(file) = opened_store(words) else {
        return;
    };
    if !others_read(rt, file) {
        return;
    }
    if let Ok(text) = format!(in alloc; "station: others may read {file}\n") {
        let _status = tell(errors, text.as_bytes(), DONE);
    }
}

/// The file of a store: the third argument, if there are so many.
fn opened_store(words: &[String]) -> Option<&str>
    ensures { option_map (λ word. word.now) result ≡ store_word (map string_bytes words.now) }
{
    match words {
        [_slots, _name, file, ..] => Some(file.as_str()),
        _ => None,
    }
}

/// Whether others may read this file. If it isn't known, or there is none, they may not.
fn others_read(rt: &HostRuntime, path: &str) -> bool {
    match fs::metadata(rt, path) {
        Ok(metadata) => lets_others_read(metadata.permissions().mode()),
        Err(_) => false,
    }
}

/// Whether a file with this mode lets its group read, or everybody.
fn lets_others_read(mode: u32) -> bool
    ensures { IsTrue result ↔ (bit_and mode OTHERS_READ ≢ 0) }
{
    mode & OTHERS_READ != 0
}
