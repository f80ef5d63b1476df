//! What holds of each start: the function has an empty body, and its contract is the law.
ghost use Rattle.std.specs.Prelude.{◌≡◌, ℕ, List};
ghost use Rattle.seal_logs.specs.Reads.{LogReads};
ghost use Rattle.seal_logs.specs.Starts.{StartFinds};
ghost use Rattle.seal_logs.specs.declared.starting.StartEnd.TheVariants.{Found};

use crate::{FoundStore, LogSizes, StartEnd};

/// Of what was read a start makes one thing: what it ends with is determined, and so are the cells of the store that it
/// finds.
pub fn a_start_has_one_end()
    ensures end { (s : LogSizes) (r : LogReads) (one other : StartEnd) (cells now : List (List ℕ))
        → StartFinds s r one cells → StartFinds s r other now → one ≡ other }
    ensures cells { (s : LogSizes) (r : LogReads) (found : FoundStore) (cells now : List (List ℕ))
        → StartFinds s r (Found found) cells → StartFinds s r (Found found) now → cells ≡ now }
{}
