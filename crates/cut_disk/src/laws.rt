//! Laws of disks: the contract of each function is the law, and its body is empty.
ghost use Rattle.std.specs.Prelude.{◌≡◌, ℕ, ◌+◌, ◌≤◌, ◌↔◌, true, List, ◌++◌, length, Option, Some};
ghost use Rattle.std.specs.Option.{option_to_list};
ghost use Rattle.basics.specs.FaultCount.{Rose};
ghost use Rattle.cut_disk.specs.State.{Told, Mark, DiskState};
ghost use Rattle.cut_disk.specs.Images.{Image, firm, with_bytes, UnderWrite, CutsTo};
ghost use Rattle.cut_disk.specs.Calls.{arms_nothing, IsQuiet, Call, Runs, Later, Grows};

/// The bytes as a read gives them are always one of the images.
pub fn the_bytes_are_an_image()
    ensures { (t : Told) → Image t t.bytes }
{}

/// If no byte is loose they are the only one.
pub fn firm_bytes_have_one_image()
    ensures { (bytes left : List ℕ) → Image (firm bytes) left ↔ (left ≡ bytes) }
{}

/// So a power cut of a disk without a loose byte changes nothing.
pub fn a_cut_keeps_firm_bytes()
    ensures { (bytes : List ℕ) (new : Option Told) → CutsTo (Some (firm bytes)) new → new ≡ Some (firm bytes) }
{}

/// After a write a power cut may leave exactly what it might have left before, with anything in the range.
pub fn a_write_loosens_its_range_alone()
    ensures { (at : ℕ) (bytes : List ℕ) (t : Told) (left : List ℕ)
        → at + length bytes ≤ length t.bytes → length t.loose ≡ length t.bytes
        → Image (with_bytes at bytes t) left ↔ UnderWrite at (length bytes) t left }
{}

/// A call is a stretch of one call, with its mark if it has one.
pub fn a_call_is_a_run()
    ensures { (mark : Option Mark) (old new : DiskState) → Call mark old new → Runs (option_to_list mark) 1 old new }
{}

/// Two stretches of calls, one after the other, are one.
pub fn runs_compose()
    ensures { (first second : List Mark) (m n : ℕ) (a b c : DiskState)
        → Runs first m a b → Runs second n b c → Runs (first ++ second) (m + n) a c }
{}

/// No stretch of calls forgets what a disk told of its past, or lowers its count.
pub fn runs_only_add()
    ensures { (marks : List Mark) (most : ℕ) (old new : DiskState) → Runs marks most old new → Later old new }
{}

/// A state that is later than a later one is later.
pub fn later_states_compose()
    ensures { (a b c : DiskState) → Later a b → Later b c → Later a c }
{}

/// A told past grows at each call.
pub fn a_call_grows_the_past()
    ensures { (mark : Option Mark) (old new : DiskState) → Call mark old new → Grows old new }
{}

/// On a quiet disk no call fails in a stretch that arms nothing.
pub fn a_quiet_disk_fails_no_call()
    ensures { (marks : List Mark) (most : ℕ) (old new : DiskState)
        → IsQuiet old → arms_nothing marks ≡ true → Runs marks most old new → ¬ Rose old.faults new.faults }
{}
