//! What holds of the texts of lines: the contract of a function is the law, and its body is empty.
ghost use Rattle.std.specs.Prelude.{◌≡◌, ◌<◌, ◌^◌, ◌++◌, ℕ, List, All, length};
ghost use Rattle.bus_machine.specs.declared.lines.Line.{Line};
ghost use Rattle.bus_script.specs.LineTexts.{line_text, text_of};
ghost use Rattle.bus_machine.specs.LineKinds.{IsLine};

/// Lists of lines that have one text are the same.
pub fn texts_are_one_to_one()
    ensures { (lines others : List Line) → All IsLine lines → All IsLine others → text_of lines ≡ text_of others
        → lines ≡ others }
{}

/// Lines and their numbers that have one text are the same, whatever stands after it.
pub fn a_line_is_read_from_its_text()
    ensures { (number other : ℕ) (line same : Line) (rest tail : List ℕ) → number < 2 ^ 64 → other < 2 ^ 64
        → IsLine line → IsLine same
        → line_text number line ++ rest ≡ line_text other same ++ tail
        → (number ≡ other) × (line ≡ same) × (rest ≡ tail) }
{}
