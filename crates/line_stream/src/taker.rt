//! What the lines of a log are handed to.
ghost use Rattle.std.specs.Prelude.{◌≡◌, ℕ, ◌-◌, ◌<◌, ◌≤◌, List, [], length, OnOk, Result};
ghost use Rattle.std.specs.List.{position_or_len};
ghost use Rattle.text_lines.specs.Lines.{is_line_feed};
ghost use Rattle.line_stream.specs.Unended.{HasLineRoom};

/// What the lines of a log are handed to, one after another. What it prints for a line it prints in `take`, or in the
/// next `pause` at the latest, if its answers aren't to wait for more of the log.
pub trait LineTaker {
    /// What it gives if it ends the log, or the log ended.
    type End: Drop;

    /// What is known of it between two lines.
    ghost State: { Type 0 };

    ghost state: { Self → State };

    /// Up to the next pause it has room for lines of so many bytes in all, and for so many ends of lines.
    ghost ready: { Self → ℕ → ℕ → Type 0 } = { λ _ _ _. Unit {0} };

    /// The names of the borrows that it holds, and keeps.
    ghost borrows: { Self → List ℕ } = { λ _. [] };

    /// From this state the line with this number leads to that state. It lets the log go on, or ends it.
    ghost takes: { State → ℕ → List ℕ → State → Result (Unit {0}) Self.End → Type 0 };

    /// From this state a pause leads to that state. It lets the log go on, or ends it.
    ghost pauses: { State → State → Result (Unit {0}) Self.End → Type 0 };

    /// From this state the end of the log leads to that state and end.
    ghost ends: { State → State → Self.End → Type 0 };

    /// Takes a line without its line feed. The line with number 1 is the first, and from 2^64 - 1 on all have this
    /// number. Of a line of more than 4,096 bytes it gets the first 4,097.
    fn take(&mut self, number: u64, line: &[u8]) -> Result<(), Self::End>
        requires one { position_or_len is_line_feed line.now ≡ length line.now }
        requires room { HasLineRoom ready self.old (length line.now) 1 }
        ensures ready { OnOk result ((bytes feeds : ℕ) → ready self.old bytes feeds → length line.now ≤ bytes
            → 0 < feeds → ready self.new (bytes - length line.now) (feeds - 1)) }
        ensures borrows { borrows self.new ≡ borrows self.old }
        ensures takes { takes (state self.old) number line.now (state self.new) result };

    /// All lines were taken that are complete with what came of the log so far. The log is read next. If it had room
    /// before, it has that of a whole piece again.
    fn pause(&mut self) -> Result<(), Self::End>
        ensures ready { OnOk result (HasLineRoom ready self.old 0 0 → ready self.new 8193 4097) }
        ensures borrows { borrows self.new ≡ borrows self.old }
        ensures pauses { pauses (state self.old) (state self.new) result };

    /// The log ended, and its last line was taken.
    fn finish(&mut self) -> Self::End
        requires { HasLineRoom ready self.old 4096 4096 }
        ensures borrows { borrows self.new ≡ borrows self.old }
        ensures ends { ends (state self.old) (state self.new) result };
}
