//! What holds of every list of lines of `frame`, `judge` and `load`.

ghost use Rattle.std.specs.Prelude.{◌≡◌, ◌≤◌, List, length, map, All, Ok};
ghost use Rattle.std.specs.List.{flat_map};
ghost use Rattle.memory_update.specs.declared.messages.Request.{Request};
ghost use Rattle.secoc_words.specs.declared.frames.FrameLine.{FrameLine};
ghost use Rattle.secoc_words.specs.declared.judges.JudgeLine.{JudgeLine};
ghost use Rattle.secoc_words.specs.Frames.{frames_of, judges_of, loads_of};
ghost use Rattle.text_lines.specs.Readings.{most_lines};
ghost use Rattle.secoc_words.specs.Written.{frame_words, judge_words, load_words, IsFrameLine, IsJudgeLine, IsLoad};
ghost use Rattle.text_lines.specs.Written.{written};

/// Law: each list of at most 65,536 lines of `frame` is what some text gives, namely its lines in lower-case digits
/// with single spaces.
pub fn written_frames_are_read()
    ensures { (lines : List FrameLine) → All IsFrameLine lines → length lines ≤ most_lines
        → frames_of (flat_map written (map frame_words lines)) ≡ Ok lines }
{}

/// Law: the same of lines of `judge`, if a PDU without bytes is written as `-`.
pub fn written_judges_are_read()
    ensures { (lines : List JudgeLine) → All IsJudgeLine lines → length lines ≤ most_lines
        → judges_of (flat_map written (map judge_words lines)) ≡ Ok lines }
{}

/// Law: the same of lines of `load`.
pub fn written_loads_are_read()
    ensures { (requests : List Request) → All IsLoad requests → length requests ≤ most_lines
        → loads_of (flat_map written (map load_words requests)) ≡ Ok requests }
{}
