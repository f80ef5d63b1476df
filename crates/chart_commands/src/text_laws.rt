//! What holds of every chart: the contract of a function is the law, and its body is empty.
ghost use Rattle.chart_commands.specs.GrammarLaws.{ChartsAreWellFormed, TitlesAreLines};

/// Every chart is a document of the grammar in specs/Grammar.antt. Each element that opens is closed by its own name,
/// in its order. No text and no value of an attribute has `<`, `>`, `&` or a quote of either kind. So nothing is
/// escaped.
pub fn charts_are_well_formed()
    ensures { ChartsAreWellFormed }
{}

/// The title of each row is the whole line of a replay, without its line feed.
pub fn titles_are_lines()
    ensures { TitlesAreLines }
{}
