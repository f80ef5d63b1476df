//! What is said of a line of a log.
ghost use Rattle.std.specs.Prelude.{◌≡◌, ◌<◌, length, Some};
ghost use Rattle.explain_commands.specs.Trials.{accepted_freshness};
ghost use Rattle.explain_commands.specs.Explaining.{answer_by, answer_words};

use crate::kinds::{Case, Explained};
use crate::reasons::explain;
use crate::recent::{Accepted, Recent};
use can_logs::{WatchMap, log_frame};
use text_lines::words::Words;

/// What is said of a line of a log.
#[derive(Clone, Copy)]
pub enum LineAnswer {
    /// Nothing: it has no data frame that a line of the map hears.
    Silent,
    /// The frame is accepted.
    Accepted(Accepted),
    /// The frame fails: the number of the log's line, the place of the map's line, counted from 0, and why.
    Failed(u64, usize, Explained),
}

/// What is said of the words of a line of a log, by what is known before it.
#[tactic(auto, unfolding(crate::specs::Explaining::answer_words))]
pub fn answer_words(
    map: &WatchMap,
    counters: &[u64],
    recent: &Recent,
    number: u64,
    words: &Words<'_>,
) -> LineAnswer
    requires { length counters.now ≡ length map.now.lines }
    ensures { result ≡ answer_words (record { mapping = map.now; counters = counters.now; recent = recent.now })
        number words.now }
{
    let Some(frame) = log_frame(words) else {
        return LineAnswer::Silent;
    };
    let Some(place) = map.table().place_for(frame.can.digits(), words.word(2)) else {
        return LineAnswer::Silent;
    };
    let case = Case::of(map, counters, recent, place, frame.bytes.bytes());
    answer_case(&case, number)
}

/// What is said of a frame that a line of the map hears.
fn answer_case(case: &Case<'_>, number: u64) -> LineAnswer
    ensures { result ≡ answer_by case.now number (accepted_freshness case.now.receiver case.now.bytes) }
{
    match case.accepted() {
        Some(freshness) => LineAnswer::Accepted(Accepted {
            number,
            place: case.place(),
            freshness,
            tag: case.tag(),
        }),
        None => LineAnswer::Failed(number, case.place(), explain(case)),
    }
}
