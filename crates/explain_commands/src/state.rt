//! What is known of a log between two of its lines.
ghost use Rattle.std.specs.Prelude.{◌≡◌, ◌+◌, ◌<◌, ◌≤◌, [], length, IfOk};
ghost use Rattle.std.specs.List.{position_or_len};
ghost use Rattle.text_lines.specs.Lines.{is_line_feed};
ghost use Rattle.explain_commands.specs.Explaining.{answer_line, has_risen_at, have_risen};
ghost use Rattle.explain_commands.specs.ExplainStates.{IsFreshExplainer, known_by, after_answer};
ghost use Rattle.explain_commands.specs.ExplainStates.{IsPlacedAnswer, end_explained};
ghost use Rattle.explain_commands.specs.declared.answers.LineAnswer.TheVariants as answer;

use crate::answers::{LineAnswer, answer_words};
use crate::kinds::Explained;
use crate::recent::{Accepted, Recent};
use crate::texts::push_explained;
use can_logs::{WatchMap, counters_of};
use line_stream::PIECE;
use std::alloc::{AllocError, Global};
use std::marker::Model;
use text_lines::span::Span;
use text_lines::words::{Words, put_words};

/// The most bytes of a line that is looked at, its line feed not counted.
const LINE_LIMIT: usize = 4096;

/// The most bytes that are printed for a line.
const LINE_ROOM: usize = 320;

/// The most bytes that are printed for a piece: each of its bytes could end a line.
const TEXT_ROOM: usize = LINE_ROOM * (PIECE + 1);

/// What is known of a log after the lines that were taken: the map with the counters of its lines, the frames that were
/// accepted last, whether a frame failed, and what is said of the last lines. All room is taken when it is made.
#[derive(Drop)]
pub(crate) struct Explainer {
    map: WatchMap,
    counters: Vec<u64>,
    recent: Recent,
    failed: bool,
    text: Vec<u8>,
    spans: Vec<Span>,
}

impl Model for Explainer {
    ghost use Rattle.std.specs.Prelude.{◌≡◌, ◌≤◌, length, vec_capacity};
    ghost use Rattle.explain_commands.specs.ExplainStates.{ExplainState};

    ghost Value = { ExplainState };

    ghost view = { λ e. record {
      mapping = e.map;
      counters = e.counters.items;
      recent = e.recent;
      failed = e.failed;
      text = e.text.items;
    } };

    ghost invariant = { λ e. (length e.counters.items ≡ length e.map.lines) × (1311040 ≤ vec_capacity e.text)
        × (4097 ≤ vec_capacity e.spans) };
}

impl Explainer {
    /// Before the log, by the lines of a map.
    pub(crate) fn new(alloc: Global, map: WatchMap) -> Result<Explainer, AllocError>
        ensures mapping { IfOk result (λ explainer. explainer.mapping ≡ map) }
        ensures before { IfOk result IsFreshExplainer }
    {
        let counters = counters_of(alloc, map.lines())?;
        let recent = Recent::new(alloc)?;
        let text = Vec::with_capacity(alloc, TEXT_ROOM)?;
        let spans = Vec::with_capacity(alloc, LINE_LIMIT + 1)?;
        Ok(Explainer {
            map,
            counters,
            recent,
            failed: false,
            text,
            spans,
        })
    }

    /// What is said of the last lines.
    pub(crate) fn text(&self) -> &[u8]
        ensures { result.now ≡ self.now.text }
    {
        self.text.as_slice()
    }

    /// What is said of the last lines was printed.
    pub(crate) fn begin_text(&mut self)
        ensures { self.new ≡ record self.old { text = [] } }
    {
        self.text.clear();
    }

    /// Takes a line, and adds why its frame fails, if it does. It takes no memory.
    pub(crate) fn take(&mut self, number: u64, line: &[u8])
        requires one { position_or_len is_line_feed line.now ≡ length line.now }
        requires room { length self.old.text + 320 ≤ 1311040 }
        ensures few { length self.new.text ≤ length self.old.text + 320 }
        ensures takes { self.new ≡ after_answer self.old (answer_line (known_by self.old) number line.now) }
    {
        let answer = self.answer(number, line);
        self.note(answer);
    }

    /// The status at the end of the log: 1 if a frame failed, 3 if a line of the map that isn't optional accepted none,
    /// else 0.
    pub(crate) fn status(&self) -> u8
        ensures { result ≡ end_explained self.now }
    {
        if self.failed {
            return 1;
        }
        if self.have_risen() { 0 } else { 3 }
    }

    /// Whether the map has lines, and each that isn't optional accepted a frame.
    fn have_risen(&self) -> bool
        ensures { result ≡ have_risen self.now.mapping self.now.counters }
    {
        let size = self.map.lines().len();
        let mut each = true;
        for place in 0..size {
            each = each && self.has_risen(place);
        }
        each && size > 0
    }

    /// Whether the line of the map at a place is optional, or accepted a frame.
    fn has_risen(&self, place: usize) -> bool
        requires { place < length self.now.mapping.lines }
        ensures { result ≡ has_risen_at self.now.mapping self.now.counters place }
    {
        let line = &self.map.lines()[place];
        line.optional || self.counters[place] > line.counter
    }

    /// The answer to a line.
    fn answer(&mut self, number: u64, line: &[u8]) -> LineAnswer
        requires { position_or_len is_line_feed line.now ≡ length line.now }
        ensures same { self.new ≡ self.old }
        ensures value { result ≡ answer_line (known_by self.old) number line.now }
        ensures placed { IsPlacedAnswer (length self.old.mapping.lines) result }
    {
        if line.len() > LINE_LIMIT {
            return LineAnswer::Silent;
        }
        put_words(&mut self.spans, line).unwrap();
        let words = Words::of(line, self.spans.as_slice());
        answer_words(
            &self.map,
            self.counters.as_slice(),
            &self.recent,
            number,
            &words,
        )
    }

    /// Keeps what an answer changes, and adds its text.
    fn note(&mut self, answer: LineAnswer)
        requires placed { IsPlacedAnswer (length self.old.mapping.lines) answer }
        requires room { length self.old.text + 320 ≤ 1311040 }
        ensures few { length self.new.text ≤ length self.old.text + 320 }
        ensures state { self.new ≡ after_answer self.old answer }
    {
        match answer {
            LineAnswer::Silent => (),
            LineAnswer::Accepted(accepted) => self.accept(accepted),
            LineAnswer::Failed(number, place, explained) => self.fail(number, place, &explained),
        }
    }

    /// A frame was accepted.
    fn accept(&mut self, accepted: Accepted)
        requires { accepted.place < length self.old.mapping.lines }
        ensures { self.new ≡ after_answer self.old (answer.Accepted accepted) }
    {
        self.counters[accepted.place] = accepted.freshness;
        self.recent.note(accepted);
    }

    /// A frame failed: adds its line.
    fn fail(&mut self, number: u64, place: usize, explained: &Explained)
        requires place { place < length self.old.mapping.lines }
        requires room { length self.old.text + 320 ≤ 1311040 }
        ensures few { length self.new.text ≤ length self.old.text + 320 }
        ensures state { self.new ≡ after_answer self.old (answer.Failed number place explained.now) }
    {
        self.failed = true;
        let head = self.map.lines()[place].head();
        push_explained(&mut self.text, number, head, explained).unwrap();
    }
}
