//! What is known of a log between two of its lines.
ghost use Rattle.std.specs.Prelude.{◌≡◌, ◌+◌, ◌*◌, ◌<◌, ◌≤◌, ◌++◌, [], length, replicate, slice_index};
ghost use Rattle.std.specs.Prelude.{IfOk, IfSome, None, if◌then◌else◌};
ghost use Rattle.std.specs.List.{position_or_len};
ghost use Rattle.text_lines.specs.Lines.{is_line_feed};
ghost use Rattle.std.specs.List.{flat_map};
ghost use Rattle.watch_commands.specs.Limits.{limits_in};
ghost use Rattle.watch_commands.specs.Times.{no_times, time_by};
ghost use Rattle.watch_commands.specs.States.{heard_after, silence_at};
ghost use Rattle.watch_commands.specs.WatchTotals.{total_line_at, map_places, counts_text, line_over_at, log_over};
ghost use Rattle.watch_commands.specs.WatchTotals.{passes_at, all_pass, log_passes};
ghost use Rattle.watch_commands.specs.States.{IsFreshWatch, WatchesNext, JudgesLine, IsPlaced, counts_after};
ghost use Rattle.watch_commands.specs.States.{raised_at, accepted_place, failed_place, totals_in, end_text, end_status};

use crate::answers::add_answer;
use crate::counts::{LineCounts, WatchCounts, add_counts, add_line_counts};
use crate::limits::is_within;
use crate::over::{add_line_beyond, add_log_over};
use crate::stamps::Stamp;
use crate::task::WatchTask;
use crate::times::{HeardTimes, LogClock, Silence};
use can_logs::{FrameTally, OtherLine, counters_of, push_finding};
use line_stream::PIECE;
use std::alloc::{AllocError, Global};
use std::marker::Model;
use text_lines::span::Span;
use text_lines::words::{Words, put_words};

/// The most bytes of a line that is looked at, its line feed not counted.
const LINE_LIMIT: usize = 4096;

/// The most bytes that are printed for a line, as an object of JSON, but for its time and channel.
const FINDING_ROOM: usize = 368;

/// The most bytes that are printed for a byte of a line in its time or its channel: each has at most six as a string of
/// JSON has it, and neither is longer than the line.
const STAMP_ROOM: usize = 12;

/// The most bytes of the answer to a frame.
const ANSWER_ROOM: usize = 232;

/// The most bytes that are printed at the end of a log, or for a piece: each of its bytes could end a line. The first
/// line may have begun before the piece.
const TEXT_ROOM: usize = FINDING_ROOM * (PIECE + 1) + STAMP_ROOM * (LINE_LIMIT + 1 + PIECE);

/// What is known of a log after the lines that were taken: the map, and for each of its lines the counter, how many
/// frames were accepted and how many weren't; the numbers of the log; and what was found of the last lines. All room is
/// taken when it is made.
#[derive(Drop)]
pub struct Watch {
    map: WatchTask,
    counters: Vec<u64>,
    accepted: Vec<u64>,
    failed: Vec<u64>,
    counts: WatchCounts,
    clock: LogClock,
    times: Vec<HeardTimes>,
    text: Vec<u8>,
    answer: Vec<u8>,
    spans: Vec<Span>,
}

impl Model for Watch {
    ghost use Rattle.std.specs.Prelude.{◌≡◌, ◌≤◌, length, vec_capacity};
    ghost use Rattle.watch_commands.specs.States.{WatchState};

    ghost Value = { WatchState };

    ghost view = { λ w. record {
      mapping = w.map;
      counters = w.counters.items;
      accepted = w.accepted.items;
      failed = w.failed.items;
      counts = w.counts;
      clock = w.clock;
      times = w.times.items;
      text = w.text.items;
    } };

    ghost invariant = { λ w. (length w.counters.items ≡ length w.map.lines)
        × (length w.accepted.items ≡ length w.map.lines) × (length w.failed.items ≡ length w.map.lines)
        × (length w.times.items ≡ length w.map.lines)
        × (1606012 ≤ vec_capacity w.text) × (232 ≤ vec_capacity w.answer) × (4097 ≤ vec_capacity w.spans) };
}

impl Watch {
    /// Before the log, by the lines of a map.
    pub fn new(alloc: Global, map: WatchTask) -> Result<Watch, AllocError>
        ensures mapping { IfOk result (λ watch. watch.mapping ≡ map) }
        ensures before { IfOk result IsFreshWatch }
    {
        let counters = counters_of(alloc, map.lines())?;
        let accepted = zeros(alloc, map.lines().len())?;
        let failed = zeros(alloc, map.lines().len())?;
        let times = no_times(alloc, map.lines().len())?;
        let text = Vec::with_capacity(alloc, TEXT_ROOM)?;
        let answer = Vec::with_capacity(alloc, ANSWER_ROOM)?;
        let spans = Vec::with_capacity(alloc, LINE_LIMIT + 1)?;
        Ok(Watch {
            map,
            counters,
            accepted,
            failed,
            counts: WatchCounts::none(),
            clock: LogClock::none(),
            times,
            text,
            answer,
            spans,
        })
    }

    /// Takes the line with this number, of which 4,097 bytes at most are kept, and adds what is found of it. It takes no
    /// memory.
    pub fn take(&mut self, number: u64, line: &[u8])
        requires one { position_or_len is_line_feed line.now ≡ length line.now }
        requires room { length self.old.text + 12 * length line.now + 368 ≤ 1606012 }
        ensures few { length self.new.text ≤ length self.old.text + 12 * length line.now + 368 }
        ensures takes { WatchesNext self.old number line.now self.new }
    {
        let judged = self.judge_line(number, line);
        self.count(judged.tally);
        self.hear(judged);
    }

    /// What was found of the last lines, or at the end of the log.
    pub fn text(&self) -> &[u8]
        ensures { result.now ≡ self.now.text }
    {
        self.text.as_slice()
    }

    /// What was found of the last lines was printed or compared.
    pub fn begin_text(&mut self)
        ensures { self.new ≡ record self.old { text = [] } }
    {
        self.text.clear();
    }

    /// The end of the log: adds a line for each line of the map, the five numbers, and a line for each number that is
    /// more than it may be. It gives the status that the program ends with, and takes no memory.
    pub fn end(&mut self) -> u8
        requires { length self.old.text ≤ 49532 }
        ensures text { self.new ≡ record self.old { text = self.old.text ++ end_text self.old } }
        ensures status { result ≡ end_status self.old }
    {
        self.push_totals();
        self.push_over();
        self.status()
    }

    /// The status at the end of the log: 1 if a mapped frame wasn't accepted, 3 if a line of the map that isn't
    /// optional accepted none, or a number is more than it may be, else 0.
    fn status(&self) -> u8
        ensures { result ≡ end_status self.now }
    {
        if self.counts.failed > 0 {
            return 1;
        }
        if self.all_pass() && self.log_passes() {
            0
        } else {
            3
        }
    }

    /// Whether the map has lines, and each passes.
    fn all_pass(&self) -> bool
        ensures { result ≡ all_pass self.now.mapping (totals_in self.now) }
    {
        let size = self.map.lines().len();
        let mut each = true;
        for place in 0..size {
            each = each && self.passes_at(place);
        }
        each && size > 0
    }

    /// Whether the line of the map at a place passes.
    fn passes_at(&self, place: usize) -> bool
        requires { place < length self.now.mapping.lines }
        ensures { result ≡ passes_at self.now.mapping (totals_in self.now) place }
    {
        let limits = self.map.options().limits_in();
        self.counts_at(place)
            .does_pass(&self.map.lines()[place], &limits)
    }

    /// Whether the whole log is within its limits.
    fn log_passes(&self) -> bool
        ensures { result ≡ log_passes (limits_in self.now.mapping.options) self.now.counts }
    {
        let limits = self.map.options().limits_in();
        is_within(limits.malformed, self.counts.malformed)
            && is_within(limits.unmapped, self.counts.unmapped)
    }

    /// The numbers of the line of the map at a place.
    fn counts_at(&self, place: usize) -> LineCounts
        requires { place < length self.now.mapping.lines }
        ensures { result ≡ totals_in self.now place }
    {
        LineCounts {
            number: self.map.numbers()[place],
            accepted: self.accepted[place],
            failed: self.failed[place],
            last: self.counters[place],
            silence: self.silence_at(place),
        }
    }

    /// Counts a line by what it counts as.
    fn count(&mut self, tally: Option<FrameTally>)
        requires { IfSome tally (IsPlaced (length self.old.mapping.lines)) }
        ensures { self.new ≡ record self.old {
          accepted = raised_at (accepted_place tally) self.old.accepted;
          failed = raised_at (failed_place tally) self.old.failed;
          counts = counts_after tally self.old.counts;
        } }
    {
        self.counts.count(tally);
        match tally {
            Some(FrameTally::Accepted(place)) => {
                self.accepted[place] = self.accepted[place].saturating_add(1);
            }
            Some(FrameTally::Failed(place)) => {
                self.failed[place] = self.failed[place].saturating_add(1);
            }
            Some(FrameTally::Other(_)) | None => (),
        }
    }

    /// The log's moments go on by a line, and a line of the map that accepted its frame was heard.
    fn hear(&mut self, judged: Judged)
        requires { IfSome judged.tally (IsPlaced (length self.old.mapping.lines)) }
        ensures { self.new ≡ heard_after judged.tally judged.time self.old }
    {
        self.clock.see(judged.time);
        let Some(FrameTally::Accepted(place)) = judged.tally else {
            return;
        };
        if judged.time.is_none() {
            return;
        }
        let Some(begin) = self.clock.begin else {
            return;
        };
        let Some(moment) = self.clock.moment else {
            return;
        };
        self.times[place] = self.times[place].heard(begin, moment);
    }

    /// Adds what is found of a line, and tells what it counts as and its time; neither if it is skipped.
    fn judge_line(&mut self, number: u64, line: &[u8]) -> Judged
        requires one { position_or_len is_line_feed line.now ≡ length line.now }
        requires room { length self.old.text + 12 * length line.now + 368 ≤ 1606012 }
        ensures few { length self.new.text ≤ length self.old.text + 12 * length line.now + 368 }
        ensures judges { JudgesLine self.old number line.now self.new result.tally result.time }
        ensures placed { IfSome result.tally (IsPlaced (length self.old.mapping.lines)) }
    {
        if line.len() > LINE_LIMIT {
            return Judged {
                tally: Some(FrameTally::Other(OtherLine::Malformed)),
                time: None,
            };
        }
        put_words(&mut self.spans, line).unwrap();
        let words = Words::of(line, self.spans.as_slice());
        if words.is_skipped() {
            return Judged {
                tally: None,
                time: None,
            };
        }
        let stamp = Stamp::of(&words);
        self.answer.clear();
        let tally = push_finding(
            self.map.table(),
            self.counters.as_mut_slice(),
            number,
            &words,
            &mut self.answer,
        )
        .unwrap();
        add_answer(
            &mut self.text,
            &self.map,
            number,
            tally,
            &stamp,
            self.answer.as_slice(),
        );
        Judged {
            tally: Some(tally),
            time: time_of(self.map.wants_times(), tally, &stamp),
        }
    }

    /// The longest silence of the line of the map at a place, if the log ends here.
    fn silence_at(&self, place: usize) -> Silence
        requires { place < length self.now.mapping.lines }
        ensures { result ≡ silence_at self.now place }
    {
        let Some(begin) = self.clock.begin else {
            return Silence::endless();
        };
        let Some(moment) = self.clock.moment else {
            return Silence::endless();
        };
        self.times[place].until(begin, moment)
    }

    /// Adds a line for each line of the map, and one for each number.
    fn push_totals(&mut self)
        requires { length self.old.text ≤ 49532 }
        ensures text { self.new ≡ record self.old {
          text = self.old.text ++ flat_map (total_line_at self.old.mapping (totals_in self.old))
              (map_places self.old.mapping) ++ counts_text self.old.mapping.options.json self.old.counts;
        } }
        ensures few { length self.new.text ≤ 142048 }
    {
        let size = self.map.lines().len();
        for place in 0..size {
            self.push_line_counts(place);
        }
        add_counts(&mut self.text, self.map.options().json, &self.counts);
    }

    /// Adds the line of the map's line at a place.
    fn push_line_counts(&mut self, place: usize)
        requires place { place < length self.old.mapping.lines }
        requires room { length self.old.text + 360 ≤ 1606012 }
        ensures text { self.new ≡ record self.old {
          text = self.old.text ++ total_line_at self.old.mapping (totals_in self.old) place;
        } }
        ensures few { length self.new.text ≤ length self.old.text + 360 }
    {
        let counts = self.counts_at(place);
        let json = self.map.options().json;
        add_line_counts(&mut self.text, json, &self.map.lines()[place], &counts);
    }

    /// Adds a line for each number that is more than it may be.
    fn push_over(&mut self)
        requires { length self.old.text ≤ 142048 }
        ensures { self.new ≡ record self.old {
          text = self.old.text ++ flat_map (line_over_at self.old.mapping (totals_in self.old))
              (map_places self.old.mapping) ++ log_over self.old.mapping.options self.old.counts;
        } }
    {
        let size = self.map.lines().len();
        for place in 0..size {
            self.push_line_over(place);
        }
        add_log_over(&mut self.text, self.map.options(), &self.counts);
    }

    /// Adds a line for each number of the map's line at a place that is more than it may be.
    fn push_line_over(&mut self, place: usize)
        requires place { place < length self.old.mapping.lines }
        requires room { length self.old.text + 1060 ≤ 1606012 }
        ensures text { self.new ≡ record self.old {
          text = self.old.text ++ line_over_at self.old.mapping (totals_in self.old) place;
        } }
        ensures few { length self.new.text ≤ length self.old.text + 1060 }
    {
        let counts = self.counts_at(place);
        let options = self.map.options();
        add_line_beyond(&mut self.text, options, &self.map.lines()[place], &counts);
    }
}

/// What a line counts as, and its time in microseconds if times are looked at, and it isn't malformed and has one.
#[derive(Clone, Copy)]
struct Judged {
    tally: Option<FrameTally>,
    time: Option<u64>,
}

/// The time of a line that isn't malformed, if it is wanted.
fn time_of(wanted: bool, tally: FrameTally, stamp: &Stamp<'_>) -> Option<u64>
    ensures { result ≡ (if wanted then time_by tally stamp.now else None) }
{
    if !wanted {
        return None;
    }
    if let FrameTally::Other(OtherLine::Malformed) = tally {
        return None;
    }
    stamp.seconds()
}

/// As many times of lines that weren't heard.
fn no_times(alloc: Global, count: usize) -> Result<Vec<HeardTimes>, AllocError>
    ensures { IfOk result (λ times. times.items ≡ replicate count no_times) }
{
    let mut times = Vec::new(alloc);
    times.resize(count, HeardTimes::none())?;
    Ok(times)
}

/// As many zeros.
fn zeros(alloc: Global, count: usize) -> Result<Vec<u64>, AllocError>
    ensures { IfOk result (λ numbers. numbers.items ≡ replicate count 0) }
{
    let mut numbers = Vec::new(alloc);
    numbers.resize(count, 0)?;
    Ok(numbers)
}
