//! What is done of the words of a line.
ghost use Rattle.std.specs.Prelude.{◌≡◌, ◌+◌, ◌≤◌, [], length, All, Some};
ghost use Rattle.std.specs.Prelude.{vec_capacity};
ghost use Rattle.text_lines.specs.Readings.{nth_word};
ghost use Rattle.endpoint_commands.specs.Asking.{asked_of_words as asked_by_words};
ghost use Rattle.endpoint_commands.specs.Running.{tells_failed_disk};
ghost use Rattle.endpoint_commands.specs.States.{AnswersWords, ToldOfFrame};

use crate::answering::{add_frame_answer, add_load_comment};
use crate::asking::{Asked, asked_of_words};
use crate::counting::{EndpointCounts, LineKind};
use crate::rules::FrameRule;
use crate::turns::{frame_turn, request_turn};
use bus_machine::{Line, Refusal};
use cell_store::Cells;
use secoc_node::Node;
use text_lines::words::Words;

/// Whether a line tells that the disk failed.
fn tells_failure(told: &Line) -> bool
    ensures { result ≡ tells_failed_disk (Some told.now) }
{
    match told {
        Line::Refused(Refusal::MemoryFailure) => true,
        _ => false,
    }
}

/// What is told of a frame: what the node tells, or that it has too few bytes.
fn told_of_frame<C: Cells>(node: &mut Node<C>, rule: &FrameRule, bytes: &[u8]) -> Line
    ensures { ToldOfFrame rule.now bytes.now node.old result node.new }
{
    if bytes.len() < rule.taken_size() {
        return Line::Refused(Refusal::BadLength);
    }
    frame_turn(node, rule, bytes)
}

/// Does what the words of a line that isn't skipped ask for, adds its answer and counts the line. Whether the disk
/// failed. It takes no memory.
pub fn answer_words<C: Cells>(
    node: &mut Node<C>,
    rules: &[FrameRule],
    number: u64,
    words: &Words<'_>,
    counts: &mut EndpointCounts,
    text: &mut Vec<u8>,
) -> bool
    requires empty { text.old.items ≡ [] }
    requires time { length (nth_word words.now 1) ≤ 4096 }
    requires room { 4398 ≤ vec_capacity text.old }
    requires answers { All (λ r. length r.to + 4398 ≤ vec_capacity text.old) rules.now }
    ensures answers { AnswersWords rules.now number words.now (asked_by_words rules.now words.now) node.old node.new
        text.old.items text.new.items counts.old counts.new result }
    ensures capacity { vec_capacity text.old ≤ vec_capacity text.new }
{
    match asked_of_words(rules, words) {
        Asked::Nothing => false,
        Asked::Other => {
            counts.count(LineKind::Other);
            false
        }
        Asked::Frame { place, bytes } => {
            let rule = &rules[place];
            let told = told_of_frame(node, rule, bytes.bytes());
            add_frame_answer(text, rule, number, words, &told).unwrap();
            counts.count(LineKind::of_told(&told));
            tells_failure(&told)
        }
        Asked::Load { request } => {
            let told = request_turn(node, &request);
            add_load_comment(text, number, &told).unwrap();
            tells_failure(&told)
        }
    }
}
