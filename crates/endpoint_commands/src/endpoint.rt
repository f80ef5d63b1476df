//! A node between the channels of a bus.
ghost use Rattle.std.specs.Prelude.{◌≡◌, ◌+◌, ◌≤◌, ◌++◌, [], length, IfOk, All};
ghost use Rattle.std.specs.Prelude.{vec_capacity};
ghost use Rattle.std.specs.List.{position_or_len};
ghost use Rattle.text_lines.specs.Lines.{is_line_feed};
ghost use Rattle.secoc_node.specs.Words.{IsImage};
ghost use Rattle.endpoint_commands.specs.Counting.{counts_line};
ghost use Rattle.endpoint_commands.specs.States.{IsFreshEndpoint, AnswersNext, BootsFirst, HasRoomFor};

use crate::answering::add_comment;
use crate::counting::{EndpointCounts, LineKind};
use crate::rules::FrameRule;
use crate::turns::image_turn;
use crate::words_answered::answer_words;
use bus_port::{PortFailed, Sink, write_all};
use cell_store::Cells;
use secoc_node::Node;
use std::alloc::{AllocError, Global};
use std::marker::Model;
use text_lines::span::Span;
use text_lines::words::{Words, put_words};

/// The most bytes of a line that is looked at, its line feed not counted.
const LINE_LIMIT: usize = 4096;

/// The most bytes that are printed for a line, without the name of its channel.
const ANSWER_ROOM: usize = LINE_LIMIT + 302;

/// Room for the answer to a line, and for the places of its words.
#[derive(Drop)]
pub struct Room {
    text: Vec<u8>,
    spans: Vec<Span>,
}

impl Room {
    /// The room for the lines and answers of an endpoint with these rules.
    pub fn of(alloc: Global, rules: &[FrameRule]) -> Result<Room, AllocError>
        ensures { IfOk result (HasRoomFor rules.now) }
    {
        let spans = Vec::with_capacity(alloc, LINE_LIMIT + 1)?;
        let text = answer_room(alloc, rules)?;
        Ok(Room { text, spans })
    }
}

/// Room for the answers by these rules.
fn answer_room(alloc: Global, rules: &[FrameRule]) -> Result<Vec<u8>, AllocError>
    ensures text { IfOk result (λ text. 4398 ≤ vec_capacity text) }
    ensures answers { IfOk result (λ text. All (λ r. length r.to + 4398 ≤ vec_capacity text) rules.now) }
{
    let mut text = Vec::with_capacity(alloc, ANSWER_ROOM)?;
    for rule in rules {
        text.reserve(ANSWER_ROOM + rule.to.bytes().len())?;
    }
    Ok(text)
}

/// A node, the rules of a map, and the counts of the lines of a log that were taken. All room is taken when it is made.
#[derive(Drop)]
pub struct Endpoint<C: Cells> {
    node: Node<C>,
    rules: Vec<FrameRule>,
    counts: EndpointCounts,
    text: Vec<u8>,
    spans: Vec<Span>,
}

impl<C: Cells> Model for Endpoint<C> {
    ghost use Rattle.std.specs.Prelude.{◌+◌, ◌≤◌, length, vec_capacity, All};
    ghost use Rattle.endpoint_commands.specs.States.{EndpointState};

    ghost Value = { EndpointState };

    ghost view = { λ e. record {
      rules = e.rules.items;
      node = e.node;
      counts = e.counts;
      text = e.text.items;
    } };

    ghost invariant = { λ e. (4097 ≤ vec_capacity e.spans) × (4398 ≤ vec_capacity e.text)
        × All (λ r. length r.to + 4398 ≤ vec_capacity e.text) e.rules.items };
}

impl<C: Cells> Endpoint<C> {
    /// Before the log.
    pub fn new(node: Node<C>, rules: Vec<FrameRule>, room: Room) -> Endpoint<C>
        requires { HasRoomFor rules.items room }
        ensures rules { result.rules ≡ rules.items }
        ensures node { result.node ≡ node }
        ensures before { IsFreshEndpoint result }
    {
        let Room { text, spans } = room;
        Endpoint {
            node,
            rules,
            counts: EndpointCounts::none(),
            text,
            spans,
        }
    }

    /// The node.
    pub fn release(self) -> Node<C>
        ensures { result ≡ self.node }
    {
        let Endpoint { node, .. } = self;
        node
    }

    /// Boots the node with an image of 1 to 65,536 bytes, and prints what it tells. It takes no memory.
    pub fn boot<K: Sink>(&mut self, image: &[u8], sink: &mut K) -> Result<(), PortFailed>
        requires { IsImage image.now }
        ensures { BootsFirst image.now self.old (K.state sink.old) self.new (K.state sink.new) result }
    {
        self.text.clear();
        let told = image_turn(&mut self.node, image);
        add_comment(&mut self.text, &told).unwrap();
        write_all(sink, self.text.as_slice())
    }

    /// Does what the line with this number asks for, of which 4,097 bytes at most are kept. Its answer is then the text.
    /// Whether the disk failed. It takes no memory.
    pub fn answer(&mut self, number: u64, line: &[u8]) -> bool
        requires { position_or_len is_line_feed line.now ≡ length line.now }
        ensures { AnswersNext (record self.old { text = [] }) number line.now self.new result }
    {
        self.text.clear();
        self.answer_line(number, line)
    }

    /// What is printed next.
    pub fn text(&self) -> &[u8]
        ensures { result.now ≡ self.now.text }
    {
        self.text.as_slice()
    }

    /// The line with the counts is then the text.
    pub fn push_counts(&mut self)
        ensures { self.new ≡ record self.old { text = counts_line self.old.counts } }
    {
        self.text.clear();
        self.counts.push_line(&mut self.text).unwrap();
    }

    /// Does what the line asks for and adds its answer. Whether the disk failed.
    fn answer_line(&mut self, number: u64, line: &[u8]) -> bool
        requires one { position_or_len is_line_feed line.now ≡ length line.now }
        requires empty { self.old.text ≡ [] }
        ensures { AnswersNext self.old number line.now self.new result }
    {
        if line.len() > LINE_LIMIT {
            self.counts.count(LineKind::Other);
            return false;
        }
        put_words(&mut self.spans, line).unwrap();
        let words = Words::of(line, self.spans.as_slice());
        if words.is_skipped() {
            return false;
        }
        answer_words(
            &mut self.node,
            self.rules.as_slice(),
            number,
            &words,
            &mut self.counts,
            &mut self.text,
        )
    }
}
