//! The rules of a map: which frames a node takes, and where its answers go.
ghost use Rattle.std.specs.Prelude.{◌≡◌, ◌<◌, ◌^◌, length, IfOk};
ghost use Rattle.std.specs.List.{list_any};
ghost use Rattle.text_lines.specs.Readings.{Gives, GivesLine};
ghost use Rattle.endpoint_commands.specs.Rules.{rule_direction_form, named_channel, may_meet, takes_also as also_taken};
ghost use Rattle.endpoint_commands.specs.Rules.{is_free_can, free_can_form, routed_id_form, rule_with, rules_of};
ghost use Rattle.endpoint_commands.specs.Rules.{takes_frame};
ghost use Rattle.endpoint_commands.specs.Rules.{place_of_rule as rule_place, taken_size as size_taken};

use basics::Bytes;
use can_logs::{CanId, PayloadSize, can_id, has_data_can};
use freshness_routes::{Direction, Route};
use secoc_node::place_of;
use std::alloc::Global;
use text_lines::reader::{LineReader, expect_count, read_lines, value_at};
use text_lines::words::Words;
use text_lines::{Cause, LineFault, Memory, ScriptFault, forms};

/// The most lines that a map has.
pub const MOST_RULES: usize = 512;

/// A line of a map: frames that the node takes, and where the answers to them go.
#[derive(Debug, Drop)]
pub struct FrameRule {
    /// Whether the node sends the data of these frames or receives them.
    pub direction: Direction,
    /// Their CAN identifier, which the answers have, too.
    pub can: CanId,
    /// The Data ID of the node's route.
    pub id: u16,
    /// The length of the payload.
    pub size: PayloadSize,
    /// The channel on which they come; any where there is none.
    pub from: Option<Bytes>,
    /// The channel of the answers.
    pub to: Bytes,
}

impl FrameRule {
    /// How many of a frame's first data bytes are taken: the payload, and of a frame that is received the four bytes
    /// behind it, too.
    pub fn taken_size(&self) -> usize
        ensures { result ≡ size_taken self.now }
    {
        match self.direction {
            Direction::Sends => self.size.get(),
            Direction::Receives => self.size.get() + 4,
        }
    }
}

/// What a line does with frames, by its first word.
#[tactic(auto, unfolding(crate::specs::Rules::rule_direction_form))]
fn direction_of(word: &[u8]) -> Option<Direction>
    ensures { result ≡ rule_direction_form word.now }
{
    if word == b"send".as_slice() {
        return Some(Direction::Sends);
    }
    if word == b"receive".as_slice() {
        return Some(Direction::Receives);
    }
    None
}

/// The channel that a word names; none for `-`.
fn channel_of(alloc: Global, word: &[u8]) -> Result<Option<Bytes>, Memory>
    ensures { IfOk result (λ channel. channel ≡ named_channel word.now) }
{
    if word == b"-".as_slice() {
        return Ok(None);
    }
    Ok(Some(Bytes::of(Vec::from_slice(alloc, word)?)))
}

/// Whether a frame can come on both.
fn can_meet(own: &Option<Bytes>, other: &Option<Bytes>) -> bool
    ensures { result ≡ may_meet own.now other.now }
{
    let Some(own) = own else {
        return true;
    };
    match other {
        Some(other) => own.bytes() == other.bytes(),
        None => true,
    }
}

/// Whether a rule takes frames of this CAN identifier that may come on this channel, too.
fn takes_also(rule: &FrameRule, can: &[u8], from: &Option<Bytes>) -> bool
    ensures { result ≡ also_taken can.now from.now rule.now }
{
    rule.can.digits() == can && can_meet(&rule.from, from)
}

/// Whether one of these rules does.
fn is_taken(rules: &[FrameRule], can: &[u8], from: &Option<Bytes>) -> bool
    ensures { result ≡ list_any (also_taken can.now from.now) rules.now }
{
    rules.iter().any(|rule| takes_also(rule, can, from))
}

/// Whether some data frame can have a CAN identifier, and no rule before takes one that may come on this channel.
fn can_be_taken(before: &[FrameRule], from: &Option<Bytes>, can: &[u8]) -> bool
    ensures { result ≡ is_free_can before.now from.now can.now }
{
    has_data_can(can) && !is_taken(before, can, from)
}

/// A CAN identifier that some data frame can have, and of which no rule before takes a frame that may come on this
/// channel.
#[tactic(auto, unfolding(crate::specs::Rules::free_can_form))]
fn free_can(before: &[FrameRule], from: &Option<Bytes>, word: &[u8]) -> Option<CanId>
    ensures { result ≡ free_can_form before.now from.now word.now }
{
    let can = can_id(word)?;
    if !can_be_taken(before, from, can.digits()) {
        return None;
    }
    Some(can)
}

/// The Data ID of a route in this direction.
#[tactic(auto, unfolding(crate::specs::Rules::routed_id_form))]
fn routed_id(routes: &[Route], direction: Direction, word: &[u8]) -> Option<u16>
    ensures { result ≡ routed_id_form routes.now direction word.now }
{
    let id = secoc_words::data_id(word)?;
    match place_of(routes, id, direction) {
        Some(_) => Some(id),
        None => None,
    }
}

/// The rule of a line with this first word.
#[tactic(auto, unfolding(crate::specs::Rules::rule_with))]
fn rule_of_words(
    alloc: Global,
    routes: &[Route],
    before: &[FrameRule],
    direction: Direction,
    words: &Words<'_>,
) -> Result<FrameRule, LineFault>
    requires { length words.now ≡ 6 }
    ensures { GivesLine (rule_with routes.now before.now direction words.now) result }
{
    let from = channel_of(alloc, words.word(5))?;
    let can = value_at(2, free_can(before, &from, words.word(2)))?;
    let id = value_at(3, routed_id(routes, direction, words.word(3)))?;
    let size = value_at(4, forms::number(words.word(4), 1, 60))?;
    let to = value_at(6, channel_of(alloc, words.word(6))?)?;
    Ok(FrameRule {
        direction,
        can,
        id,
        size: PayloadSize::of(size as u8),
        from,
        to,
    })
}

/// Reads a line of a map over a node with these routes.
#[derive(Clone, Copy)]
pub struct RuleReader<'a> {
    pub routes: &'a [Route],
}

impl<'a> LineReader for RuleReader<'a> {
    ghost use Rattle.endpoint_commands.specs.Rules.{rule_of};

    type Item = FrameRule;

    ghost means = { λ reader before words. rule_of reader.routes.now before words };

    #[tactic(auto, unfolding(crate::specs::Rules::rule_of))]
    fn read(
        &self,
        alloc: Global,
        words: &Words<'_>,
        before: &[FrameRule],
    ) -> Result<FrameRule, LineFault> {
        if words.is_empty() {
            return Err(LineFault::Refused(Cause::Event));
        }
        let Some(direction) = direction_of(words.word(1)) else {
            return Err(LineFault::Refused(Cause::Event));
        };
        expect_count(words, 6)?;
        rule_of_words(alloc, self.routes, before, direction, words)
    }
}

/// The rules of the lines of a map that aren't skipped, at most 512, over a node with these routes; or the first fault.
/// A line's cause is the first of: too many lines, neither `send` nor `receive`, a wrong number of words, and the
/// lowest word that isn't of its form.
#[tactic(auto, unfolding(crate::specs::Rules::rules_of))]
pub fn read_rules(
    alloc: Global,
    routes: &[Route],
    text: &[u8],
) -> Result<Vec<FrameRule>, ScriptFault>
    requires { length text.now < 2 ^ 32 }
    ensures { Gives (rules_of routes.now text.now) result }
{
    read_lines(alloc, text, MOST_RULES, &RuleReader { routes })
}

/// Whether a rule takes a frame of this CAN identifier on this channel.
fn does_take(rule: &FrameRule, can: &[u8], channel: &[u8]) -> bool
    ensures { result ≡ takes_frame can.now channel.now rule.now }
{
    if rule.can.digits() != can {
        return false;
    }
    match &rule.from {
        Some(own) => own.bytes() == channel,
        None => true,
    }
}

/// The place of the rule that takes a frame, counted from 0; `None` where none does.
pub fn place_of_rule(rules: &[FrameRule], can: &[u8], channel: &[u8]) -> Option<usize>
    ensures { result ≡ rule_place rules.now can.now channel.now }
{
    rules.iter().position(|rule| does_take(rule, can, channel))
}
