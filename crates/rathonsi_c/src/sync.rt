//! A route that fell behind that of another unit: the other's answer to its question, made and taken.
ghost use Rattle.std.specs.Prelude.{◌≡◌, ◌≢◌, ◌↔◌, IsTrue, OnOk, IfOk, IfErr};
ghost use Rattle.counter_answers.specs.Answering.{answer_of};
ghost use Rattle.rathonsi_c.specs.Routes.{RouteAdvances};
ghost use Rattle.rathonsi_c.specs.Syncing.{way_of, far_way, asked_of, asked_by, question_for as asks_for, input_with};
ghost use Rattle.rathonsi_c.specs.Syncing.{SyncAnswerAnswers, AnsweredBy, SyncTakeAnswers, told_within, sync_verdict, input_of_answer};
ghost use Rattle.rathonsi_c.specs.Syncing.{AnswerInputAnswers, AnswerMacAnswers, TakeMacAnswers, EndsInCounter};

use crate::opened::move_counter;
use crate::route::{RathonsiRoute, make_ready};
use crate::secoc::{RathonsiVerdict, refusal as no_verdict};
use crate::steps::bound_ready;
use crate::{BAD_VALUE, FRESHNESS_FAILURE, OK, RESERVE, VERIFICATION_FAILURE};
use counter_answers::{CounterQuestion, answer_input, answer_with, counter_of, counter_with};
use freshness_store::Direction;
use she_aes::expand;
use she_cmac::cmac;

/// Who asks whom, and with which nonce.
#[derive(Clone, Copy)]
#[repr(C)]
pub struct RathonsiQuestion {
    /// The name of the unit that asks.
    pub asker: u32,
    /// The name of the unit that is asked: another one.
    pub answerer: u32,
    /// A nonce that the asker drew for this question.
    pub nonce: [u8; 16],
}

/// What the MAC of an answer covers.
#[derive(Clone, Copy)]
#[repr(C)]
pub struct RathonsiAnswerInput {
    /// The counter that the answer tells.
    pub counter: u64,
    pub bytes: [u8; 88],
}

// The direction of a route that is within its ranges.
fn way(route: &RathonsiRoute) -> Direction
    ensures { result ≡ way_of route.now }
{
    if route.direction == 1 {
        Direction::Sends
    } else {
        Direction::Receives
    }
}

// The question for the counter of a route of this Data ID and direction.
fn question_for(question: &RathonsiQuestion, id: u16, direction: Direction) -> CounterQuestion
    ensures { result ≡ asks_for question.now id direction }
{
    CounterQuestion {
        id,
        direction: match direction {
            Direction::Sends => 1,
            Direction::Receives => 2,
        },
        asker: question.asker,
        answerer: question.answerer,
        nonce: question.nonce,
    }
}

// The question for the counter of this route.
fn asked(route: &RathonsiRoute, question: &RathonsiQuestion) -> CounterQuestion
    ensures { result ≡ asked_of route.now question.now }
{
    question_for(question, route.data_id, way(route))
}

/// The question for the counter of the route on the other side.
pub fn asking(route: &RathonsiRoute, question: &RathonsiQuestion) -> CounterQuestion
    ensures { result ≡ asked_by route.now question.now }
{
    let far = if route.direction == 1 {
        Direction::Receives
    } else {
        Direction::Sends
    };
    question_for(question, route.data_id, far)
}

/// Writes the answer of a route to the question of another unit: its counter, and a MAC under its key. All freshness
/// that it sends or accepts later is above that counter. `BAD_VALUE` (also: asker and answerer are one), `WRONG_CELL`,
/// `DAMAGED`, `KEY_EMPTY`, `KEY_INVALID`, `KEY_NOT_AVAILABLE`: the first that applies.
#[unsafe(no_mangle)]
pub extern "C" fn rathonsi_sync_answer(
    route: &RathonsiRoute,
    image: &[u8],
    question: &RathonsiQuestion,
    answer: &mut [u8; 24],
) -> i32
    ensures answer { SyncAnswerAnswers route.now image.now question.now result }
    ensures answered { result ≡ OK → AnsweredBy route.now image.now question.now answer.new }
    ensures unchanged { result ≢ OK → answer.new ≡ answer.old }
{
    if question.asker == question.answerer {
        return BAD_VALUE;
    }
    let ready = match make_ready(route, way(route), image) {
        Ok(ready) => ready,
        Err(refusal) => return refusal.status(),
    };
    let mac = cmac(
        &expand(&ready.key),
        &answer_input(&asked(route, question), route.counter),
    );
    *answer = answer_with(route.counter, mac.bytes());
    OK
}

/// The verdict of a route whose counter may become this one.
pub fn verdict_within(freshness: u64, bound: u64) -> RathonsiVerdict
    ensures { result ≡ told_within bound freshness }
{
    let status = if bound < freshness { RESERVE } else { OK };
    RathonsiVerdict {
        status,
        payload_length: 0,
        freshness,
    }
}

/// The verdict of a route on an answer that tells this counter, if it is one.
pub fn verdict_on(told: Option<u64>, counter: u64, bound: u64) -> RathonsiVerdict
    ensures { result ≡ sync_verdict counter bound told }
{
    let Some(freshness) = told else {
        return no_verdict(VERIFICATION_FAILURE);
    };
    if freshness <= counter {
        return no_verdict(FRESHNESS_FAILURE);
    }
    verdict_within(freshness, bound)
}

/// Takes the answer to a question that this unit asked another one, for the counter of the route on the other side.
/// `OK`: that counter became the counter of the route. `RESERVE`: it does so by the same call once it is reserved, by
/// `rathonsi_route_advance`. `BAD_VALUE` (also: asker and answerer are one), `WRONG_CELL`, `DAMAGED`, `KEY_EMPTY`,
/// `KEY_INVALID`, `KEY_NOT_AVAILABLE`, `VERIFICATION_FAILURE` (it is no answer to this question), `FRESHNESS_FAILURE`
/// (its counter isn't above the route's): the first that applies.
#[unsafe(no_mangle)]
pub extern "C" fn rathonsi_sync_take(
    route: &mut RathonsiRoute,
    image: &[u8],
    question: &RathonsiQuestion,
    answer: &[u8; 24],
) -> RathonsiVerdict
    ensures answer { SyncTakeAnswers route.old image.now question.now answer.now result }
    ensures counted { result.status ≡ OK
        → RouteAdvances (way_of route.old) route.old image.now result.freshness route.new }
    ensures unchanged { result.status ≢ OK → route.new ≡ route.old }
{
    if question.asker == question.answerer {
        return no_verdict(BAD_VALUE);
    }
    let ready = match make_ready(route, way(route), image) {
        Ok(ready) => ready,
        Err(refusal) => return no_verdict(refusal.status()),
    };
    let input = answer_input(&asking(route, question), counter_of(answer));
    let mac = cmac(&expand(&ready.key), &input);
    let verdict = verdict_on(
        counter_with(mac.bytes(), answer),
        route.counter,
        ready.bound,
    );
    if verdict.status == OK {
        move_counter(route, verdict.freshness);
    }
    verdict
}

/// Writes what the MAC of a route's answer to this question is to cover. `BAD_VALUE`, `WRONG_CELL`, `DAMAGED` (of its
/// own cell alone): as `rathonsi_sync_answer` has them.
#[unsafe(no_mangle)]
pub extern "C" fn rathonsi_sync_answer_input(
    route: &RathonsiRoute,
    image: &[u8],
    question: &RathonsiQuestion,
    input: &mut RathonsiAnswerInput,
) -> i32
    ensures answer { AnswerInputAnswers route.now image.now question.now result }
    ensures told { result ≡ OK → input.new ≡ input_with (asked_of route.now question.now) route.now.counter }
    ensures unchanged { result ≢ OK → input.new ≡ input.old }
{
    if question.asker == question.answerer {
        return BAD_VALUE;
    }
    match bound_ready(route, way(route), image) {
        Ok(_) => {
            *input = RathonsiAnswerInput {
                counter: route.counter,
                bytes: answer_input(&asked(route, question), route.counter),
            };
            OK
        }
        Err(status) => status,
    }
}

// Whether the input ends in its counter.
fn ends_in_counter(input: &RathonsiAnswerInput) -> bool
    ensures { IsTrue result ↔ EndsInCounter input.now }
{
    let mut end = [0; 8];
    end.copy_from_slice(&input.bytes[80..]);
    end == input.counter.to_be_bytes()
}

/// Writes the answer with this MAC, of which the caller says that it is the MAC of the input under the key of the
/// route. The answer holds, whatever the route sent or accepted since. `BAD_VALUE`: the input doesn't end in its
/// counter, so no call told it.
#[unsafe(no_mangle)]
pub extern "C" fn rathonsi_sync_answer_mac(
    input: &RathonsiAnswerInput,
    mac: &[u8; 16],
    answer: &mut [u8; 24],
) -> i32
    ensures answer { AnswerMacAnswers input.now result }
    ensures answered { result ≡ OK → answer.new ≡ answer_of input.now.counter mac.now }
    ensures unchanged { result ≢ OK → answer.new ≡ answer.old }
{
    if !ends_in_counter(input) {
        return BAD_VALUE;
    }
    *answer = answer_with(input.counter, mac);
    OK
}

// The input that the MAC of this answer is to cover.
fn input_for(
    route: &RathonsiRoute,
    question: &RathonsiQuestion,
    answer: &[u8; 24],
) -> RathonsiAnswerInput
    ensures { result ≡ input_of_answer route.now question.now answer.now }
{
    let counter = counter_of(answer);
    RathonsiAnswerInput {
        counter,
        bytes: answer_input(&asking(route, question), counter),
    }
}

/// Whether this is the input that the MAC of this answer is to cover.
pub fn is_input_for(
    input: &RathonsiAnswerInput,
    route: &RathonsiRoute,
    question: &RathonsiQuestion,
    answer: &[u8; 24],
) -> bool
    ensures { IsTrue result ↔ (input.now ≡ input_of_answer route.now question.now answer.now) }
{
    let wanted = input_for(route, question, answer);
    input.counter == wanted.counter && input.bytes == wanted.bytes
}

/// Writes what the MAC of an answer to a question of this unit is to cover, if it is authentic. `BAD_VALUE`,
/// `WRONG_CELL`, `DAMAGED` (of its own cell alone): as `rathonsi_sync_take` has them.
#[unsafe(no_mangle)]
pub extern "C" fn rathonsi_sync_take_input(
    route: &RathonsiRoute,
    image: &[u8],
    question: &RathonsiQuestion,
    answer: &[u8; 24],
    input: &mut RathonsiAnswerInput,
) -> i32
    ensures answer { AnswerInputAnswers route.now image.now question.now result }
    ensures told { result ≡ OK → input.new ≡ input_of_answer route.now question.now answer.now }
    ensures unchanged { result ≢ OK → input.new ≡ input.old }
{
    if question.asker == question.answerer {
        return BAD_VALUE;
    }
    match bound_ready(route, way(route), image) {
        Ok(_) => {
            *input = input_for(route, question, answer);
            OK
        }
        Err(status) => status,
    }
}

/// Takes an answer by this MAC, of which the caller says that it is the MAC of the input under the key of the route.
/// Answers as `rathonsi_sync_take`, but for those of the slot; also `BAD_VALUE`, after `DAMAGED`: the input isn't that
/// of this answer.
#[unsafe(no_mangle)]
pub extern "C" fn rathonsi_sync_take_mac(
    route: &mut RathonsiRoute,
    image: &[u8],
    question: &RathonsiQuestion,
    answer: &[u8; 24],
    input: &RathonsiAnswerInput,
    mac: &[u8; 16],
) -> RathonsiVerdict
    ensures answer { TakeMacAnswers route.old image.now question.now answer.now input.now mac.now result }
    ensures counted { result.status ≡ OK
        → RouteAdvances (way_of route.old) route.old image.now result.freshness route.new }
    ensures unchanged { result.status ≢ OK → route.new ≡ route.old }
{
    if question.asker == question.answerer {
        return no_verdict(BAD_VALUE);
    }
    let bound = match bound_ready(route, way(route), image) {
        Ok(bound) => bound,
        Err(status) => return no_verdict(status),
    };
    if !is_input_for(input, route, question, answer) {
        return no_verdict(BAD_VALUE);
    }
    let verdict = verdict_on(counter_with(mac, answer), route.counter, bound);
    if verdict.status == OK {
        move_counter(route, verdict.freshness);
    }
    verdict
}
