//! A receiver that is back at once after a reset, by an answer of its sender.
ghost use Rattle.std.specs.Prelude.{◌≡◌, ◌≢◌};
ghost use Rattle.rathonsi_c.specs.Rejoining.{RejoinAnswers, Rejoins, RejoinMacAnswers, rejoin_verdict};

use crate::opened::{FRESH, move_counter};
use crate::route::{RathonsiRoute, make_ready};
use crate::secoc::{RathonsiVerdict, refusal as no_verdict};
use crate::steps::bound_ready;
use crate::sync::{
    RathonsiAnswerInput, RathonsiQuestion, asking, is_input_for, verdict_on, verdict_within,
};
use crate::{BAD_VALUE, OK, VERIFICATION_FAILURE};
use counter_answers::{answer_input, counter_of, counter_with};
use freshness_store::Direction;
use she_aes::expand;
use she_cmac::cmac;

// What a route with this bound says of an answer that tells this counter, if it is one.
fn rejoin_on(told: Option<u64>, route: &RathonsiRoute, bound: u64) -> RathonsiVerdict
    ensures { result ≡ rejoin_verdict route.now bound told }
{
    let Some(freshness) = told else {
        return no_verdict(VERIFICATION_FAILURE);
    };
    if route.opened == FRESH {
        return verdict_within(freshness, bound);
    }
    verdict_on(told, route.counter, bound)
}

/// Takes the answer to a question that this receiver asked after it was opened, and whose nonce nobody had before. `OK`:
/// the counter that it tells became the counter of the route; it goes down, too, if no call moved it since
/// `rathonsi_route_open`. The bound stays. `RESERVE`: as `rathonsi_sync_take` has it. `BAD_VALUE` (also: asker and
/// answerer are one), `WRONG_CELL`, `DAMAGED`, `KEY_EMPTY`, `KEY_INVALID`, `KEY_NOT_AVAILABLE`, `VERIFICATION_FAILURE`,
/// `FRESHNESS_FAILURE` (its counter isn't above the route's, which a call moved): the first that applies.
#[unsafe(no_mangle)]
pub extern "C" fn rathonsi_sync_rejoin(
    route: &mut RathonsiRoute,
    image: &[u8],
    question: &RathonsiQuestion,
    answer: &[u8; 24],
) -> RathonsiVerdict
    ensures answer { RejoinAnswers route.old image.now question.now answer.now result }
    ensures rejoined { result.status ≡ OK → Rejoins route.old image.now result.freshness route.new }
    ensures unchanged { result.status ≢ OK → route.new ≡ route.old }
{
    if question.asker == question.answerer {
        return no_verdict(BAD_VALUE);
    }
    let ready = match make_ready(route, Direction::Receives, image) {
        Ok(ready) => ready,
        Err(refusal) => return no_verdict(refusal.status()),
    };
    let input = answer_input(&asking(route, question), counter_of(answer));
    let mac = cmac(&expand(&ready.key), &input);
    let verdict = rejoin_on(counter_with(mac.bytes(), answer), route, ready.bound);
    if verdict.status == OK {
        move_counter(route, verdict.freshness);
    }
    verdict
}

/// The same by this MAC, of which the caller says that it is the MAC of the input under the key of the route;
/// `rathonsi_sync_take_input` tells the input. Answers as `rathonsi_sync_rejoin`, but for those of the slot; also
/// `BAD_VALUE`, after `DAMAGED`: the input isn't that of this answer.
#[unsafe(no_mangle)]
pub extern "C" fn rathonsi_sync_rejoin_mac(
    route: &mut RathonsiRoute,
    image: &[u8],
    question: &RathonsiQuestion,
    answer: &[u8; 24],
    input: &RathonsiAnswerInput,
    mac: &[u8; 16],
) -> RathonsiVerdict
    ensures answer { RejoinMacAnswers route.old image.now question.now answer.now input.now mac.now result }
    ensures rejoined { result.status ≡ OK → Rejoins route.old image.now result.freshness route.new }
    ensures unchanged { result.status ≢ OK → route.new ≡ route.old }
{
    if question.asker == question.answerer {
        return no_verdict(BAD_VALUE);
    }
    let bound = match bound_ready(route, Direction::Receives, image) {
        Ok(bound) => bound,
        Err(status) => return no_verdict(status),
    };
    if !is_input_for(input, route, question, answer) {
        return no_verdict(BAD_VALUE);
    }
    let verdict = rejoin_on(counter_with(mac, answer), route, bound);
    if verdict.status == OK {
        move_counter(route, verdict.freshness);
    }
    verdict
}
