//! A question for the counter of a route, and its answer.
ghost use Rattle.std.specs.Prelude.{◌≡◌, ◌<◌, ◌^◌, ℕ, take, IfNone, IfSome};
ghost use Rattle.basics.specs.Numbers.{number_of};
ghost use Rattle.counter_answers.specs.Answering.{answer_input, answer_of, TellsWith};

use basics::append;

/// The bytes of a nonce.
pub const NONCE: usize = 16;

/// The bytes of an answer.
pub const ANSWER: usize = 24;

const LABEL: [u8; 53] = *b"RATHONSI COUNTER OF A ROUTE, IN ANSWER TO A QUESTION:";

/// What a unit asks another one: the counter of its route of this Data ID and direction.
#[derive(Clone, Copy)]
pub struct CounterQuestion {
    pub id: u16,
    /// The direction of the route that is asked for: 1 if it sends, 2 if it receives.
    pub direction: u8,
    /// The name of the unit that asks.
    pub asker: u32,
    /// The name of the unit that is asked.
    pub answerer: u32,
    pub nonce: [u8; 16],
}

/// The bytes that the MAC of an answer covers.
pub fn answer_input(question: &CounterQuestion, counter: u64) -> [u8; 88]
    ensures { result ≡ answer_input question.now counter }
{
    let mut input = [0; 88];
    let after_label = append(&mut input, 0, &LABEL);
    let after_id = append(&mut input, after_label, &question.id.to_be_bytes());
    let after_direction = append(&mut input, after_id, &[question.direction]);
    let after_asker = append(&mut input, after_direction, &question.asker.to_be_bytes());
    let after_answerer = append(&mut input, after_asker, &question.answerer.to_be_bytes());
    let after_nonce = append(&mut input, after_answerer, &question.nonce);
    append(&mut input, after_nonce, &counter.to_be_bytes());
    input
}

/// The answer with this MAC: the counter in eight bytes, and the MAC whole.
pub fn answer_with(counter: u64, mac: &[u8; 16]) -> [u8; 24]
    ensures { result ≡ answer_of counter mac.now }
{
    let mut answer = [0; 24];
    let after_counter = append(&mut answer, 0, &counter.to_be_bytes());
    append(&mut answer, after_counter, mac);
    answer
}

/// The counter that an answer tells, if its MAC is right.
pub fn counter_of(answer: &[u8; 24]) -> u64
    ensures { result ≡ number_of (take 8 answer.now) }
{
    let mut front = [0; 8];
    front.copy_from_slice(&answer[..8]);
    u64::from_be_bytes(front)
}

/// The counter that an answer with this MAC tells; none if it has another MAC.
pub fn counter_with(mac: &[u8; 16], answer: &[u8; 24]) -> Option<u64>
    ensures none { IfNone result ((counter : ℕ) → ¬ TellsWith mac.now counter answer.now) }
    ensures some { IfSome result (λ counter. TellsWith mac.now counter answer.now) }
{
    let counter = counter_of(answer);
    if answer_with(counter, mac) == *answer {
        Some(counter)
    } else {
        None
    }
}
