//! The counter of a route, asked for by another unit: the question, and the answer with its CMAC.
//!
//! [`answer_input`] gives the bytes that the CMAC covers: a label, the Data ID and the direction of the route that is
//! asked for, the names of the unit that asks and of the unit that is asked, the nonce, and the counter. [`answer_with`]
//! puts the counter before that CMAC, and [`counter_with`] takes it out, exactly if the answer has this MAC. No such
//! input is that of a PDU, of a key update or of a boot MAC, and each is that of one question and one counter. So an
//! answer is to one question: a unit's own answer is none to a question that it asks another one ([`laws`]). Nothing
//! takes memory.
#![tactic(auto)]

mod answering;
pub mod laws;

pub use answering::{
    ANSWER, CounterQuestion, NONCE, answer_input, answer_with, counter_of, counter_with,
};
