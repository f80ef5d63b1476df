// The counters of a receiver and of a sender, which no program asks for their window and reserve.
use crate::comparing::same;
use crate::engine_bench::ID;
use freshness_manager::{Rx, Tx};

#[test]
fn a_candidate_is_ahead_within_the_window(rt: HostRuntime) {
    let rx = Rx::restore(0, ID, 128, 4, 100);
    same(&rt, "rx.window()", &rx.window(), &4);
    same(&rt, "rx.candidate", &rx.candidate(105), &None);
    same(&rt, "rx.candidate", &rx.candidate(104), &Some(104));
}

#[test]
fn counters_tell_their_window_and_reserve(rt: HostRuntime) {
    let rx = Rx::restore(0, ID, 8, 256, 100);
    same(&rt, "rx.window()", &rx.window(), &256);
    same(&rt, "rx.reserve()", &rx.reserve(), &8);
    let tx = Tx::restore(0, ID, 128, 100);
    same(&rt, "tx.reserve()", &tx.reserve(), &128);
}
