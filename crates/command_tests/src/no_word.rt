//! A run of `pairing` without a word: a command line of none is that of the example, so no program has it.
use crate::comparing::same;
use bus_port::{CleanSource, MemSink};
use pdu_collection::run_pairs;
use std::test::Fail;

#[test]
fn pairing_without_a_word_tells_its_usage(rt: HostRuntime) -> Result<(), Fail> {
    let alloc = rt.alloc();
    let mut script = CleanSource::new(Vec::from_slice(alloc, b"unread\n")?);
    let mut sink = MemSink::new(alloc, 1024, Vec::new(alloc), 1024)?;
    let status = run_pairs(alloc, &[], &mut script, &mut sink);
    let told = (status, sink.bytes());
    same(
        &rt,
        "no word",
        &told,
        &(2, b"usage: pairing F\n".as_slice()),
    );
    Ok(())
}
