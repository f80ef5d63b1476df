//! An input that fails. How long an input is, what is printed of one, endings, and what arguments name are rows of
//! checks/.
use crate::comparing::holds;
use bus_port::{MemSource, Source};
use program_edge::{InputFault, read_input};
use std::alloc::Global;

/// Whether reading this fails.
fn is_fault<S: Source>(alloc: Global, source: &mut S) -> bool {
    match read_input(alloc, source) {
        Ok(_) => false,
        Err(fault) => fault == InputFault::ReadFault,
    }
}

/// A source of 40 bytes in pieces of 16, whose second call fails.
fn source_that_fails(alloc: Global) -> Option<MemSource> {
    let failing = [2].to_vec(alloc).ok()?;
    let bytes = vec![in alloc; b'x'; 40].ok()?;
    Some(MemSource::new(bytes, failing, 16))
}

fn is_not_begun_again(alloc: Global) -> bool {
    match source_that_fails(alloc) {
        Some(mut source) => is_fault(alloc, &mut source),
        None => false,
    }
}

#[test]
fn an_input_is_not_begun_again(rt: HostRuntime) {
    holds(&rt, "a fault", is_not_begun_again(rt.alloc()));
}
