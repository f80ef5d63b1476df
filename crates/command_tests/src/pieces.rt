//! Whole runs of `pairing`, `audit` and `watch` over ports that give 16 bytes and take 3 at a time, which no program
//! has. The authenticator was made by Python's `cryptography`.
use crate::comparing::same;
use bus_port::{MemSink, MemSource};
use pdu_collection::run_pairs;
use std::alloc::{AllocError, Global};
use std::process::Abort;
use std::test::Fail;
use trace_audit::run_audit;
use watch_commands::run_watch;

#[derive(Clone, Copy)]
enum Program {
    Pairing,
    Audit,
    Watch,
}

/// The program, its words, the script or the map, the log if it reads one, and what is written.
struct Row(
    Program,
    &'static [&'static str],
    &'static str,
    &'static str,
    &'static str,
);

/// A mapped frame, and a line that is none.
const LOG: &str = "(1.0) can0 123##1BEE22E409F962A070A160000\nany text\n";

const ROWS: &[Row] = &[
    Row(
        Program::Pairing,
        &["SCRIPT"],
        "pair 2b7e151628aed2a6abf7158809cf4f3c 6bc1 e93d7e1173931729 0 2\na bee22e409f96\nc 2a070a16bee2\n",
        "",
        "waiting\nVERIFICATIONSUCCESS e93d7e117393172a bee22e409f96\n",
    ),
    Row(
        Program::Audit,
        &["MAP", "LOG"],
        "123 6bc1 2b7e151628aed2a6abf7158809cf4f3c e93d7e1173931729 6\n",
        LOG,
        "1 123 VERIFICATIONSUCCESS e93d7e117393172a bee22e409f96\nother 1\n",
    ),
    Row(
        Program::Watch,
        &["MAP", "LOG"],
        "123 6bc1 2b7e151628aed2a6abf7158809cf4f3c e93d7e1173931729 6 16 can0\n",
        LOG,
        "1 123 VERIFICATIONSUCCESS e93d7e117393172a bee22e409f96
line 1 123 6bc1 accepted 1 failed 0 missed 0 last e93d7e117393172a
accepted 1
failed 0
unmapped 0
other frames 0
malformed 1
",
    ),
];

fn words_of(alloc: Global, texts: &[&str]) -> Result<Vec<String>, AllocError> {
    let mut words = Vec::new(alloc);
    for text in texts {
        words.push(String::from_str(alloc, text)?)?;
    }
    Ok(words)
}

/// A source of pieces of 16 bytes.
fn source_of(alloc: Global, text: &str) -> Result<MemSource, AllocError> {
    let bytes = Vec::from_slice(alloc, text.as_bytes())?;
    Ok(MemSource::new(bytes, Vec::new(alloc), 16))
}

/// The status of a program over two sources.
fn status_of(
    alloc: Global,
    program: Program,
    words: &[String],
    first: &mut MemSource,
    second: &mut MemSource,
    sink: &mut MemSink,
    errors: &mut MemSink,
) -> u8 {
    match program {
        Program::Pairing => run_pairs(alloc, words, first, sink),
        Program::Audit => run_audit(alloc, words, first, second, sink),
        Program::Watch => run_watch(alloc, words, first, second, sink, errors),
    }
}

/// Runs the program of a row over its sources.
fn runs(
    alloc: Global,
    row: &Row,
    words: &[String],
    sink: &mut MemSink,
    errors: &mut MemSink,
) -> Result<u8, AllocError> {
    let mut first = source_of(alloc, row.2)?;
    let mut second = source_of(alloc, row.3)?;
    Ok(status_of(alloc, row.0, words, &mut first, &mut second, sink, errors))
}

/// Runs the program of a row over a sink of pieces of 3 bytes, and compares the status and what is written.
fn check(rt: &impl Abort, alloc: Global, row: &Row) -> Result<(), Fail> {
    let words = words_of(alloc, row.1)?;
    let mut sink = MemSink::new(alloc, 1024, Vec::new(alloc), 3)?;
    let mut errors = MemSink::new(alloc, 64, Vec::new(alloc), 3)?;
    let status = runs(alloc, row, words.as_slice(), &mut sink, &mut errors)?;
    let told = (status, sink.bytes());
    same(rt, row.4, &told, &(0, row.4.as_bytes()));
    same(rt, "standard error", &errors.bytes().len(), &0);
    Ok(())
}

#[test]
fn a_run_reads_and_writes_in_pieces(rt: HostRuntime) -> Result<(), Fail> {
    for row in ROWS {
        check(&rt, rt.alloc(), row)?;
    }
    Ok(())
}
