//! Whole runs over ports in memory, as rows: what is given, the status and the output; and what does them.
use crate::comparing::holds;
use bus_commands::run::run;
use bus_port::{CleanSource, MemSink, Sink, Source};
use cut_disk::CutDisk;
use std::alloc::{AllocError, Global};
use std::process::Abort;
use std::test::Fail;

/// A text, and another after it.
pub(crate) type Text = [&'static str; 2];

/// A bus of two nodes: `left` sends 6bc1, and `right` receives it.
pub(crate) const BUS: &str =
    "[[node]]\nname = \"left\"\nuid = \"000000000000000000000000000001\"\n[[node.route]]\nid = \"6bc1\"\ndirection = \"send\"\nslot = 4\nreserve = 4\nstart = \"e93d7e1173931729\"\n[[node]]\nname = \"right\"\nuid = \"000000000000000000000000000002\"\n[[node.route]]\nid = \"6bc1\"\ndirection = \"receive\"\nslot = 4\nstart = \"e93d7e1173931729\"\n";

/// The words, the script, the status and the output.
pub(crate) struct Run(pub &'static str, pub Text, pub u8, pub Text);

/// The words of a command line.
fn words_of(alloc: Global, line: &str) -> Result<Vec<String>, AllocError> {
    let mut words = Vec::new(alloc);
    for word in line.split_whitespace() {
        words.push(String::from_str(alloc, word)?)?;
    }
    Ok(words)
}

/// The bytes of both parts of a text.
fn bytes_of(alloc: Global, text: Text) -> Result<Vec<u8>, AllocError> {
    let [front, rest] = text;
    let mut bytes = Vec::from_slice(alloc, front.as_bytes())?;
    bytes.extend_from_slice(rest.as_bytes())?;
    Ok(bytes)
}

/// A source of a text.
fn source_of(alloc: Global, text: Text) -> Result<CleanSource, AllocError> {
    Ok(CleanSource::new(bytes_of(alloc, text)?))
}

/// A run of these words: by itself, since what it promises is taken up anew for each way out after it.
fn done<S: Source, T: Source, K: Sink, D: CutDisk>(
    alloc: Global,
    words: &[String],
    bus: &mut S,
    script: &mut T,
    sink: &mut K,
    disks: &mut Vec<D>,
) -> u8 {
    run(alloc, words, bus, script, sink, disks)
}

/// The status of a run over this sink and these disks; the layout stands before [`BUS`] in the bus file.
fn answer_to<D: CutDisk>(
    alloc: Global,
    layout: &'static str,
    given: &Run,
    sink: &mut MemSink,
    disks: &mut Vec<D>,
) -> Result<u8, AllocError> {
    let words = words_of(alloc, given.0)?;
    let mut bus = source_of(alloc, [layout, BUS])?;
    let mut script = source_of(alloc, given.1)?;
    let words = words.as_slice();
    Ok(done(alloc, words, &mut bus, &mut script, sink, disks))
}

/// The status of a run over these disks, and a sink that takes a byte in a call and fails once after so many.
pub(crate) fn status_behind<D: CutDisk>(
    alloc: Global,
    given: &Run,
    written: u64,
    disks: &mut Vec<D>,
) -> Result<u8, Fail> {
    let failing = vec![in alloc; written.saturating_add(1)]?;
    let mut sink = MemSink::new(alloc, 4096, failing, 1)?;
    Ok(answer_to(alloc, "", given, &mut sink, disks)?)
}

/// Whether both parts of a text, and no more, are the output.
fn is_text(output: &[u8], text: Text) -> bool {
    let [front, rest] = text;
    output.strip_prefix(front.as_bytes()) == Some(rest.as_bytes())
}

/// A run over these disks, and a sink that takes a byte in a call; compares the status and the output.
pub(crate) fn plays<D: CutDisk>(
    rt: &impl Abort,
    alloc: Global,
    layout: &'static str,
    given: &Run,
    disks: &mut Vec<D>,
) -> Result<(), Fail> {
    let number = disks.len();
    let mut sink = MemSink::new(alloc, 4096, Vec::new(alloc), 1)?;
    let status = answer_to(alloc, layout, given, &mut sink, disks)?;
    holds(rt, given.3[0], status == given.2);
    holds(rt, given.3[1], is_text(sink.bytes(), given.3));
    holds(rt, "every disk is back", disks.len() == number);
    Ok(())
}

/// The same over disks that are let go then.
pub(crate) fn plays_once<D: CutDisk + Drop>(
    rt: &impl Abort,
    alloc: Global,
    layout: &'static str,
    given: &Run,
    disks: Vec<D>,
) -> Result<(), Fail> {
    let mut disks = disks;
    plays(rt, alloc, layout, given, &mut disks)
}
