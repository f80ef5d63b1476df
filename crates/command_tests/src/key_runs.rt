//! Runs of the key commands that no command line has: the program's name alone, the longest image, and a load without a
//! disk.
use crate::comparing::same;
use bus_port::{CleanSource, MemSink};
use cut_disk::MemDisk;
use key_commands::run_key;
use std::alloc::{AllocError, Global};
use std::process::Abort;
use std::test::Fail;

/// The words that ask for a load.
const LOAD: &str = "keytool load FILE 000000000000000000000000000001";

/// The words of a command line.
fn words_of(alloc: Global, line: &str) -> Result<Vec<String>, AllocError> {
    let mut words = Vec::new(alloc);
    for word in line.split(' ') {
        words.push(String::from_str(alloc, word)?)?;
    }
    Ok(words)
}

/// The status of the arguments over a source, a sink and a disk in memory; there is still one disk then.
fn status_of(
    rt: &impl Abort,
    alloc: Global,
    words: &[String],
    sink: &mut MemSink,
) -> Result<u8, Fail> {
    let mut request = CleanSource::new(Vec::from_slice(alloc, b"unread\n")?);
    let mut disks: Vec<MemDisk> = Vec::new(alloc);
    disks.push(MemDisk::new(alloc, 16)?)?;
    let status = run_key(alloc, words, &mut request, sink, &mut disks);
    same(rt, "disks", &disks.len(), &1);
    Ok(status)
}

/// Runs the words over a sink with room for all, and compares the status and the output.
fn check(
    rt: &impl Abort,
    alloc: Global,
    words: &[String],
    status: u8,
    output: &str,
) -> Result<(), Fail> {
    let mut sink = MemSink::new(alloc, 1024, Vec::new(alloc), 1024)?;
    let answer = status_of(rt, alloc, words, &mut sink)?;
    same(rt, "answer", &answer, &status);
    same(rt, "sink.bytes()", &sink.bytes(), &output.as_bytes());
    Ok(())
}

/// For a command line without a word `main` runs the example.
#[test]
fn the_name_alone_tells_the_usage(rt: HostRuntime) -> Result<(), Fail> {
    let words = words_of(rt.alloc(), "keytool")?;
    let usage = "usage: make, read, confirm, bootmac, load\n";
    check(&rt, rt.alloc(), words.as_slice(), 2, usage)
}

/// The words of a boot MAC of an image of so many digits.
fn image_words(alloc: Global, digits: usize) -> Result<Vec<String>, Fail> {
    let image = String::from_utf8(vec![in alloc; b'0'; digits]?);
    let mut words = words_of(alloc, "keytool bootmac 2b7e151628aed2a6abf7158809cf4f3c")?;
    words.push(image.ok().ok_or("no text")?)?;
    Ok(words)
}

const IMAGES: &[(usize, u8, &str)] = &[
    (131_072, 0, "31ed7e5e6a493ae8dbd126253c12cdcc\n"),
    (131_074, 3, "value 2\n"),
];

/// No command line holds an image of 65,536 bytes, since Linux allows a word at most 131,071 bytes. The MAC is that of
/// OpenSSL.
#[test]
fn the_largest_image_has_a_boot_mac(rt: HostRuntime) -> Result<(), Fail> {
    for (digits, status, output) in IMAGES {
        let words = image_words(rt.alloc(), *digits)?;
        check(&rt, rt.alloc(), words.as_slice(), *status, output)?;
    }
    Ok(())
}

/// What is printed for these requests if there is no disk: the first fault of the requests, and then that there is no
/// disk.
fn check_without_disk(
    rt: &impl Abort,
    alloc: Global,
    requests: &str,
    status: u8,
    output: &str,
) -> Result<(), Fail> {
    let words = words_of(alloc, LOAD)?;
    let mut request = CleanSource::new(Vec::from_slice(alloc, requests.as_bytes())?);
    let mut sink = MemSink::new(alloc, 64, Vec::new(alloc), 64)?;
    let mut disks: Vec<MemDisk> = Vec::new(alloc);
    let answer = run_key(alloc, words.as_slice(), &mut request, &mut sink, &mut disks);
    same(rt, "answer", &answer, &status);
    same(rt, "sink.bytes()", &sink.bytes(), &output.as_bytes());
    Ok(())
}

#[test]
fn a_load_wants_a_disk(rt: HostRuntime) -> Result<(), Fail> {
    check_without_disk(
        &rt,
        rt.alloc(),
        "a b\n",
        4,
        "script: line 1: wrong number of words\n",
    )?;
    check_without_disk(&rt, rt.alloc(), "", 9, "store: no disk\n")
}
