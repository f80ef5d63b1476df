//! The table of answers of the whole-stream calls over memory, and the standard streams' adapters.
use crate::comparing::holds;
use bus_port::{
    CleanSource, MemSink, MemSource, ReadAll, Source, StdSink, StdSource, read_all, write_all,
};
use std::alloc::Global;
use std::io;
use std::io::{ErrorKind, Read, Write};

/// A reader of these bytes, whose calls from one number to another fail.
#[derive(Drop)]
struct FlawedReader<'a> {
    left: &'a [u8],
    calls: u64,
    fails_from: u64,
    fails_to: u64,
}

impl<'a> Read for FlawedReader<'a> {
    fn read(&mut self, buf: &mut [u8]) -> io::Result<usize> {
        self.calls = self.calls.saturating_add(1);
        if self.fails_from <= self.calls && self.calls <= self.fails_to {
            return Err(io::Error::from(ErrorKind::Other));
        }
        self.left.read(buf)
    }
}

/// A writer whose first call fails or takes nothing, and which then takes all.
#[derive(Drop)]
struct FlawedWriter<'a> {
    text: &'a mut Vec<u8>,
    calls: u64,
    takes_nothing: bool,
}

impl<'a> Write for FlawedWriter<'a> {
    fn write(&mut self, buf: &[u8]) -> io::Result<usize> {
        self.calls = self.calls.saturating_add(1);
        if self.calls > 1 {
            return self.text.write(buf);
        }
        if self.takes_nothing {
            return Ok(0);
        }
        Err(io::Error::from(ErrorKind::Other))
    }

    fn flush(&mut self) -> io::Result<()> {
        Ok(())
    }
}

const HELLO: &[u8] = b"hello";

/// Whether a source is read to its end, of at most so many bytes, and has these, or is refused for this.
fn reads<S: Source>(
    alloc: Global,
    source: &mut S,
    limit: u8,
    want: &Result<&[u8], ReadAll>,
) -> bool {
    match read_all(alloc, source, limit as usize) {
        Ok(all) => *want == Ok(all.as_slice()),
        Err(cause) => *want == Err(cause),
    }
}

/// A source of five bytes. These calls of it fail, and it gives pieces of this size at most.
fn source_of(alloc: Global, failing: &[u64], piece: usize) -> Option<MemSource> {
    if piece == 0 {
        return None;
    }
    let failing = failing.to_vec(alloc).ok()?;
    let bytes = HELLO.to_vec(alloc).ok()?;
    Some(MemSource::new(bytes, failing, piece))
}

/// The calls that fail, the most that a call gives, how many bytes are taken, and what is read.
struct Reading(&'static [u64], usize, u8, Result<&'static [u8], ReadAll>);

fn is_read(alloc: Global, row: &Reading) -> bool {
    match source_of(alloc, row.0, row.1) {
        Some(mut source) => reads(alloc, &mut source, row.2, &row.3),
        None => false,
    }
}

const READS: &[Reading] = &[
    Reading(&[], 5, 5, Ok(HELLO)),
    Reading(&[], 2, 9, Ok(HELLO)),
    Reading(&[], 5, 4, Err(ReadAll::TooLong)),
    Reading(&[], 1, 0, Err(ReadAll::TooLong)),
    Reading(&[1], 5, 5, Err(ReadAll::Failed)),
    Reading(&[2], 3, 5, Err(ReadAll::Failed)),
    Reading(&[3], 3, 5, Err(ReadAll::Failed)),
    Reading(&[4], 3, 5, Ok(HELLO)),
];

#[test]
fn read_all_answers_by_its_limit_and_its_source(rt: HostRuntime) {
    for (place, row) in READS.iter().enumerate() {
        holds(&rt, place, is_read(rt.alloc(), row));
    }
}

/// A sink of this room. These calls of it fail, and it takes pieces of this size at most.
fn sink_of(alloc: Global, room: usize, failing: &[u64], piece: usize) -> Option<MemSink> {
    if piece == 0 {
        return None;
    }
    let failing = failing.to_vec(alloc).ok()?;
    MemSink::new(alloc, room, failing, piece).ok()
}

/// The room, the calls that fail, the most that a call takes, whether five bytes are all written, and what is.
struct Writing(usize, &'static [u64], usize, bool, &'static [u8]);

fn is_written(alloc: Global, row: &Writing) -> bool {
    match sink_of(alloc, row.0, row.1, row.2) {
        Some(mut sink) => write_all(&mut sink, HELLO).is_ok() == row.3 && sink.bytes() == row.4,
        None => false,
    }
}

const WRITES: &[Writing] = &[
    Writing(5, &[], 5, true, HELLO),
    Writing(9, &[], 2, true, HELLO),
    Writing(3, &[], 9, false, b"hel"),
    Writing(5, &[1], 5, false, b""),
    Writing(5, &[3], 1, false, b"he"),
    Writing(5, &[6], 1, true, HELLO),
    Writing(1_048_576, &[], 65_536, true, HELLO),
];

#[test]
fn write_all_stops_at_the_failing_call_or_the_full_room(rt: HostRuntime) {
    for (place, row) in WRITES.iter().enumerate() {
        holds(&rt, place, is_written(rt.alloc(), row));
    }
}

/// Whether a source whose reads don't fail has its bytes, if no more are taken.
fn is_read_clean(alloc: Global) -> bool {
    match HELLO.to_vec(alloc) {
        Ok(bytes) => reads(alloc, &mut CleanSource::new(bytes), 5, &Ok(HELLO)),
        Err(_) => false,
    }
}

/// Whether all of 4,097 bytes, one more than a piece has, are read of a source.
fn is_long<S: Source>(alloc: Global, source: &mut S) -> bool {
    match read_all(alloc, source, 4_097) {
        Ok(all) => all.len() == 4_097 && all.iter().all(|byte| *byte == b'x'),
        Err(_) => false,
    }
}

fn is_long_read(alloc: Global) -> bool {
    match vec![in alloc; b'x'; 4_097] {
        Ok(bytes) => is_long(alloc, &mut CleanSource::new(bytes)),
        Err(_) => false,
    }
}

#[test]
fn a_clean_source_is_read_to_its_end(rt: HostRuntime) {
    holds(&rt, "all", is_read_clean(rt.alloc()));
    holds(&rt, "a piece and a byte", is_long_read(rt.alloc()));
}

/// Whether two reads give five bytes, and then none.
fn gives_hello<S: Source>(source: &mut S) -> bool {
    let mut out = [9; 7];
    source.read(&mut out) == Ok(5) && out == *b"hello\x09\x09" && source.read(&mut out) == Ok(0)
}

fn is_read_whole<S: Source>(alloc: Global, source: &mut S) -> bool {
    reads(alloc, source, 5, &Ok(HELLO))
}

#[test]
fn standard_sources_give_what_their_readers_give(rt: HostRuntime) {
    holds(&rt, "two reads", gives_hello(&mut StdSource::new(HELLO)));
    let is_read = is_read_whole(rt.alloc(), &mut StdSource::new(HELLO));
    holds(&rt, "all", is_read);
}

fn fails<S: Source>(alloc: Global, source: &mut S) -> bool {
    reads(alloc, source, 5, &Err(ReadAll::Failed))
}

/// Whether a reader that gives one byte fails from then on.
fn breaks(alloc: Global) -> bool {
    let mut source = StdSource::new(FlawedReader {
        left: b"h",
        calls: 0,
        fails_from: 2,
        fails_to: u64::MAX,
    });
    fails(alloc, &mut source) && fails(alloc, &mut source)
}

/// Whether a reader that fails once works again.
fn recovers(alloc: Global) -> bool {
    let mut source = StdSource::new(FlawedReader {
        left: HELLO,
        calls: 0,
        fails_from: 1,
        fails_to: 1,
    });
    fails(alloc, &mut source) && is_read_whole(alloc, &mut source)
}

#[test]
fn a_read_that_fails_is_told_and_a_later_one_works(rt: HostRuntime) {
    holds(&rt, "it breaks", breaks(rt.alloc()));
    holds(&rt, "it recovers", recovers(rt.alloc()));
    let mut missing = StdSource::<FlawedReader>::missing();
    holds(&rt, "it is missing", fails(rt.alloc(), &mut missing));
}

/// Whether a writer whose first call takes nothing, or fails, takes all after it.
fn is_written_again(alloc: Global, takes_nothing: bool) -> bool {
    let mut text = Vec::new(alloc);
    let mut sink = StdSink::new(FlawedWriter {
        text: &mut text,
        calls: 0,
        takes_nothing,
    });
    let is_told = write_all(&mut sink, HELLO).is_err() && write_all(&mut sink, HELLO).is_ok();
    is_told && text.as_slice() == HELLO
}

#[test]
fn a_write_that_fails_or_takes_nothing_is_told_and_a_later_one_works(rt: HostRuntime) {
    holds(&rt, "it fails", is_written_again(rt.alloc(), false));
    holds(&rt, "it takes nothing", is_written_again(rt.alloc(), true));
}
