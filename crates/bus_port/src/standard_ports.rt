//! Ports over the standard readers and writers: the edge to files, terminals and pipes.
//!
//! No proof knows what the outside gives and takes. These ports count its faults. They tell what the reader or the
//! writer tells, as one over memory does.
ghost use Rattle.std.specs.Prelude.{◌≡◌, ◌<◌, ◌≤◌, length, Some, None, is_some, option_and_then};
ghost use Rattle.bus_port.specs.Source.{Reads};
ghost use Rattle.bus_port.specs.Sink.{Writes};
ghost use Rattle.bus_port.specs.StdPort.{StdReads, StdWrites, MovesOrKeeps, std_source, std_sink};

use crate::port::{PIECE, PortFailed, Sink, Source};
use basics::count_fault;
use std::io::{Read, Write};
use std::marker::Model;

/// A source over a standard reader. Each error of the reader is a fault.
#[derive(Drop)]
pub struct StdSource<R: Read> {
    reader: Option<R>,
    taken: u64,
    faults: u64,
}

impl<R: Read> Model for StdSource<R> {
    ghost use Rattle.bus_port.specs.StdPort.{StdSourceState};

    ghost Value = { StdSourceState R };

    ghost view = { λ s. record { reader = s.reader; taken = s.taken; faults = s.faults } };
}

impl<R: Read> StdSource<R> {
    /// A source of what the reader gives.
    pub fn new(inner: R) -> StdSource<R>
        ensures { result ≡ record { reader = Some inner; taken = 0; faults = 0 } }
    {
        StdSource {
            reader: Some(inner),
            taken: 0,
            faults: 0,
        }
    }

    /// A source each of whose reads fails, for a file that doesn't open.
    pub fn missing() -> StdSource<R>
        ensures { result ≡ record { reader = None; taken = 0; faults = 0 } }
    {
        StdSource {
            reader: None,
            taken: 0,
            faults: 0,
        }
    }
}

/// Reads once, and moves what came to the beginning of `out`. The reader's own buffer is apart from `out`, since a
/// reader may write past the bytes that it counts, and if it fails.
fn read_once<R: Read>(reader: &mut Option<R>, out: &mut [u8]) -> Result<usize, PortFailed>
    ensures moves { MovesOrKeeps (option_and_then R.remaining reader.old)
        (option_and_then R.remaining reader.new) out.old out.new result }
    ensures kind { is_some reader.new ≡ is_some reader.old }
    ensures missing { reader.old ≡ None → result ≡ Err (record {}) }
{
    let Some(reader) = reader else {
        return Err(PortFailed);
    };
    let mut piece = [0u8; PIECE];
    let room = PIECE.min(out.len());
    match reader.read(&mut piece[..room]) {
        Ok(count) => {
            out[..count].copy_from_slice(&piece[..count]);
            Ok(count)
        }
        Err(_) => Err(PortFailed),
    }
}

impl<R: Read> Source for StdSource<R> {
    ghost state = { std_source R.remaining };

    fn read(&mut self, out: &mut [u8]) -> Result<usize, PortFailed>
        ensures exactly { StdReads self.old self.new result }
        ensures reads { Reads (std_source R.remaining self.old)
            (std_source R.remaining self.new) out.old out.new result }
    {
        match read_once(&mut self.reader, out) {
            Ok(count) => {
                self.taken = self.taken.saturating_add(count as u64);
                Ok(count)
            }
            Err(failed) => {
                count_fault(&mut self.faults);
                Err(failed)
            }
        }
    }
}

/// A sink over a standard writer. Each error of the writer is a fault, and so is a write that took
/// nothing.
#[derive(Drop)]
pub struct StdSink<W: Write> {
    writer: W,
    faults: u64,
}

impl<W: Write> Model for StdSink<W> {
    ghost use Rattle.bus_port.specs.StdPort.{StdSinkState};

    ghost Value = { StdSinkState W };

    ghost view = { λ s. record { writer = s.writer; faults = s.faults } };
}

impl<W: Write> StdSink<W> {
    /// A sink into the writer.
    pub fn new(inner: W) -> StdSink<W>
        ensures { result ≡ record { writer = inner; faults = 0 } }
    {
        StdSink {
            writer: inner,
            faults: 0,
        }
    }
}

impl<W: Write> Sink for StdSink<W> {
    ghost state = { std_sink W.contents };

    fn write(&mut self, bytes: &[u8]) -> Result<usize, PortFailed>
        requires { 0 < length bytes.now }
        ensures exactly { StdWrites self.old self.new result }
        ensures writes { Writes (std_sink W.contents self.old) (std_sink W.contents self.new) bytes.now result }
    {
        match self.writer.write(bytes) {
            Ok(count) if count > 0 => Ok(count),
            _ => {
                count_fault(&mut self.faults);
                Err(PortFailed)
            }
        }
    }
}
