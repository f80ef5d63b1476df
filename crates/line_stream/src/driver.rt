//! The driver of programs that answer the lines of a log as they come.
ghost use Rattle.std.specs.Prelude.{◌≡◌, ◌≤◌, ℕ, List, length, IfNone};
ghost use Rattle.bus_port.specs.Source.{SourceState};
ghost use Rattle.line_stream.specs.Streams.{Streamed};
ghost use Rattle.line_stream.specs.Unended.{StreamSoFar, StreamTurns, EndsAfterLast};

use crate::pieces::PIECE;
use crate::taker::LineTaker;
use crate::unended::UnendedLine;
use bus_port::{PortFailed, Source};

/// Why a log was not taken to its end, though its taker didn't end it.
#[derive(Clone, Copy, Debug, PartialEq, Eq)]
pub enum StreamFault {
    /// The log's count of faults rose.
    ReadFault,
    /// 2^64 - 1 bytes came of it, or more.
    TooLong,
}

/// Reads a log in pieces of at most 4,096 bytes. It hands each line that a piece completes, with its number, to the
/// taker, and lets the taker pause, before it reads the next piece. At the end of the log it hands over what stands
/// after the last line feed, too. Once the taker ends the log, nothing more is asked of it. This takes no memory.
pub fn stream_lines<T: Source, A: LineTaker>(
    log: &mut T,
    taker: &mut A,
) -> Result<A::End, StreamFault>
    requires { A.ready taker.old 8193 4097 }
    ensures borrows { A.borrows taker.new ≡ A.borrows taker.old }
    ensures streamed { Streamed A.takes A.pauses A.ends (record { before = T.state log.old; after = T.state log.new })
        (A.state taker.old) (A.state taker.new) result }
{
    let mut unended = UnendedLine::new();
    let mut piece = [0u8; PIECE];
    for _ in 0..u64::MAX {
        match next_piece(&mut unended, log, &mut piece, taker) {
            Some(end) => return end,
            None => (),
        }
    }
    Err(StreamFault::TooLong)
}

/// Takes the lines that the next piece of a log completes. It gives an end if the log ended or failed, or the taker
/// ended it.
fn next_piece<T: Source, A: LineTaker>(
    unended: &mut UnendedLine,
    log: &mut T,
    piece: &mut [u8; PIECE],
    taker: &mut A,
) -> Option<Result<A::End, StreamFault>>
    requires line { length unended.old.line ≤ 4097 }
    requires ready { A.ready taker.old 8193 4097 }
    ensures ready { IfNone result (A.ready taker.new 8193 4097) }
    ensures borrows { A.borrows taker.new ≡ A.borrows taker.old }
    ensures turns { (first : SourceState) (start : A.State) (bytes : List ℕ) (lines : List (List ℕ))
        → StreamSoFar A.takes A.pauses (record { before = first; after = T.state log.old }) unended.old start
        (A.state taker.old) bytes lines
        → StreamTurns A.takes A.pauses A.ends (record { before = first; after = T.state log.new }) unended.new start
        (A.state taker.new) bytes lines result }
{
    let count = match log.read(piece) {
        Ok(count) => count,
        Err(PortFailed) => return Some(Err(StreamFault::ReadFault)),
    };
    if count == 0 {
        return Some(Ok(end_stream(unended, taker)));
    }
    match unended.take_piece(&piece[..count], taker) {
        Ok(()) => (),
        Err(end) => return Some(Ok(end)),
    }
    match taker.pause() {
        Ok(()) => None,
        Err(end) => Some(Ok(end)),
    }
}

/// The log ended: takes its last line.
fn end_stream<A: LineTaker>(unended: &mut UnendedLine, taker: &mut A) -> A::End
    requires line { length unended.old.line ≤ 4097 }
    requires ready { A.ready taker.old 8193 4097 }
    ensures borrows { A.borrows taker.new ≡ A.borrows taker.old }
    ensures ends { EndsAfterLast A.takes A.ends unended.old (A.state taker.old) (A.state taker.new) result }
{
    match unended.end_line(taker) {
        Ok(()) => taker.finish(),
        Err(end) => end,
    }
}
