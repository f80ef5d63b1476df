//! The line that no line feed has ended yet.
ghost use Rattle.std.specs.Prelude.{◌≡◌, ◌+◌, ◌-◌, ◌<◌, ◌≤◌, ◌++◌, ℕ, [], length, take, IfOk, OnOk};
ghost use Rattle.std.specs.List.{position_or_len};
ghost use Rattle.basics.specs.FaultCount.{counted};
ghost use Rattle.text_lines.specs.Lines.{is_line_feed};
ghost use Rattle.line_stream.specs.Unended.{HasLineRoom, TakesPrefix, TakesBytes};

use crate::pieces::until_feed;
use crate::taker::LineTaker;
use arrayvec::ArrayVec;
use std::marker::Model;

/// The most bytes of a line that a program looks at, its line feed not counted.
const LINE_LIMIT: usize = 4096;

/// The line that no line feed has ended yet, and the number of lines before it. Of a line of more than 4,096 bytes it
/// has the first 4,097.
#[derive(Drop)]
pub(crate) struct UnendedLine {
    line: ArrayVec<u8, 4097>,
    lines: u64,
}

impl Model for UnendedLine {
    ghost use Rattle.std.specs.Prelude.{◌≡◌, length};
    ghost use Rattle.std.specs.List.{position_or_len};
    ghost use Rattle.text_lines.specs.Lines.{is_line_feed};
    ghost use Rattle.line_stream.specs.Unended.{UnendedState};

    ghost Value = { UnendedState };

    ghost view = { λ u. record { line = u.line.items; lines = u.lines } };

    ghost invariant = { λ u. position_or_len is_line_feed u.line.items ≡ length u.line.items };
}

impl UnendedLine {
    /// Before the log.
    pub(crate) fn new() -> UnendedLine
        ensures { result ≡ record { line = []; lines = 0 } }
    {
        UnendedLine {
            line: ArrayVec::new(),
            lines: 0,
        }
    }

    /// Hands the lines to the taker that are complete with a piece.
    pub(crate) fn take_piece<A: LineTaker>(
        &mut self,
        piece: &[u8],
        taker: &mut A,
    ) -> Result<(), A::End>
        requires short { length piece.now ≤ 4096 }
        requires line { length self.old.line ≤ 4097 }
        requires ready { A.ready taker.old 8193 4097 }
        ensures room { OnOk result (HasLineRoom A.ready taker.new 0 0) }
        ensures borrows { A.borrows taker.new ≡ A.borrows taker.old }
        ensures takes { TakesBytes A.takes self.old (A.state taker.old) piece.now self.new (A.state taker.new) result }
    {
        let mut at = 0;
        while at < piece.len() {
            match self.take_prefix(&piece[at..], taker) {
                Ok(count) => at += count,
                Err(end) => return Err(end),
            }
        }
        Ok(())
    }

    /// Takes the bytes through the first line feed, or all if there is none, and gives their number.
    fn take_prefix<A: LineTaker>(&mut self, bytes: &[u8], taker: &mut A) -> Result<usize, A::End>
        requires some { 0 < length bytes.now }
        requires room { HasLineRoom A.ready taker.old (length self.old.line + length bytes.now) (length bytes.now) }
        ensures some { IfOk result (λ count. 0 < count) }
        ensures within { IfOk result (λ count. count ≤ length bytes.now) }
        ensures room { IfOk result (λ count. HasLineRoom A.ready taker.new
            (length self.new.line + (length bytes.now - count)) (length bytes.now - count)) }
        ensures borrows { A.borrows taker.new ≡ A.borrows taker.old }
        ensures takes { TakesPrefix A.takes self.old (A.state taker.old) bytes.now self.new (A.state taker.new) result }
    {
        let end = until_feed(bytes);
        self.keep(&bytes[..end]);
        if end == bytes.len() {
            return Ok(end);
        }
        match self.end_line(taker) {
            Ok(()) => Ok(end + 1),
            Err(stop) => Err(stop),
        }
    }

    /// Adds bytes without a line feed to the line.
    fn keep(&mut self, bytes: &[u8])
        requires { position_or_len is_line_feed bytes.now ≡ length bytes.now }
        ensures { self.new ≡ record self.old { line = take 4097 (self.old.line ++ bytes.now) } }
    {
        let room = LINE_LIMIT + 1 - self.line.len();
        let kept = &bytes[..room.min(bytes.len())];
        self.line.try_extend_from_slice(kept).unwrap();
    }

    /// The line has ended: hands it to the taker.
    pub(crate) fn end_line<A: LineTaker>(&mut self, taker: &mut A) -> Result<(), A::End>
        requires { HasLineRoom A.ready taker.old (length self.old.line) 1 }
        ensures unended { self.new ≡ record { line = []; lines = counted self.old.lines } }
        ensures ready { OnOk result ((bytes feeds : ℕ) → A.ready taker.old bytes feeds → length self.old.line ≤ bytes
            → 0 < feeds → A.ready taker.new (bytes - length self.old.line) (feeds - 1)) }
        ensures borrows { A.borrows taker.new ≡ A.borrows taker.old }
        ensures takes { A.takes (A.state taker.old) (counted self.old.lines) self.old.line (A.state taker.new) result }
    {
        self.lines = self.lines.saturating_add(1);
        let taken = taker.take(self.lines, self.line.as_slice());
        self.line.clear();
        taken
    }
}
