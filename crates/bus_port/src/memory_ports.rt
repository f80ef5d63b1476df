//! Ports over memory, whose every byte and every fault is known.
ghost use Rattle.std.specs.Prelude.{◌≡◌, ◌↔◌, ◌<◌, ◌≤◌, min, [], length, take, drop, Contains, IfOk, IsOk, IsTrue};
ghost use Rattle.bus_port.specs.Fault.{counted};
ghost use Rattle.bus_port.specs.Source.{Reads};
ghost use Rattle.bus_port.specs.Sink.{Writes};
ghost use Rattle.bus_port.specs.MemSource.{MemReads, mem_source, clean_source};
ghost use Rattle.bus_port.specs.MemSink.{MemWrites, mem_sink};

use crate::port::{Memory, PortFailed, Sink, Source};
use basics::count_fault;
use std::alloc::Global;
use std::marker::Model;

/// Which calls fail, how many there were, and how many faults.
#[derive(Debug, Drop)]
struct Plan {
    failing: Vec<u64>,
    calls: u64,
    faults: u64,
}

impl Plan {
    fn new(failing: Vec<u64>) -> Self
        ensures failing { result.failing ≡ failing }
        ensures calls { result.calls ≡ 0 }
        ensures faults { result.faults ≡ 0 }
    {
        Plan {
            failing,
            calls: 0,
            faults: 0,
        }
    }

    /// Counts a call, and says whether it is one that fails.
    fn next_fails(&mut self) -> bool
        ensures fails { IsTrue result ↔ Contains self.old.failing.items (counted self.old.calls) }
        ensures counts { self.new ≡ record self.old { calls = counted self.old.calls } }
    {
        self.calls = self.calls.saturating_add(1);
        self.failing.contains(&self.calls)
    }

    /// Counts a fault.
    fn add_fault(&mut self)
        ensures { self.new ≡ record self.old { faults = counted self.old.faults } }
    {
        count_fault(&mut self.faults);
    }
}

/// Copies the next bytes after `done` to the beginning of `out`, at most `most`, and returns how many.
fn hand_out(bytes: &[u8], done: usize, most: usize, out: &mut [u8]) -> usize
    requires { done ≤ length bytes.now }
    ensures count { result ≡ min (min most (length out.old)) (length (drop done bytes.now)) }
    ensures front { take result out.new ≡ take result (drop done bytes.now) }
    ensures beyond { drop result out.new ≡ drop result out.old }
{
    let count = most.min(out.len()).min(bytes.len() - done);
    out[..count].copy_from_slice(&bytes[done..done + count]);
    count
}

/// A source over memory that hands out small pieces and fails at calls of one's choice.
#[derive(Debug, Drop)]
pub struct MemSource {
    bytes: Vec<u8>,
    done: usize,
    piece: usize,
    plan: Plan,
}

impl Model for MemSource {
    ghost use Rattle.std.specs.Prelude.{◌≤◌, length, drop};
    ghost use Rattle.bus_port.specs.MemSource.{MemSourceState};

    ghost Value = { MemSourceState };

    ghost view = { λ s. record {
      left = drop s.done s.bytes.items;
      taken = s.done;
      failing = s.plan.failing.items;
      calls = s.plan.calls;
      piece = s.piece;
      faults = s.plan.faults;
    } };

    ghost invariant = { λ s. (s.done ≤ length s.bytes.items) × (1 ≤ s.piece) };
}

impl MemSource {
    /// A source of these bytes. A call hands out at most `piece` bytes, and exactly the calls whose
    /// numbers, from 1, are in `failing` fail.
    pub fn new(bytes: Vec<u8>, failing: Vec<u64>, piece: usize) -> MemSource
        requires { 1 ≤ piece }
        ensures { result ≡ record {
          left = bytes.items;
          taken = 0;
          failing = failing.items;
          calls = 0;
          piece = piece;
          faults = 0;
        } }
    {
        MemSource {
            bytes,
            done: 0,
            piece,
            plan: Plan::new(failing),
        }
    }
}

impl Source for MemSource {
    ghost state = { mem_source };

    fn read(&mut self, out: &mut [u8]) -> Result<usize, PortFailed>
        ensures exactly { MemReads self.old self.new (length out.old) result }
        ensures reads { Reads (mem_source self.old) (mem_source self.new) out.old out.new result }
    {
        if self.plan.next_fails() {
            self.plan.add_fault();
            return Err(PortFailed);
        }
        let count = hand_out(&self.bytes, self.done, self.piece, out);
        self.done += count;
        Ok(count)
    }
}

/// A source over memory that never fails: its count of faults is always 0.
#[derive(Debug, Drop)]
pub struct CleanSource {
    bytes: Vec<u8>,
    done: usize,
}

impl Model for CleanSource {
    ghost use Rattle.std.specs.Prelude.{◌≤◌, length, drop};
    ghost use Rattle.bus_port.specs.MemSource.{CleanSourceState};

    ghost Value = { CleanSourceState };

    ghost view = { λ s. record { left = drop s.done s.bytes.items; taken = s.done } };

    ghost invariant = { λ s. s.done ≤ length s.bytes.items };
}

impl CleanSource {
    /// A source of these bytes.
    pub fn new(bytes: Vec<u8>) -> CleanSource
        ensures { result ≡ record { left = bytes.items; taken = 0 } }
    {
        CleanSource { bytes, done: 0 }
    }
}

impl Source for CleanSource {
    ghost state = { clean_source };

    fn read(&mut self, out: &mut [u8]) -> Result<usize, PortFailed>
        ensures never_fails { IsOk result }
        ensures count { IfOk result (λ n. n ≡ min (length out.old) (length self.old.left)) }
        ensures reads { Reads (clean_source self.old) (clean_source self.new) out.old out.new result }
    {
        let count = hand_out(&self.bytes, self.done, out.len(), out);
        self.done += count;
        Ok(count)
    }
}

/// A source of a text that stands in the program: it takes no memory, and never fails.
#[derive(Drop)]
pub struct TextSource<'a> {
    text: &'a [u8],
    done: usize,
}

impl<'a> Model for TextSource<'a> {
    ghost use Rattle.std.specs.Prelude.{◌≤◌, length, drop};
    ghost use Rattle.bus_port.specs.MemSource.{CleanSourceState};

    ghost Value = { CleanSourceState };

    ghost view = { λ s. record { left = drop s.done s.text.now; taken = s.done } };

    ghost invariant = { λ s. s.done ≤ length s.text.now };
}

impl<'a> TextSource<'a> {
    /// A source of this text.
    pub fn new(text: &'a [u8]) -> Self
        ensures { result ≡ record { left = text.entry.now; taken = 0 } }
    {
        TextSource { text, done: 0 }
    }
}

impl<'a> Source for TextSource<'a> {
    ghost state = { clean_source };

    fn read(&mut self, out: &mut [u8]) -> Result<usize, PortFailed>
        ensures never_fails { IsOk result }
        ensures count { IfOk result (λ n. n ≡ min (length out.old) (length self.old.left)) }
        ensures reads { Reads (clean_source self.old) (clean_source self.new) out.old out.new result }
    {
        let count = hand_out(self.text, self.done, out.len(), out);
        self.done += count;
        Ok(count)
    }
}

/// A sink over memory that takes small pieces into room taken at once, and fails at calls of one's
/// choice.
#[derive(Debug, Drop)]
pub struct MemSink {
    bytes: Vec<u8>,
    room: usize,
    piece: usize,
    plan: Plan,
}

impl Model for MemSink {
    ghost use Rattle.std.specs.Prelude.{◌≤◌, vec_len, vec_capacity};
    ghost use Rattle.bus_port.specs.MemSink.{MemSinkState};

    ghost Value = { MemSinkState };

    ghost view = { λ s. record {
      held = s.bytes.items;
      room = s.room;
      failing = s.plan.failing.items;
      calls = s.plan.calls;
      piece = s.piece;
      faults = s.plan.faults;
    } };

    ghost invariant = { λ s. (vec_len s.bytes ≤ s.room) × (s.room ≤ vec_capacity s.bytes) × (1 ≤ s.piece) };
}

impl MemSink {
    /// A sink with room for `room` bytes. A call appends at most `piece` bytes, and fails exactly if its number, from
    /// 1, is in `failing`, or the room is full.
    pub fn new(
        alloc: Global,
        room: usize,
        failing: Vec<u64>,
        piece: usize,
    ) -> Result<MemSink, Memory>
        requires { 1 ≤ piece }
        ensures { IfOk result (λ sink. sink ≡ record {
          held = [];
          room = room;
          failing = failing.items;
          calls = 0;
          piece = piece;
          faults = 0;
        }) }
    {
        match Vec::with_capacity(alloc, room) {
            Ok(bytes) => Ok(MemSink {
                bytes,
                room,
                piece,
                plan: Plan::new(failing),
            }),
            Err(_) => Err(Memory),
        }
    }

    /// The bytes written.
    pub fn bytes(&self) -> &[u8]
        ensures { result.now ≡ self.now.held }
    {
        self.bytes.as_slice()
    }
}

impl Sink for MemSink {
    ghost state = { mem_sink };

    fn write(&mut self, bytes: &[u8]) -> Result<usize, PortFailed>
        requires { 0 < length bytes.now }
        ensures exactly { MemWrites self.old self.new bytes.now result }
        ensures writes { Writes (mem_sink self.old) (mem_sink self.new) bytes.now result }
    {
        let fails = self.plan.next_fails();
        let left = self.room - self.bytes.len();
        if fails || left == 0 {
            self.plan.add_fault();
            return Err(PortFailed);
        }
        let count = self.piece.min(bytes.len()).min(left);
        match self.bytes.extend_from_slice(&bytes[..count]) {
            Ok(()) => Ok(count),
            Err(_) => unreachable!(),
        }
    }
}
