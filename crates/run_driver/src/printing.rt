//! Lines that are written to a sink as the machine gives them.
ghost use Rattle.std.specs.Prelude.{◌≡◌, ℕ, ◌^◌, ◌<◌, ◌++◌, List, [], ◌∷◌, length, OnOk};
ghost use Rattle.bus_port.specs.Sink.{SinkState};
ghost use Rattle.run_driver.specs.Printed.{WritesLine, Printed};

use crate::machine::{Consumer, Machine, drive};
use bus_port::{Memory, Sink, write_all};
use std::alloc::Global;
use std::marker::PhantomData;

/// Why the text of a line was not written whole.
#[derive(Clone, Copy, Debug, PartialEq, Eq)]
pub enum Unwritten {
    /// The sink failed: its count of faults rose. A proper prefix of the text may be written.
    SinkFailed,
    /// No memory was left for the text, and nothing of it is written.
    Memory,
}

/// How a line is written with its number.
pub trait LineText<L> {
    /// The text, with the line feed at its end.
    ghost text: { ℕ → L → List ℕ };

    /// Appends the text of the line with this number, from 1.
    fn append(alloc: Global, number: u32, line: &L, out: &mut Vec<u8>) -> Result<(), Memory>
        ensures { OnOk result (out.new.items ≡ out.old.items ++ text number line.now) };
}

/// Writes the text of a line to the sink. `text` is room for it, whose old content is dropped.
pub(crate) fn write_line<W: LineText<L>, L, K: Sink>(
    alloc: Global,
    number: u32,
    line: &L,
    text: &mut Vec<u8>,
    sink: &mut K,
) -> Result<(), Unwritten>
    ensures { WritesLine W.text (K.state sink.old) number line.now (K.state sink.new) result }
{
    text.clear();
    match W::append(alloc, number, line, text) {
        Ok(()) => {}
        Err(_) => return Err(Unwritten::Memory),
    }
    match write_all(sink, text.as_slice()) {
        Ok(()) => Ok(()),
        Err(_) => Err(Unwritten::SinkFailed),
    }
}

/// A sink that lines are written to, and room for the text of one.
#[derive(Drop)]
struct Printer<'a, W, K: Sink> {
    alloc: Global,
    text: &'a mut Vec<u8>,
    sink: &'a mut K,
    writes: PhantomData<W>,
}

impl<'a, L: Drop, W: LineText<L>, K: Sink> Consumer<L> for Printer<'a, W, K> {
    type Refusal = Unwritten;

    ghost State = { SinkState };

    ghost state = { λ printer. K.state printer.sink.now };

    ghost borrows = { λ printer. printer.sink.ghost_name ∷ [] };

    ghost takes = { WritesLine W.text };

    fn take(&mut self, number: u32, line: L) -> Result<(), Unwritten> {
        write_line::<W, L, K>(self.alloc, number, &line, self.text, self.sink)
    }
}

/// Does the commands in their order, and writes the text of each line to the sink before the next
/// command is done.
///
/// It ends at the first line whose text is not written whole. What was written of it, and of the lines
/// before it, stays in the sink.
pub fn print_run<M: Machine, W: LineText<M::Line>, K: Sink>(
    alloc: Global,
    machine: &mut M,
    commands: &[M::Command],
    sink: &mut K,
) -> Result<(), Unwritten>
    requires few { length commands.now < 2 ^ 32 }
    requires ready { M.ready machine.old commands.now }
    ensures borrows { M.borrows machine.new ≡ M.borrows machine.old }
    ensures printed { Printed M.steps W.text (M.state machine.old) (M.state machine.new) (K.state sink.old)
        (K.state sink.new) commands.now result }
{
    let mut text = Vec::new(alloc);
    let mut printer = Printer {
        alloc,
        text: &mut text,
        sink,
        writes: PhantomData::<W>,
    };
    drive(machine, commands, &mut printer)
}
