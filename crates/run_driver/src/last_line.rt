//! Lines that are written to a sink up to one that is the last by itself.
ghost use Rattle.std.specs.Prelude.{◌≡◌, ℕ, ◌^◌, ◌<◌, List, [], ◌∷◌, length, Bool};
ghost use Rattle.bus_port.specs.Sink.{SinkState};
ghost use Rattle.run_driver.specs.PrintedUntil.{WritesUntil, PrintedUntil};

use crate::machine::{Consumer, Machine, drive};
use crate::printing::{LineText, Unwritten, write_line};
use bus_port::Sink;
use std::alloc::Global;
use std::marker::PhantomData;

/// Why no further command was done.
#[derive(Clone, Copy, Debug, PartialEq, Eq)]
pub enum Stop {
    /// The machine's line is a last one; its text is written whole.
    Last,
    /// The text of the machine's line is not written whole.
    Unprinted(Unwritten),
}

/// How a line is written, and which lines are last ones.
pub trait EndingText<L>: LineText<L> {
    /// After this line no command is to be done.
    ghost ends: { L → Bool };

    fn is_last(line: &L) -> bool
        ensures { result ≡ ends line.now };
}

/// A sink that lines are written to, and room for the text of one.
#[derive(Drop)]
struct Printer<'a, W, K: Sink> {
    alloc: Global,
    text: &'a mut Vec<u8>,
    sink: &'a mut K,
    writes: PhantomData<W>,
}

impl<'a, L: Drop, W: EndingText<L>, K: Sink> Consumer<L> for Printer<'a, W, K> {
    type Refusal = Stop;

    ghost State = { SinkState };

    ghost state = { λ printer. K.state printer.sink.now };

    ghost borrows = { λ printer. printer.sink.ghost_name ∷ [] };

    ghost takes = { WritesUntil W.text W.ends };

    fn take(&mut self, number: u32, line: L) -> Result<(), Stop> {
        match write_line::<W, L, K>(self.alloc, number, &line, self.text, self.sink) {
            Ok(()) => {}
            Err(cause) => return Err(Stop::Unprinted(cause)),
        }
        if W::is_last(&line) {
            return Err(Stop::Last);
        }
        Ok(())
    }
}

/// Does the commands in their order, and writes the text of each line to the sink before the next
/// command is done.
///
/// It ends after the first line that is a last one, or at the first whose text is not written whole.
pub fn print_run_until_last<M: Machine, W: EndingText<M::Line>, K: Sink>(
    alloc: Global,
    machine: &mut M,
    commands: &[M::Command],
    sink: &mut K,
) -> Result<(), Stop>
    requires few { length commands.now < 2 ^ 32 }
    requires ready { M.ready machine.old commands.now }
    ensures borrows { M.borrows machine.new ≡ M.borrows machine.old }
    ensures printed { PrintedUntil M.steps W.text W.ends (M.state machine.old) (M.state machine.new) (K.state sink.old)
        (K.state sink.new) commands.now result }
{
    let mut text = Vec::new(alloc);
    let mut printer = Printer {
        alloc,
        text: &mut text,
        sink,
        writes: PhantomData::<W>,
    };
    drive(machine, commands, &mut printer)
}
