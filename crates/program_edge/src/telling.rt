//! Endings that are printed.
ghost use Rattle.program_edge.specs.Told.{EndingTold};

use bus_port::{PortFailed, Sink, write_all};

/// The status if the command was done.
pub const DONE: u8 = 0;

/// The status if the sink failed.
pub const WRITE_FAULT: u8 = 6;

/// The status if memory is out, for which nothing is printed.
pub const NO_MEMORY: u8 = 7;

/// Writes the text of an ending, and gives the status that the program ends with: the ending's, or 6 if the sink
/// failed, which then has a proper prefix of the text.
pub fn tell<K: Sink>(sink: &mut K, text: &[u8], status: u8) -> u8
    ensures { EndingTold (K.state sink.old) (K.state sink.new) text.now status result }
{
    match write_all(sink, text) {
        Ok(()) => status,
        Err(PortFailed) => WRITE_FAULT,
    }
}
