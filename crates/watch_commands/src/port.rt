//! Lines of a log that are watched on a sink.
ghost use Rattle.std.specs.Prelude.{◌≡◌, ◌+◌, ◌*◌, ◌≤◌, [], ◌∷◌, length};
ghost use Rattle.watch_commands.specs.States.{WatchAtSink, WatchesLineAt, PrintsFound, TellsTotals};

use crate::state::Watch;
use bus_port::{PortFailed, Sink, write_all};
use line_stream::LineTaker;
use program_edge::{WRITE_FAULT, tell};

/// A watch, and the sink that it prints to before the log is read again.
#[derive(Drop)]
pub(crate) struct WatchPort<'a, K: Sink> {
    pub(crate) watch: &'a mut Watch,
    pub(crate) sink: &'a mut K,
}

impl<'a, K: Sink> LineTaker for WatchPort<'a, K> {
    type End = u8;

    ghost State = { WatchAtSink };

    ghost state = { λ port. record { watch = port.watch.now; sink = K.state port.sink.now } };

    ghost ready = { λ port bytes feeds. length port.watch.now.text + 12 * bytes + 368 * feeds ≤ 1606012 };

    ghost borrows = { λ port. port.watch.ghost_name ∷ port.sink.ghost_name ∷ [] };

    ghost takes = { WatchesLineAt };

    ghost pauses = { PrintsFound };

    ghost ends = { TellsTotals };

    fn take(&mut self, number: u64, line: &[u8]) -> Result<(), u8> {
        self.watch.take(number, line);
        Ok(())
    }

    fn pause(&mut self) -> Result<(), u8> {
        let printed = write_all(self.sink, self.watch.text());
        self.watch.begin_text();
        match printed {
            Ok(()) => Ok(()),
            Err(PortFailed) => Err(WRITE_FAULT),
        }
    }

    fn finish(&mut self) -> u8 {
        let status = self.watch.end();
        tell(self.sink, self.watch.text(), status)
    }
}
