//! Lines of a log that an endpoint answers on a sink.
ghost use Rattle.std.specs.Prelude.{◌≡◌, [], ◌∷◌};
ghost use Rattle.endpoint_commands.specs.States.{EndpointAtSink, AnswersLine, GoesOnAtPause, TellsCounts, stop_told};

use crate::endpoint::Endpoint;
use bus_port::{PortFailed, Sink, write_all};
use cell_store::Cells;
use line_stream::LineTaker;
use program_edge::{DONE, WRITE_FAULT, tell};

/// The status if the disk failed at a line of the log.
pub const DISK_FAULT: u8 = 11;

/// An endpoint, and the sink that it prints the answer to each line to before it takes the next one.
#[derive(Drop)]
pub(crate) struct EndpointPort<'a, 'b, C: Cells, K: Sink> {
    pub(crate) endpoint: &'a mut Endpoint<C>,
    pub(crate) sink: &'b mut K,
}

impl<'a, 'b, C: Cells, K: Sink> LineTaker for EndpointPort<'a, 'b, C, K> {
    type End = u8;

    ghost State = { EndpointAtSink };

    ghost state = { λ port. record { endpoint = port.endpoint.now; sink = K.state port.sink.now } };

    ghost borrows = { λ port. port.endpoint.ghost_name ∷ port.sink.ghost_name ∷ [] };

    ghost takes = { AnswersLine };

    ghost pauses = { GoesOnAtPause };

    ghost ends = { TellsCounts };

    fn take(&mut self, number: u64, line: &[u8]) -> Result<(), u8> {
        let failed = self.endpoint.answer(number, line);
        let printed = write_all(self.sink, self.endpoint.text());
        stop_after(printed, failed)
    }

    fn pause(&mut self) -> Result<(), u8> {
        Ok(())
    }

    fn finish(&mut self) -> u8 {
        self.endpoint.push_counts();
        tell(self.sink, self.endpoint.text(), DONE)
    }
}

/// Whether the next line is answered, by what became of the answer before, and whether the disk failed; else the status
/// that the run ends with.
fn stop_after(printed: Result<(), PortFailed>, failed: bool) -> Result<(), u8>
    ensures { result ≡ stop_told printed failed }
{
    if printed.is_err() {
        return Err(WRITE_FAULT);
    }
    if failed {
        return Err(DISK_FAULT);
    }
    Ok(())
}
