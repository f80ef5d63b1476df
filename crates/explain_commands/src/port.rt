//! Lines of a log that are explained on a sink.
ghost use Rattle.std.specs.Prelude.{◌≡◌, ◌+◌, ◌*◌, ◌≤◌, [], ◌∷◌, length};
ghost use Rattle.explain_commands.specs.ExplainStates.{ExplainerAtSink, ExplainsLine, PrintsText, TellsExplained};

use crate::state::Explainer;
use bus_port::{PortFailed, Sink, write_all};
use line_stream::LineTaker;
use program_edge::{WRITE_FAULT, tell};

/// An explainer, and the sink that it prints to before the log is read again.
#[derive(Drop)]
pub(crate) struct ExplainPort<'a, K: Sink> {
    pub(crate) explainer: &'a mut Explainer,
    pub(crate) sink: &'a mut K,
}

impl<'a, K: Sink> LineTaker for ExplainPort<'a, K> {
    type End = u8;

    ghost State = { ExplainerAtSink };

    ghost state = { λ port. record { explainer = port.explainer.now; sink = K.state port.sink.now } };

    ghost ready = { λ port bytes feeds. length port.explainer.now.text + 320 * feeds ≤ 1311040 };

    ghost borrows = { λ port. port.explainer.ghost_name ∷ port.sink.ghost_name ∷ [] };

    ghost takes = { ExplainsLine };

    ghost pauses = { PrintsText };

    ghost ends = { TellsExplained };

    fn take(&mut self, number: u64, line: &[u8]) -> Result<(), u8> {
        self.explainer.take(number, line);
        Ok(())
    }

    fn pause(&mut self) -> Result<(), u8> {
        let printed = write_all(self.sink, self.explainer.text());
        self.explainer.begin_text();
        match printed {
            Ok(()) => Ok(()),
            Err(PortFailed) => Err(WRITE_FAULT),
        }
    }

    fn finish(&mut self) -> u8 {
        tell(self.sink, self.explainer.text(), self.explainer.status())
    }
}
