//! Lines of a log whose answers are compared with a text.
ghost use Rattle.std.specs.Prelude.{◌≡◌, ◌+◌, ◌*◌, ◌≤◌, [], ◌∷◌, length};
ghost use Rattle.watch_expect.specs.CompareSteps.{WatchAtText, ComparesLine, FollowsFound, EndsFound};

use crate::texts::{Difference, follow, follow_to_end};
use line_stream::LineTaker;
use watch_commands::Watch;

/// A watch, the kept text, and how many of its first bytes are what was found before the log was read last.
#[derive(Drop)]
pub(crate) struct ExpectPort<'a> {
    pub(crate) watch: &'a mut Watch,
    pub(crate) text: &'a [u8],
    pub(crate) at: usize,
}

impl<'a> LineTaker for ExpectPort<'a> {
    type End = Option<Difference>;

    ghost State = { WatchAtText };

    ghost state = { λ port. record { watch = port.watch.now; text = port.text.now; at = port.at } };

    ghost ready = { λ port bytes feeds. length port.watch.now.text + 12 * bytes + 368 * feeds ≤ 1606012 };

    ghost borrows = { λ port. port.watch.ghost_name ∷ [] };

    ghost takes = { ComparesLine };

    ghost pauses = { FollowsFound };

    ghost ends = { EndsFound };

    fn take(&mut self, number: u64, line: &[u8]) -> Result<(), Option<Difference>> {
        self.watch.take(number, line);
        Ok(())
    }

    fn pause(&mut self) -> Result<(), Option<Difference>> {
        match follow(self.text, self.at, self.watch.text()) {
            Ok(next) => {
                self.at = next;
                self.watch.begin_text();
                Ok(())
            }
            Err(difference) => Err(Some(difference)),
        }
    }

    fn finish(&mut self) -> Option<Difference> {
        self.watch.end();
        follow_to_end(self.text, self.at, self.watch.text())
    }
}
