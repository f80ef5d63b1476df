//! Laws of the marks and of the lifelines of all runs: the contract of each function is the law.
ghost use Rattle.chart_commands.specs.MarkLaws.{ArrowsAreAcceptances, DownIsDrawnDown};

use bus_laws::runs_are_authentic;

/// In each run from a first world an acceptance that names an event has exactly one arrow. It comes from the row and
/// the lifeline of that event, which sent it. One that names none has an arrow from the left edge. There is no other
/// arrow to an acceptance.
pub fn arrows_are_acceptances()
    ensures { ArrowsAreAcceptances }
{
    runs_are_authentic();
}

/// In each run from a first world, after each row, a lifeline is drawn down exactly if its node is down, and up exactly
/// if it is up. Beside the sign of a cut after which the node is up it may be left out.
pub fn down_is_drawn_down()
    ensures { DownIsDrawnDown }
{}
