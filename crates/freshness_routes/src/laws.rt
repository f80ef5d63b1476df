//! Laws of the changes of bounds, and of limits: the contract of each function is the law, and its body is empty.
ghost use Rattle.std.specs.Prelude.{◌≡◌};
ghost use Rattle.freshness_routes.specs.ChangeLaws.{BoundsMoveForward, UsedBoundMoves, WorkedChanges};

use crate::config::{MOST_RESERVE, MOST_ROUTES};
use secured_pdu::WIDEST_WINDOW;

/// A bound that moves rises, covers the freshness in use, and is less than a reserve ahead of it. One that is used up
/// moves by a whole reserve.
pub fn bounds_move_forward()
    ensures forward { BoundsMoveForward }
    ensures used { UsedBoundMoves }
{}

/// Worked values of sends and of verdicts.
pub fn worked_changes()
    ensures { WorkedChanges }
{}

/// The limits of a route and of a node are these numbers.
pub fn worked_limits()
    ensures reserve { MOST_RESERVE ≡ 128 }
    ensures window { WIDEST_WINDOW ≡ 256 }
    ensures routes { MOST_ROUTES ≡ 256 }
{}
