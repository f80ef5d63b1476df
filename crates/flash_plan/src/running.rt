//! A caller in Rust: it performs what a plan says, and reports it.
ghost use Rattle.std.specs.Prelude.{◌≡◌, ◌⊎◌, length};
ghost use Rattle.flash_places.specs.State.{FlashRuns};
ghost use Rattle.flash_laws.specs.Lives.{FlashMachine};
ghost use Rattle.flash_plan.specs.Plans.{IsPlanOf, SameSizes, IsAtRest};
ghost use Rattle.flash_plan.specs.Standing.{plan_layout, StandsAt};
ghost use Rattle.flash_plan.specs.Formatting.{FormatsAt};
ghost use Rattle.flash_plan.specs.Turns.{IsStanding, TurnsTo};

use crate::operations::perform;
use crate::plans::FlashPlan;
use flash_places::FlashDevice;

/// Performs what the plan says and reports it, until nothing comes next: the plan is idle or has ended. It stands at a
/// point of the machine (`IsStanding`), or formats (`FormatsAt`).
pub fn run_plan<D: FlashDevice>(
    device: &mut D,
    plan: &mut FlashPlan,
    cells: &mut [[u8; 32]],
    scratch: &mut [[u8; 32]],
)
    requires plan { IsPlanOf (length cells.old) plan.old }
    requires alike { length scratch.old ≡ length cells.old }
    requires banks { plan.old.banks ≡ (D.state device.old).banks }
    requires places { plan.old.places ≡ (D.state device.old).places }
    requires known { IsStanding (plan_layout plan.old (length cells.old)) plan.old cells.old scratch.old
        (D.state device.old).flash ⊎ FormatsAt plan.old cells.old (D.state device.old).flash }
    ensures plan { IsPlanOf (length cells.old) plan.new }
    ensures sizes { SameSizes plan.old plan.new }
    ensures runs { FlashRuns (D.state device.old) (D.state device.new) }
    ensures stands { IsStanding (plan_layout plan.old (length cells.old)) plan.old cells.old scratch.old
        (D.state device.old).flash → IsStanding (plan_layout plan.old (length cells.old)) plan.new cells.new scratch.new
        (D.state device.new).flash }
    ensures formats { FormatsAt plan.old cells.old (D.state device.old).flash
        → FormatsAt plan.new cells.new (D.state device.new).flash }
    ensures turns { (at : FlashMachine)
        → StandsAt (plan_layout plan.old (length cells.old)) plan.old cells.old scratch.old at
        (D.state device.old).flash
        → TurnsTo (plan_layout plan.old (length cells.old)) plan.new cells.new scratch.new at
        (D.state device.new).flash }
    ensures rests { IsAtRest plan.new cells.new }
{
    while let Some(operation) = plan.next(cells) {
        let outcome = perform(device, &operation);
        plan.did(cells, scratch, outcome);
    }
}
