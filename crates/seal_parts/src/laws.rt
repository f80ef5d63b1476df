//! What no store on a part can do: each function has an empty body, and its contract is the law.
ghost use Rattle.std.specs.Prelude.{◌≡◌, ◌⊎◌, ℕ, false, List, [], ◌∷◌};
ghost use Rattle.seal_parts.specs.declared.PartClass.TheVariants.{Guards, Blanks};
ghost use Rattle.seal_parts.specs.Parts.{PartFlash, PartView, IsGuard, ReadsUnits};
ghost use Rattle.seal_parts.specs.Designs.{PartWrite, programs_unit, PartDesign, PartLife, PartLives, DoesPartWrites};
ghost use Rattle.seal_parts.specs.Designs.{KeepsDuties, NoFalseAlarm, LosesUnit};

use crate::{PartClass, UnitContent, UnitKind};

/// If the first write of a life is a program, then the part is one of blanks, or it is one of guards and the unit is
/// a guard. For if the power cuts this program, all may be read as before, and the next life programs the same unit
/// again. So if reads settle and nothing more is promised, the first write of a life that writes is an erase.
pub fn the_first_program_is_of_a_guard_or_of_what_was_told_blank()
    ensures { (class : PartClass) (d : PartDesign) (start f g : PartFlash) (lives : List PartLife) (view : PartView)
        (value bank place : ℕ) (kind : UnitKind) (content : UnitContent) (rest : List PartWrite)
        → KeepsDuties class d start → PartLives class d lives start f → ReadsUnits class f view g
        → d.writes view value ≡ programs_unit bank place kind content ∷ rest
        → (class ≡ Blanks) ⊎ ((class ≡ Guards) × IsGuard kind) }
{}

/// If a put is one program, the next start doesn't tell its loss. For what is left then may be left by a cut, too, and
/// no start may raise an alarm after a cut. So behind the line of a put another unit has to say that the line was done.
pub fn the_loss_of_a_put_of_one_program_is_not_told()
    ensures { (class : PartClass) (d : PartDesign) (start f g h lost after : PartFlash) (lives : List PartLife)
        (view now : PartView) (value bank place : ℕ) (kind : UnitKind) (content : UnitContent)
        → NoFalseAlarm class d start → PartLives class d lives start f → ReadsUnits class f view g
        → d.writes view value ≡ programs_unit bank place kind content ∷ []
        → DoesPartWrites class (d.writes view value) g h → LosesUnit bank place kind h lost
        → ReadsUnits class lost now after → d.tells_loss now ≡ false }
{}
