//! The laws: each function has an empty body, and its contract is the law.
ghost use Rattle.std.specs.Prelude.{◌≡◌, ◌≢◌, ◌⊎◌, ◌+◌, ◌*◌, ◌<◌, ◌≤◌, ◌^◌, ℕ, suc, true, Some};
ghost use Rattle.std.specs.Prelude.{List, [], ◌∷◌, length};
ghost use Rattle.seal_parts.specs.declared.PartClass.TheVariants.{Blanks};
ghost use Rattle.seal_parts.specs.Parts.{PartFlash, blank_unit};
ghost use Rattle.seal_parts.specs.declared.UnitKind.{UnitKind};
ghost use Rattle.seal_parts.specs.Designs.{DoesPartWrites, MayDoPartWrites, programs_unit};
ghost use Rattle.seal_parts.specs.declared.UnitKind.TheVariants.{Line, Confirm, SecondConfirm};
ghost use Rattle.seal_parts.specs.declared.UnitContent.TheVariants.{Mark, Holds};
ghost use Rattle.seal_parts.specs.declared.DeedBody.TheVariants.{Puts};
ghost use Rattle.seal_logs.specs.Starts.{IsMove};
ghost use Rattle.seal_logs.specs.declared.starting.StartEnd.TheVariants.{NoStore, Damaged, Found};
ghost use Rattle.seal_laws.specs.Writes.{start_writes, put_writes, move_writes, erases_begun_by, FitsPut};
ghost use Rattle.seal_laws.specs.Writes.{FitsMove, point_at, seal_line, deed_of, bank_after, first_writes};
ghost use Rattle.seal_laws.specs.Lives.{SealMachine, SealEvent, SealLives, FindsSeal, FormattedSeal, PossibleSeal};
ghost use Rattle.seal_laws.specs.Lives.{seal_ready, cuts_puts, cuts_start, puts_cell, starts, FitsSeal, OnlyResets};
ghost use Rattle.seal_laws.specs.Wear.{HasReserve, cut_places_since, cut_places_in, puts_done_in, puts_to_erase};
ghost use Rattle.seal_laws.specs.Wear.{programs_of_starts, erases_of_puts};

use crate::{SealPoint, SealSizes};
use seal_logs::{FoundStore, StartEnd};
use seal_parts::PartClass;

/// On a part of blanks a put is there whole or not at all, whenever the power goes, in any number of lives. If a store
/// is ready, its cells are what the puts that were done made of the first ones. Each put that the power cut into is
/// there or not. The same holds from each time that it is ready to each later one: what a start handed out stays.
pub fn a_put_is_whole_or_absent_on_a_part_of_blanks()
    ensures formatted { (s : SealSizes) (events : List SealEvent) (cells now : List (List ℕ)) (point : SealPoint)
        (a b : SealMachine) → FormattedSeal Blanks s cells a → SealLives Blanks s events a b
        → b.stage ≡ seal_ready point now → PossibleSeal events cells now }
    ensures later { (s : SealSizes) (earlier events : List SealEvent) (first cells now : List (List ℕ))
        (point later : SealPoint) (start a b : SealMachine) → FormattedSeal Blanks s first start
        → SealLives Blanks s earlier start a → a.stage ≡ seal_ready point cells → SealLives Blanks s events a b
        → b.stage ≡ seal_ready later now → PossibleSeal events cells now }
{}

/// On a part of blanks no start says that there is no store, or that a line was lost, whatever the units that aren't firm
/// are read as. So `Damaged` is no false alarm. After many cuts within starts, one may say that no place is left.
pub fn a_power_up_finds_the_store_on_a_part_of_blanks()
    ensures { (s : SealSizes) (events : List SealEvent) (cells found : List (List ℕ)) (a b : SealMachine)
        (end : StartEnd) (after : PartFlash) → FormattedSeal Blanks s cells a → SealLives Blanks s events a b
        → FindsSeal Blanks s b end found after → (end ≢ NoStore) × (end ≢ Damaged) }
{}

/// On a part of blanks each unit that is to be programmed is blank, in a bank whose last erase was done. That holds of the
/// first store, too, if all banks were erased.
pub fn a_unit_is_programmed_once_on_a_part_of_blanks()
    ensures start { (s : SealSizes) (events : List SealEvent) (cells now : List (List ℕ)) (a b : SealMachine)
        (found : FoundStore) (after : PartFlash) → FormattedSeal Blanks s cells a → SealLives Blanks s events a b
        → FindsSeal Blanks s b (Found found) now after → MayDoPartWrites Blanks (start_writes Blanks s found) after }
    ensures put { (s : SealSizes) (events : List SealEvent) (cells now : List (List ℕ)) (a b : SealMachine)
        (point : SealPoint) (cell : ℕ) (payload : List ℕ) → FormattedSeal Blanks s cells a
        → SealLives Blanks s events a b → b.stage ≡ seal_ready point now → FitsPut s point
        → MayDoPartWrites Blanks (put_writes Blanks point cell payload) b.flash }
    ensures moves { (s : SealSizes) (events : List SealEvent) (cells now made : List (List ℕ)) (a b : SealMachine)
        (point : SealPoint) → FormattedSeal Blanks s cells a → SealLives Blanks s events a b
        → b.stage ≡ seal_ready point now → FitsMove s point → length made ≡ length now
        → MayDoPartWrites Blanks (move_writes Blanks s point made) b.flash }
    ensures first { (s : SealSizes) (cells : List (List ℕ)) (before : PartFlash) → FitsSeal s
        → ((bank k : ℕ) (kind : UnitKind) → before.unit bank k kind ≡ blank_unit)
        → ((bank : ℕ) → bank < s.log.banks → before.is_erased bank ≡ true)
        → MayDoPartWrites Blanks (first_writes Blanks s.log.cells cells) before }
{}

/// A start erases nothing, of whatever class the part is. After a clean end in its bank it writes nothing at all. A put
/// erases nothing if it goes to the next place; a move erases one bank.
pub fn a_start_erases_nothing()
    ensures start { (class : PartClass) (s : SealSizes) (found : FoundStore)
        → erases_begun_by (start_writes class s found) ≡ 0 }
    ensures clean { (class : PartClass) (s : SealSizes) (found : FoundStore) → found.is_clean ≡ true
        → (IsMove found.latest.deed.body → ⊥) → start_writes class s found ≡ [] }
    ensures put { (class : PartClass) (point : SealPoint) (cell : ℕ) (payload : List ℕ)
        → erases_begun_by (put_writes class point cell payload) ≡ 0 }
    ensures moves { (class : PartClass) (s : SealSizes) (point : SealPoint) (cells : List (List ℕ))
        → erases_begun_by (move_writes class s point cells) ≡ 1 }
{}

/// On a part of blanks resets after a put that was done wear nothing, however many they are and wherever the power goes:
/// each start writes nothing, and all units stay as they were. So a thousand resets after such a put wear nothing. The
/// same holds after a move.
pub fn a_start_after_a_put_writes_nothing_on_a_part_of_blanks()
    ensures put { (s : SealSizes) (events resets : List SealEvent) (cells now made : List (List ℕ))
        (a b c d : SealMachine) (point : SealPoint) (cell : ℕ) (payload : List ℕ) (found : FoundStore)
        (after : PartFlash) → FormattedSeal Blanks s cells a → SealLives Blanks s events a b
        → b.stage ≡ seal_ready point now → FitsPut s point
        → DoesPartWrites Blanks (put_writes Blanks point cell payload) b.flash c.flash → OnlyResets resets
        → SealLives Blanks s resets c d → (d.flash ≡ c.flash)
        × (FindsSeal Blanks s d (Found found) made after → start_writes Blanks s found ≡ []) }
    ensures moves { (s : SealSizes) (events resets : List SealEvent) (cells now fresh made : List (List ℕ))
        (a b c d : SealMachine) (point : SealPoint) (found : FoundStore) (after : PartFlash)
        → FormattedSeal Blanks s cells a → SealLives Blanks s events a b → b.stage ≡ seal_ready point now
        → FitsMove s point → length fresh ≡ length now
        → DoesPartWrites Blanks (move_writes Blanks s point fresh) b.flash c.flash → OnlyResets resets
        → SealLives Blanks s resets c d → (d.flash ≡ c.flash)
        × (FindsSeal Blanks s d (Found found) made after → start_writes Blanks s found ≡ []) }
{}

/// On a part of blanks a store jams by cuts alone, if each bank has places for the copy, two deeds and the reserve.
/// Since the last put that was done, or since all cells were made anew, a put that is cut takes two places at most, and
/// a start that is cut takes one; starts that are done and losses of power take none. As long as they are no more than
/// the reserve, each start finds the store and a place. As long as they are fewer, a store that is ready has a place
/// for each put, by a move at least.
pub fn a_jam_needs_cuts_on_a_part_of_blanks()
    ensures start { (s : SealSizes) (events : List SealEvent) (cells made : List (List ℕ)) (a b : SealMachine)
        (end : StartEnd) (after : PartFlash) → FormattedSeal Blanks s cells a → HasReserve s
        → SealLives Blanks s events a b → FindsSeal Blanks s b end made after
        → cut_places_since 0 events ≤ s.reserve → (found : FoundStore) × (end ≡ Found found) }
    ensures put { (s : SealSizes) (events : List SealEvent) (cells now : List (List ℕ)) (a b : SealMachine)
        (point : SealPoint) → FormattedSeal Blanks s cells a → HasReserve s → SealLives Blanks s events a b
        → b.stage ≡ seal_ready point now → cut_places_since 0 events < s.reserve → suc point.generation < 2 ^ 64
        → FitsMove s point }
{}

/// On a part of blanks there are `puts_to_erase` puts at least to each erase that a put begins and is done, over all
/// lives. Each cut counts as the puts whose places it takes: a put that is cut as two, a start that is cut as one.
/// Starts that are done and losses of power count as none, however many they are. Besides, a put that is cut within its
/// move, and one that makes all cells anew, begin one erase each.
pub fn puts_erase_seldom_on_a_part_of_blanks()
    ensures { (s : SealSizes) (events : List SealEvent) (cells : List (List ℕ)) (a b : SealMachine)
        → FormattedSeal Blanks s cells a → (run : SealLives Blanks s events a b)
        → erases_of_puts Blanks s events a b run * puts_to_erase s ≤ puts_done_in events + cut_places_in events }
{}

/// On a part of blanks starts without a put between them program two deeds at most, six units, in all those that are
/// done, however many they are, and whatever was before. Starts that are cut begin as many each.
pub fn one_start_programs_without_a_put_on_a_part_of_blanks()
    ensures { (s : SealSizes) (events resets : List SealEvent) (cells : List (List ℕ)) (a b c : SealMachine)
        → FormattedSeal Blanks s cells a → SealLives Blanks s events a b → OnlyResets resets
        → (run : SealLives Blanks s resets b c) → programs_of_starts Blanks s resets b c run ≤ 6 }
{}

/// Small cases of the definitions: what a put of cell 3 writes at place 5 of bank 1, which bank is next of two, what
/// a put that was cut leaves of a cell, and how many places cuts have taken since the last put that was done.
pub fn small_seals()
    ensures put { put_writes Blanks (point_at 1 7 5 (Some 4) 0) 3 (9 ∷ [])
        ≡ programs_unit 1 5 Line (Holds (seal_line 7 (deed_of (Some 4) (Puts 3 (9 ∷ [])))))
        ∷ programs_unit 1 5 Confirm Mark ∷ programs_unit 1 5 SecondConfirm Mark ∷ [] }
    ensures after { bank_after 2 0 ≡ 1 }
    ensures around { bank_after 2 1 ≡ 0 }
    ensures cut { (now : List (List ℕ)) → PossibleSeal (cuts_puts 0 (2 ∷ []) ∷ starts ∷ []) ((1 ∷ []) ∷ []) now
        → (now ≡ (1 ∷ []) ∷ []) ⊎ (now ≡ (2 ∷ []) ∷ []) }
    ensures places { cut_places_since 0 (cuts_puts 0 [] ∷ starts ∷ puts_cell 0 [] ∷ cuts_puts 0 [] ∷ cuts_start
        ∷ starts ∷ []) ≡ 3 }
    ensures puts { puts_done_in (cuts_puts 0 [] ∷ starts ∷ puts_cell 0 [] ∷ puts_cell 1 [] ∷ []) ≡ 2 }
{}
