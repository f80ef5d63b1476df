//! The laws: each function has an empty body, and its contract is the law.
ghost use Rattle.std.specs.Prelude.{◌≡◌, ℕ, List, ◌∷◌};
ghost use Rattle.flash_places.specs.declared.FlashLine.{FlashLine};
ghost use Rattle.flash_places.specs.Places.{Flash};
ghost use Rattle.flash_limits.specs.Limits.{FlashView, MayBeRead, FlashWrite, programs_place, StoreDesign, FlashLife};
ghost use Rattle.flash_limits.specs.Limits.{LivesOn, ProgramsOnce, OnTwoBanks, KeepsPuts};

/// The first write of each life that writes is an erase. For if it programmed a place, that place was read as nothing.
/// If the power cuts this program, all may be read as before, and the next life programs the same place again.
pub fn the_first_write_of_a_life_is_an_erase()
    ensures { (d : StoreDesign) (start f : Flash) (lives : List FlashLife) (view : FlashView) (value bank place : ℕ)
        (line : FlashLine) (rest : List FlashWrite) → ProgramsOnce d start → LivesOn d lives start f
        → MayBeRead f view → d.writes view value ≡ programs_place bank place line ∷ rest → ⊥ }
{}

/// No store on two banks keeps its puts. An erase that is cut leaves a bank that is read as before, or as nothing. So a
/// bank that some life erases first can't be relied on, and it is the same bank for all that may be read at one time.
/// While a put is written into the other bank, its first program is cut: then the bank that can't be relied on is read
/// as nothing, and the place is programmed again.
pub fn two_banks_have_no_store()
    ensures { (d : StoreDesign) (start : Flash) → ProgramsOnce d start → OnTwoBanks d → KeepsPuts d start → ⊥ }
{}
