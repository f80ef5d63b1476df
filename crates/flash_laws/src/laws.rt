//! The laws: each function has an empty body, and its contract is the law.
//!
//! A flash has 2 to 16 banks (see `flash_places`). At each time one **log** counts, in one bank:
//!
//! | Place | Line |
//! |---|---|
//! | 0 | the head, with the generation of the log. It is programmed last of the copy |
//! | 1 to n | the copy: cell 0, cell 1, and so on |
//! | from n + 1 on | the puts, one line each |
//!
//! - **Power-up.** The store reads all banks. A bank is a log if its head and all n cells of its copy are whole; its
//!   puts end before the first place that isn't. The log with the highest generation counts.
//! - **Start.** Before anything is relied on, the store erases the *next* bank, copies the cells as they were read, and
//!   programs the head with the next generation. Then that bank counts.
//! - **Put.** It programs one line after the last. If the bank is full, it does what a start does before.
//! - **Going on.** A start may go on in the log that it found, without an erase, on two conditions. All places behind
//!   the log are blank for sure, and the next bank's head is blank or was read and is older. It takes a blank check
//!   that is believed, so a store on a part without one never goes on.
//!
//! A life that doesn't finish its start never writes to the log that it found. So a line whose program was cut may be
//! seen or not, and may change its mind, until a copy is whole. Nobody relied on it before, and then the copy decides.
ghost use Rattle.std.specs.Prelude.{◌≡◌, ◌⊎◌, ℕ, ◌+◌, ◌<◌, ◌≤◌, List, [], ◌∷◌, Option};
ghost use Rattle.flash_places.specs.declared.FlashLine.{FlashLine};
ghost use Rattle.flash_places.specs.Places.{Flash, LooksAll};
ghost use Rattle.flash_places.specs.declared.FlashLine.TheVariants.{Entry};
ghost use Rattle.flash_laws.specs.CutFormats.{CutFormatted, LivesFormatted};
ghost use Rattle.flash_laws.specs.Logs.{CellList, copy_lines, after_lines};
ghost use Rattle.flash_laws.specs.Lives.{FlashLayout, FlashMachine, FlashDeed, FlashLives, FlashFormatted};
ghost use Rattle.flash_laws.specs.Lives.{IsReadyFlash, IsOff, ScanFinds, PlaceIsBlank, Possible, next_bank};
ghost use Rattle.flash_laws.specs.Lives.{wear_of, copies_begun, copies_done};
ghost use Rattle.flash_laws.specs.Lives.{erases, heads, cuts_erase, cuts_head, cuts_put};

/// A put is there whole or not at all, whenever the power goes, in any number of lives. If a store of a formatted flash
/// is ready, its cells are what the puts that were done made of those that were formatted. Each put that the power cut
/// into is there or not. The same holds from each time that it is ready to each later one.
pub fn a_put_is_whole_or_absent_over_all_lives()
    ensures formatted { (l : FlashLayout) (deeds : List FlashDeed) (cells now : CellList) (a b : FlashMachine)
        → FlashFormatted l cells a → FlashLives l deeds a b → IsReadyFlash b now → Possible deeds cells now }
    ensures later { (l : FlashLayout) (earlier deeds : List FlashDeed) (first cells now : CellList)
        (start a b : FlashMachine) → FlashFormatted l first start → FlashLives l earlier start a → IsReadyFlash a cells
        → FlashLives l deeds a b → IsReadyFlash b now → Possible deeds cells now }
{}

/// If the power cut the head of a format, its last operation, then each store that a later start finds has these cells
/// first. Once it is ready, all goes on as after a whole format: lives from one lead to the same machine (`found`).
pub fn a_cut_format_is_there_or_not()
    ensures cells { (l : FlashLayout) (deeds : List FlashDeed) (cells now : CellList) (a b : FlashMachine)
        → CutFormatted l cells a → FlashLives l deeds a b → IsReadyFlash b now → Possible deeds cells now }
    ensures found { (l : FlashLayout) (deeds : List FlashDeed) (cells now : CellList) (a b : FlashMachine)
        → CutFormatted l cells a → FlashLives l deeds a b → IsReadyFlash b now → LivesFormatted l cells b }
{}

/// Each power-up finds the store, whatever the places that aren't firm are read as.
pub fn a_power_up_finds_the_store()
    ensures { (l : FlashLayout) (deeds : List FlashDeed) (cells : CellList) (a b : FlashMachine)
        (read : ℕ → ℕ → Option FlashLine) (after : Flash) → FlashFormatted l cells a → FlashLives l deeds a b → IsOff b
        → LooksAll b.flash read after → ScanFinds l read }
{}

/// A place that is to be programmed is blank for sure.
pub fn a_place_is_programmed_once()
    ensures { (l : FlashLayout) (deeds : List FlashDeed) (cells : CellList) (a b : FlashMachine)
        → FlashFormatted l cells a → FlashLives l deeds a b → PlaceIsBlank l b }
{}

/// Each bank is erased as often as every other, except for one, and except for one more for each copy that was begun
/// and not done: its bank is erased anew by the next one.
pub fn wear_is_spread_evenly()
    ensures { (l : FlashLayout) (deeds : List FlashDeed) (cells : CellList) (a b : FlashMachine) (one other : ℕ)
        → FlashFormatted l cells a → FlashLives l deeds a b → one < l.banks → other < l.banks
        → wear_of one deeds + copies_done deeds ≤ wear_of other deeds + 1 + copies_begun deeds }
{}

/// The definitions on small cases: a copy's lines, what a put makes of cells, how banks go round, and what is counted.
pub fn small_cases()
    ensures copy { copy_lines 0 ((1 ∷ []) ∷ (2 ∷ []) ∷ []) ≡ Entry 0 (1 ∷ []) ∷ Entry 1 (2 ∷ []) ∷ [] }
    ensures put { after_lines (Entry 1 (7 ∷ []) ∷ []) ((1 ∷ []) ∷ (2 ∷ []) ∷ []) ≡ (1 ∷ []) ∷ (7 ∷ []) ∷ [] }
    ensures no_cell { after_lines (Entry 2 (7 ∷ []) ∷ []) ((1 ∷ []) ∷ (2 ∷ []) ∷ []) ≡ (1 ∷ []) ∷ (2 ∷ []) ∷ [] }
    ensures two_banks { (next_bank 2 0 ≡ 1) × (next_bank 2 1 ≡ 0) }
    ensures sixteen_banks { (next_bank 16 0 ≡ 15) × (next_bank 16 15 ≡ 14) }
    ensures worn { wear_of 1 (erases 1 ∷ cuts_erase 1 ∷ erases 2 ∷ heads ∷ []) ≡ 2 }
    ensures begun { copies_begun (erases 1 ∷ cuts_erase 1 ∷ cuts_put 0 [] ∷ heads ∷ []) ≡ 2 }
    ensures done { copies_done (erases 1 ∷ heads ∷ cuts_erase 1 ∷ cuts_head ∷ []) ≡ 1 }
    ensures cut_put { (now : CellList) → Possible (cuts_put 0 (7 ∷ []) ∷ []) ((1 ∷ []) ∷ []) now
        → (now ≡ (1 ∷ []) ∷ []) ⊎ (now ≡ (7 ∷ []) ∷ []) }
{}
