//! What follows for a store over all its lives: the contract of each function is the law, and its body is empty.
ghost use Rattle.std.specs.Prelude.{◌≡◌, ◌⊎◌, ℕ, List, set};
ghost use Rattle.flash_places.specs.Places.{Flash};
ghost use Rattle.flash_laws.specs.Logs.{CellList};
ghost use Rattle.flash_laws.specs.Lives.{FlashLayout, FlashMachine, FlashDeed, FlashLives, FlashFormatted, Possible, off};
ghost use Rattle.flash_log.specs.declared.store.FlashLog.{FlashLog};
ghost use Rattle.flash_log.specs.Going.{machine, Goes};
ghost use Rattle.flash_log.specs.Scanned.{NoLogCounts};
ghost use Rattle.flash_log.specs.Stores.{stage_of, PutsIn, CutsPutIn};

/// A store that is attached, after any number of lives of a formatted flash, has the cells that were formatted with the
/// puts that were done, each put that the power cut into being there or not.
pub fn an_attached_store_has_its_cells()
    ensures { (l : FlashLayout) (deeds : List FlashDeed) (cells now : CellList) (start : FlashMachine) (f g : Flash)
        (store : FlashLog) → FlashFormatted l cells start → FlashLives l deeds start (machine f off)
        → Goes l (machine f off) (machine g (stage_of store now)) → Possible deeds cells now }
{}

/// No start of a flash that was formatted answers `NoStore`, after any number of lives.
pub fn a_formatted_flash_has_a_store()
    ensures { (l : FlashLayout) (deeds : List FlashDeed) (cells : CellList) (start : FlashMachine) (f g : Flash)
        → FlashFormatted l cells start → FlashLives l deeds start (machine f off) → NoLogCounts l f g → ⊥ }
{}

/// A store that was ready, in which a put was done or cut, and which is attached again after the power came back, has
/// the cells as they were or with the put, and with the put for sure if the put was done.
pub fn a_put_is_whole_or_absent()
    ensures done { (l : FlashLayout) (deeds : List FlashDeed) (first olds mids news : CellList) (start : FlashMachine)
        (f g h k : Flash) (old mid new : FlashLog) (cell : ℕ) (payload : List ℕ)
        → FlashFormatted l first start → FlashLives l deeds start (machine f (stage_of old olds))
        → PutsIn l cell payload (machine f (stage_of old olds)) (machine g (stage_of mid mids))
        → Goes l (machine g (stage_of mid mids)) (machine h off)
        → Goes l (machine h off) (machine k (stage_of new news)) → news ≡ set olds cell payload }
    ensures cut { (l : FlashLayout) (deeds : List FlashDeed) (first olds news : CellList) (start : FlashMachine)
        (f h k : Flash) (old new : FlashLog) (cell : ℕ) (payload : List ℕ)
        → FlashFormatted l first start → FlashLives l deeds start (machine f (stage_of old olds))
        → CutsPutIn l cell payload (machine f (stage_of old olds)) (machine h off)
        → Goes l (machine h off) (machine k (stage_of new news))
        → (news ≡ olds) ⊎ (news ≡ set olds cell payload) }
{}
