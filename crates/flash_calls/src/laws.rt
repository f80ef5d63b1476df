//! What holds of a caller over all its lives: the contract of each function is the law, and its body is empty.
//!
//! A caller begins a plan at power-up ([`begin`](crate::begin)), performs each operation that [`next`](crate::next)
//! says, and reports its outcome to [`did`](crate::did). It hands in a put by [`put`](crate::put). The power may go
//! between two operations or within one, and then all begins again (`CallLives`).
ghost use Rattle.std.specs.Prelude.{◌≡◌, ◌⊎◌, ◌+◌, ◌*◌, ◌≤◌, ℕ, suc, List, Some, None, length, set};
ghost use Rattle.flash_plan.specs.declared.operations.Operation.TheVariants.{Read};
ghost use Rattle.flash_laws.specs.Logs.{CellList};
ghost use Rattle.flash_laws.specs.CutFormats.{CutFormatted};
ghost use Rattle.flash_laws.specs.Lives.{FlashFormatted, Possible, off};
ghost use Rattle.flash_log.specs.Going.{machine};
ghost use Rattle.flash_plan.specs.declared.plans.PlanEnd.TheVariants.{NoStore, Formatted, Failed as end_failed, OtherSizes};
ghost use Rattle.flash_plan.specs.declared.plans.PlanStep.TheVariants.{Ended};
ghost use Rattle.flash_plan.specs.declared.operations.Operation.{Operation};
ghost use Rattle.flash_plan.specs.Performing.{MayBegin};
ghost use Rattle.flash_plan.specs.Plans.{IsIdle, SkipsOlder, operation_of};
ghost use Rattle.flash_calls.specs.Numbers.{plan_in};
ghost use Rattle.flash_calls.specs.CallLives.{FlashSizes, CallState, CallDeed, CallLives, OperationsDone};
ghost use Rattle.flash_calls.specs.CallLives.{CallBegun, CallFormatBegun, sizes_layout, puts_made, IsFoundStore};
ghost use Rattle.flash_calls.specs.CallLives.{TakesPut, EachPutTaken, IsPutOf, TakesNoPut};
ghost use Rattle.flash_calls.specs.CallLives.{EachHeadTells, TellsOwn, TellsOwnOrNone};
ghost use Rattle.flash_calls.specs.Operations.{IsOtherSize};
ghost use Rattle.flash_calls.specs.Calls.{refusal_of};
ghost use Rattle.flash_calls.specs.declared.calls.FlashRefusal.TheVariants.{NoStore as no_store};
ghost use Rattle.flash_calls.specs.CallWear.{LivesErasing, starts_in, bank_puts, ReportsFailure};

/// A put is there whole or not at all over all lives. The cells of an idle plan are what the puts that were done made
/// of those that were formatted, or of those of an earlier idle plan. Each put that was cut is there or not. That holds
/// after a format whose head was cut, too (`cut`, `later`).
pub fn an_idle_call_has_its_cells()
    ensures formatted { (s : FlashSizes) (deeds : List CallDeed) (first : CellList) (a b : CallState)
        → FlashFormatted (sizes_layout s) first (machine a.flash off) → CallBegun s a → CallLives s deeds a b
        → IsIdle (plan_in b.numbers) → Possible (puts_made deeds) first b.cells }
    ensures cut { (s : FlashSizes) (deeds : List CallDeed) (first : CellList) (a b : CallState)
        → CutFormatted (sizes_layout s) first (machine a.flash off) → CallBegun s a → CallLives s deeds a b
        → IsIdle (plan_in b.numbers) → Possible (puts_made deeds) first b.cells }
    ensures later { (s : FlashSizes) (deeds : List CallDeed) (first : CellList) (a b : CallState)
        → IsFoundStore s first a → CallLives s deeds a b → IsIdle (plan_in b.numbers)
        → Possible (puts_made deeds) a.cells b.cells }
{}

/// What a caller knows of its put, between two idle plans. If it was taken and only operations were performed since,
/// it is there (`done`). If all began again in between, or the power went, it is there or not, however often it was
/// taken (`cut`). Without a put the cells are the same (`none`).
pub fn a_put_is_there_once_the_plan_is_idle()
    ensures done { (s : FlashSizes) (deeds : List CallDeed) (first : CellList) (cell : ℕ) (payload : List ℕ)
        (a between b : CallState) → IsFoundStore s first a → TakesPut cell payload a between
        → OperationsDone deeds between b → IsIdle (plan_in b.numbers) → b.cells ≡ set a.cells cell payload }
    ensures cut { (s : FlashSizes) (deeds : List CallDeed) (first : CellList) (cell : ℕ) (payload : List ℕ)
        (a b : CallState) → IsFoundStore s first a → EachPutTaken (IsPutOf cell payload) deeds
        → CallLives s deeds a b → IsIdle (plan_in b.numbers)
        → (b.cells ≡ a.cells) ⊎ (b.cells ≡ set a.cells cell payload) }
    ensures none { (s : FlashSizes) (deeds : List CallDeed) (first : CellList) (a b : CallState)
        → IsFoundStore s first a → TakesNoPut deeds → CallLives s deeds a b → IsIdle (plan_in b.numbers)
        → b.cells ≡ a.cells }
{}

/// No start over a formatted flash ends in `NoStore`, after any number of lives. After a format whose head was cut
/// none does once a start has found the store.
pub fn a_formatted_flash_is_found()
    ensures formatted { (s : FlashSizes) (deeds : List CallDeed) (first : CellList) (a b : CallState)
        → FlashFormatted (sizes_layout s) first (machine a.flash off) → CallBegun s a → CallLives s deeds a b
        → (plan_in b.numbers).step ≡ Ended NoStore → ⊥ }
    ensures later { (s : FlashSizes) (deeds : List CallDeed) (first : CellList) (a b : CallState)
        → IsFoundStore s first a → CallLives s deeds a b → (plan_in b.numbers).step ≡ Ended NoStore → ⊥ }
{}

/// A plan of [`take`](crate::take) that has come to its end has formatted the flash with the cells that it was begun
/// with.
pub fn a_store_is_made_of_the_cells()
    ensures { (s : FlashSizes) (deeds : List CallDeed) (a b : CallState) → CallFormatBegun s a
        → OperationsDone deeds a b → (plan_in b.numbers).step ≡ Ended Formatted
        → FlashFormatted (sizes_layout s) a.cells (machine b.flash off) }
{}

/// A line is programmed only where all is blank: so once between two erases of its bank.
pub fn a_program_finds_its_place_blank()
    ensures lives { (s : FlashSizes) (deeds : List CallDeed) (a b : CallState) (operation : Operation) → CallBegun s a
        → CallLives s deeds a b → operation_of (plan_in b.numbers) b.cells ≡ Some operation
        → MayBegin operation b.flash }
    ensures made { (s : FlashSizes) (deeds : List CallDeed) (a b : CallState) (operation : Operation)
        → CallFormatBegun s a → OperationsDone deeds a b → operation_of (plan_in b.numbers) b.cells ≡ Some operation
        → MayBegin operation b.flash }
{}

/// Over all lives all banks together are erased once a start at most, and once more for as many puts as a bank takes
/// (`bank_puts`). An erase counts as soon as it is begun, a start whenever all begins again, and a put whose line is
/// programmed, done or cut.
pub fn erases_are_bounded()
    ensures { (s : FlashSizes) (deeds : List CallDeed) (erases : ℕ) (a b : CallState) → CallBegun s a
        → LivesErasing s deeds erases a b
        → erases * bank_puts s ≤ suc (starts_in deeds) * bank_puts s + length (puts_made deeds) }
{}

/// A plan has failed only if a report said so since the last start: its outcome was none of the operation's own.
pub fn a_plan_fails_only_by_a_report()
    ensures { (s : FlashSizes) (deeds : List CallDeed) (a b : CallState) → CallBegun s a → CallLives s deeds a b
        → (plan_in b.numbers).step ≡ Ended end_failed → ReportsFailure s deeds a }
{}

/// A start reads on in a bank, behind its head, only if the head's generation is no lower than that of the latest log of
/// the banks before it (`SkipsOlder`; `StandsAt` says that `best` is that log).
pub fn a_start_skips_older_banks()
    ensures { (s : FlashSizes) (deeds : List CallDeed) (a b : CallState) → CallBegun s a → CallLives s deeds a b
        → SkipsOlder (plan_in b.numbers).best (plan_in b.numbers).step }
{}

/// A start over the store of another part, or of other sizes, ends without one. If each head on the flash tells other
/// sizes than those with which the calls begin, then over any number of starts no plan is idle, and nothing but heads
/// is read: nothing is erased or programmed. So no older store is taken for it. If no operation failed, each start ends
/// in `NoStore` (`ends`).
pub fn a_start_over_another_geometry_is_refused()
    ensures idle { (s : FlashSizes) (deeds : List CallDeed) (a b : CallState) → CallBegun s a
        → EachHeadTells s (IsOtherSize s) a → CallLives s deeds a b → IsIdle (plan_in b.numbers) → ⊥ }
    ensures reads { (s : FlashSizes) (deeds : List CallDeed) (a b : CallState) (it : Operation) → CallBegun s a
        → EachHeadTells s (IsOtherSize s) a → CallLives s deeds a b
        → operation_of (plan_in b.numbers) b.cells ≡ Some it → (bank : ℕ) × (it ≡ Read bank 0) }
    ensures ends { (s : FlashSizes) (deeds : List CallDeed) (a b : CallState) → CallBegun s a
        → EachHeadTells s (IsOtherSize s) a → CallLives s deeds a b → operation_of (plan_in b.numbers) b.cells ≡ None
        → (refusal_of (plan_in b.numbers).step ≡ Some no_store) ⊎ ((plan_in b.numbers).step ≡ Ended end_failed) }
{}

/// No start is refused for its sizes over a flash whose heads tell these sizes or none, and over all lives they go on
/// so: a store that an earlier version made tells none.
pub fn a_start_over_its_own_geometry_is_not_refused()
    ensures goes { (s : FlashSizes) (deeds : List CallDeed) (a b : CallState) → CallBegun s a
        → EachHeadTells s (TellsOwnOrNone s) a → CallLives s deeds a b
        → (plan_in b.numbers).step ≡ Ended OtherSizes → ⊥ }
    ensures stays { (s : FlashSizes) (deeds : List CallDeed) (a b : CallState) → CallBegun s a
        → EachHeadTells s (TellsOwnOrNone s) a → CallLives s deeds a b → EachHeadTells s (TellsOwnOrNone s) b }
{}

/// Each head of a store that [`take`](crate::take) made tells its sizes, and over all lives each head goes on so.
pub fn a_store_tells_its_geometry()
    ensures made { (s : FlashSizes) (deeds : List CallDeed) (a b : CallState) → CallFormatBegun s a
        → OperationsDone deeds a b → (plan_in b.numbers).step ≡ Ended Formatted → EachHeadTells s (TellsOwn s) b }
    ensures stays { (s : FlashSizes) (deeds : List CallDeed) (a b : CallState) → CallBegun s a
        → EachHeadTells s (TellsOwn s) a → CallLives s deeds a b → EachHeadTells s (TellsOwn s) b }
{}
