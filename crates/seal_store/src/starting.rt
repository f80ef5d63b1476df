//! Starting a store, and making the first one.
ghost use Rattle.std.specs.Prelude.{◌≡◌, ◌≢◌, ◌↔◌, ◌⊎◌, ◌*◌, ◌^◌, ◌<◌, ◌≤◌, ℕ, suc, length, true, false, Some};
ghost use Rattle.std.specs.Prelude.{IfOk, IfErr, OnOk, OnErr, IsErrOf};
ghost use Rattle.basics.specs.FaultCount.{Rose};
ghost use Rattle.seal_parts.specs.declared.PartClass.TheVariants.{Blanks};
ghost use Rattle.seal_parts.specs.declared.UnitKind.{UnitKind as AnyKind};
ghost use Rattle.seal_parts.specs.Parts.{blank_unit};
ghost use Rattle.seal_parts.specs.State.{PartRuns};
ghost use Rattle.seal_parts.specs.Designs.{DoesPartWrites, CutsPartWrites, MayDoPartWrites};
ghost use Rattle.seal_logs.specs.Starts.{IsMove};
ghost use Rattle.seal_laws.specs.Writes.{restate_writes, open_writes, start_writes, started_at, point_at, place_now};
ghost use Rattle.seal_laws.specs.Lives.{FindsSeal, StartsSeal, CutsStartSeal, FitsSeal, FormattedSeal};
ghost use Rattle.seal_store.specs.Store.{off_at, machine_at, MayStart};

use crate::SealStore;
use crate::reading::read_all;
use crate::writing::{line_of, write_deed, write_first};
use seal_laws::laws::a_unit_is_programmed_once_on_a_part_of_blanks;
use seal_laws::{SealPoint, SealSizes};
use seal_logs::{FoundStore, PlaceRead, StartEnd, find_start, is_move};
use seal_parts::{DeedBody, PartClass, PartFailed, SealPart};

/// Why a start has no store, or none was made.
#[derive(Clone, Copy, Debug, PartialEq, Eq, Drop)]
pub enum SealStartFault {
    /// An operation of the part failed.
    Failed,
    /// The part isn't one of blanks. No store of this crate works on it.
    Unserved,
    NoStore,
    /// A line that was done is read no more.
    Damaged,
    /// No place is left in the bank. No cells are handed out, since what is read isn't decided. It takes cuts: see
    /// `a_jam_needs_cuts_on_a_part_of_blanks` of `seal_laws`.
    Exhausted,
}

/// Whether a store works on a part of this class.
fn is_served(class: PartClass) -> bool
    ensures { (result ≡ true) ↔ (class ≡ Blanks) }
{
    match class {
        PartClass::Blanks => true,
        PartClass::Guards => false,
        PartClass::Settled => false,
    }
}

/// Programs the latest deed again, unless the end is clean.
fn restate<P: SealPart>(part: &mut P, found: &FoundStore) -> Result<(), PartFailed>
    requires class { (P.state part.old).class ≡ Blanks }
    requires inside { found.now.latest.bank < (P.state part.old).banks }
    requires room { found.now.is_clean ≡ false → found.now.next < (P.state part.old).places }
    requires may { MayDoPartWrites Blanks (restate_writes Blanks found.now) (P.state part.old).flash }
    ensures runs { PartRuns (P.state part.old) (P.state part.new) }
    ensures count { OnOk result ((P.state part.new).faults ≡ (P.state part.old).faults) }
    ensures failed { OnErr result (Rose (P.state part.old).faults (P.state part.new).faults) }
    ensures does { OnOk result (DoesPartWrites Blanks (restate_writes Blanks found.now)
        (P.state part.old).flash (P.state part.new).flash) }
    ensures cuts { OnErr result (CutsPartWrites Blanks (restate_writes Blanks found.now)
        (P.state part.old).flash (P.state part.new).flash) }
{
    if found.is_clean {
        return Ok(());
    }
    let latest = found.latest;
    let line = line_of(latest.generation, latest.deed.prev, latest.deed.body);
    write_deed(part, latest.bank, found.next, line)
}

/// After a move, programs the deed that opens its home, if that may have been begun.
fn open_home<P: SealPart>(
    part: &mut P,
    sizes: SealSizes,
    found: &FoundStore,
) -> Result<(), PartFailed>
    requires class { (P.state part.old).class ≡ Blanks }
    requires moved { IsMove found.now.latest.deed.body }
    requires inside { found.now.home < (P.state part.old).banks }
    requires room { found.now.home_next < (P.state part.old).places }
    requires may { MayDoPartWrites Blanks (open_writes Blanks sizes found.now found.now.latest.deed.body)
        (P.state part.old).flash }
    ensures runs { PartRuns (P.state part.old) (P.state part.new) }
    ensures count { OnOk result ((P.state part.new).faults ≡ (P.state part.old).faults) }
    ensures failed { OnErr result (Rose (P.state part.old).faults (P.state part.new).faults) }
    ensures does { OnOk result (DoesPartWrites Blanks
        (open_writes Blanks sizes found.now found.now.latest.deed.body)
        (P.state part.old).flash (P.state part.new).flash) }
    ensures cuts { OnErr result (CutsPartWrites Blanks
        (open_writes Blanks sizes found.now found.now.latest.deed.body)
        (P.state part.old).flash (P.state part.new).flash) }
{
    if sizes.log.cells as u32 >= found.home_next {
        return Ok(());
    }
    let line = line_of(found.generation, None, DeedBody::Opens);
    write_deed(part, found.home, found.home_next, line)
}

/// What a start writes.
fn write_start<P: SealPart>(
    part: &mut P,
    sizes: SealSizes,
    found: &FoundStore,
) -> Result<(), PartFailed>
    requires class { (P.state part.old).class ≡ Blanks }
    requires inside { found.now.latest.bank < (P.state part.old).banks }
    requires home_inside { found.now.home < (P.state part.old).banks }
    requires room { found.now.is_clean ≡ false → found.now.next < (P.state part.old).places }
    requires home_room { IsMove found.now.latest.deed.body → found.now.home_next < (P.state part.old).places }
    requires may { MayDoPartWrites Blanks (start_writes Blanks sizes found.now) (P.state part.old).flash }
    ensures runs { PartRuns (P.state part.old) (P.state part.new) }
    ensures count { OnOk result ((P.state part.new).faults ≡ (P.state part.old).faults) }
    ensures failed { OnErr result (Rose (P.state part.old).faults (P.state part.new).faults) }
    ensures does { OnOk result (DoesPartWrites Blanks (start_writes Blanks sizes found.now)
        (P.state part.old).flash (P.state part.new).flash) }
    ensures cuts { OnErr result (CutsPartWrites Blanks (start_writes Blanks sizes found.now)
        (P.state part.old).flash (P.state part.new).flash) }
{
    restate(part, found)?;
    if is_move(&found.latest.deed.body) {
        return open_home(part, sizes, found);
    }
    Ok(())
}

/// The place of the latest deed after a start.
fn latest_place(found: &FoundStore) -> u32
    ensures { result ≡ place_now found.now }
{
    if found.is_clean {
        return found.latest.place;
    }
    found.next
}

/// Where a store stands after a start whose latest deed stays in its bank.
fn point_stayed(found: &FoundStore) -> SealPoint
    requires { suc (place_now found.now) < 2 ^ 32 }
    ensures { result ≡ point_at found.now.home found.now.generation (suc (place_now found.now))
        (Some (place_now found.now)) found.now.lacking }
{
    let at = latest_place(found);
    SealPoint {
        bank: found.home,
        generation: found.generation,
        next: at + 1,
        last: Some(at),
        lacking: found.lacking,
    }
}

/// Where it stands after a start whose latest deed is a move.
fn point_moved(sizes: SealSizes, found: &FoundStore) -> SealPoint
    requires moved { IsMove found.now.latest.deed.body }
    requires room { suc found.now.home_next < 2 ^ 32 }
    ensures { result ≡ started_at sizes found.now found.now.latest.deed.body }
{
    if sizes.log.cells as u32 >= found.home_next {
        return SealPoint {
            bank: found.home,
            generation: found.generation,
            next: found.home_next,
            last: None,
            lacking: 2,
        };
    }
    SealPoint {
        bank: found.home,
        generation: found.generation,
        next: found.home_next + 1,
        last: Some(found.home_next),
        lacking: 1,
    }
}

/// Where a store stands after a start.
fn point_after(sizes: SealSizes, found: &FoundStore) -> SealPoint
    requires place { suc (place_now found.now) < 2 ^ 32 }
    requires home { IsMove found.now.latest.deed.body → suc found.now.home_next < 2 ^ 32 }
    ensures is { result ≡ started_at sizes found.now found.now.latest.deed.body }
    ensures bank { result.bank ≡ found.now.home }
{
    if is_move(&found.latest.deed.body) {
        return point_moved(sizes, found);
    }
    point_stayed(found)
}

/// Reads all places, and finds the store.
fn find<P: SealPart>(
    part: &mut P,
    sizes: SealSizes,
    cells: &mut [[u8; 32]],
    reads: &mut [PlaceRead],
    chain: &mut [u32],
) -> Result<FoundStore, SealStartFault>
    requires banks { sizes.log.banks ≡ (P.state part.old).banks }
    requires places { sizes.log.places ≡ (P.state part.old).places }
    requires room { sizes.log.cells ≤ sizes.log.places }
    requires alike { length cells.old ≡ sizes.log.cells }
    requires fits { length reads.old ≡ sizes.log.banks * sizes.log.places }
    requires chain { sizes.log.places ≤ length chain.old }
    ensures runs { PartRuns (P.state part.old) (P.state part.new) }
    ensures count { (IsErrOf result SealStartFault.Failed → ⊥)
        → (P.state part.new).faults ≡ (P.state part.old).faults }
    ensures failed { IsErrOf result SealStartFault.Failed → Rose (P.state part.old).faults (P.state part.new).faults }
    ensures served { IsErrOf result SealStartFault.Unserved ↔ ((P.state part.old).class ≢ Blanks) }
    ensures untouched { IsErrOf result SealStartFault.Unserved → P.state part.new ≡ P.state part.old }
    ensures class { OnOk result ((P.state part.old).class ≡ Blanks) }
    ensures found { IfOk result (λ found. FindsSeal Blanks sizes (off_at (P.state part.old).flash)
        (StartEnd.Found found) cells.new (P.state part.new).flash) }
    ensures cut { IsErrOf result SealStartFault.Failed → CutsStartSeal Blanks sizes
        (off_at (P.state part.old).flash) (off_at (P.state part.new).flash) }
    ensures no_store { IsErrOf result SealStartFault.NoStore → FindsSeal Blanks sizes
        (off_at (P.state part.old).flash) StartEnd.NoStore cells.new (P.state part.new).flash }
    ensures damaged { IsErrOf result SealStartFault.Damaged → FindsSeal Blanks sizes
        (off_at (P.state part.old).flash) StartEnd.Damaged cells.new (P.state part.new).flash }
    ensures exhausted { IsErrOf result SealStartFault.Exhausted → FindsSeal Blanks sizes
        (off_at (P.state part.old).flash) StartEnd.Exhausted cells.new (P.state part.new).flash }
{
    if !is_served(part.class()) {
        return Err(SealStartFault::Unserved);
    }
    match read_all(part, sizes.log, reads) {
        Ok(()) => match find_start(reads, sizes.log, cells, chain) {
            StartEnd::Found(found) => Ok(found),
            StartEnd::NoStore => Err(SealStartFault::NoStore),
            StartEnd::Damaged => Err(SealStartFault::Damaged),
            StartEnd::Exhausted => Err(SealStartFault::Exhausted),
        },
        Err(_) => Err(SealStartFault::Failed),
    }
}

/// Starts the store of a part. It reads each place once, into `reads`, and decides on that. `cells` is then what the
/// store has; `chain` has anything. After a clean end nothing is written. After a cut the latest deed is programmed
/// again, in the next place.
///
/// No operation is done if the part isn't one of blanks. A start that answers `Failed` may be done again, after any
/// loss of power. After each fault `cells` may have anything.
pub fn start<P: SealPart>(
    part: &mut P,
    sizes: SealSizes,
    cells: &mut [[u8; 32]],
    reads: &mut [PlaceRead],
    chain: &mut [u32],
) -> Result<SealStore, SealStartFault>
    requires banks { sizes.log.banks ≡ (P.state part.old).banks }
    requires places { sizes.log.places ≡ (P.state part.old).places }
    requires room { sizes.log.cells ≤ sizes.log.places }
    requires alike { length cells.old ≡ sizes.log.cells }
    requires fits { length reads.old ≡ sizes.log.banks * sizes.log.places }
    requires chain { sizes.log.places ≤ length chain.old }
    requires may { (P.state part.old).class ≡ Blanks → MayStart sizes (P.state part.old).flash }
    ensures runs { PartRuns (P.state part.old) (P.state part.new) }
    ensures count { (IsErrOf result SealStartFault.Failed → ⊥)
        → (P.state part.new).faults ≡ (P.state part.old).faults }
    ensures failed { IsErrOf result SealStartFault.Failed → Rose (P.state part.old).faults (P.state part.new).faults }
    ensures served { IsErrOf result SealStartFault.Unserved ↔ ((P.state part.old).class ≢ Blanks) }
    ensures untouched { IsErrOf result SealStartFault.Unserved → P.state part.new ≡ P.state part.old }
    ensures class { OnOk result ((P.state part.old).class ≡ Blanks) }
    ensures ready { IfOk result (λ store. StartsSeal Blanks sizes (off_at (P.state part.old).flash)
        (machine_at (P.state part.new).flash store cells.new)) }
    ensures sizes { IfOk result (λ store. store.sizes ≡ sizes) }
    ensures cut { IsErrOf result SealStartFault.Failed → CutsStartSeal Blanks sizes
        (off_at (P.state part.old).flash) (off_at (P.state part.new).flash) }
    ensures no_store { IsErrOf result SealStartFault.NoStore → FindsSeal Blanks sizes
        (off_at (P.state part.old).flash) StartEnd.NoStore cells.new (P.state part.new).flash }
    ensures damaged { IsErrOf result SealStartFault.Damaged → FindsSeal Blanks sizes
        (off_at (P.state part.old).flash) StartEnd.Damaged cells.new (P.state part.new).flash }
    ensures exhausted { IsErrOf result SealStartFault.Exhausted → FindsSeal Blanks sizes
        (off_at (P.state part.old).flash) StartEnd.Exhausted cells.new (P.state part.new).flash }
{
    let found = match find(part, sizes, cells, reads, chain) {
        Ok(found) => found,
        Err(fault) => return Err(fault),
    };
    match write_start(part, sizes, &found) {
        Ok(()) => Ok(SealStore::at(sizes, point_after(sizes, &found))),
        Err(_) => Err(SealStartFault::Failed),
    }
}

/// Erases all banks.
fn erase_all<P: SealPart>(part: &mut P) -> Result<(), PartFailed>
    ensures runs { PartRuns (P.state part.old) (P.state part.new) }
    ensures count { OnOk result ((P.state part.new).faults ≡ (P.state part.old).faults) }
    ensures failed { OnErr result (Rose (P.state part.old).faults (P.state part.new).faults) }
    ensures blank { OnOk result ((bank k : ℕ) (kind : AnyKind)
        → (P.state part.new).flash.unit bank k kind ≡ blank_unit) }
    ensures erased { OnOk result ((bank : ℕ) → bank < (P.state part.old).banks
        → (P.state part.new).flash.is_erased bank ≡ true) }
{
    for bank in 0..part.banks() {
        part.erase(bank)?;
    }
    Ok(())
}

/// Erases a part, and makes the first store on it.
fn write_anew<P: SealPart>(
    part: &mut P,
    sizes: SealSizes,
    cells: &[[u8; 32]],
) -> Result<(), PartFailed>
    requires class { (P.state part.old).class ≡ Blanks }
    requires banks { sizes.log.banks ≡ (P.state part.old).banks }
    requires places { sizes.log.places ≡ (P.state part.old).places }
    requires fits { FitsSeal sizes }
    requires alike { length cells.now ≡ sizes.log.cells }
    ensures runs { PartRuns (P.state part.old) (P.state part.new) }
    ensures count { OnOk result ((P.state part.new).faults ≡ (P.state part.old).faults) }
    ensures failed { OnErr result (Rose (P.state part.old).faults (P.state part.new).faults) }
    ensures formatted { OnOk result (FormattedSeal Blanks sizes cells.now (off_at (P.state part.new).flash)) }
{
    erase_all(part)?;
    a_unit_is_programmed_once_on_a_part_of_blanks();
    write_first(part, sizes.log.cells as u32, cells)
}

/// Erases a part whatever it has, and makes the first store on it, with these cells. It is a tool's call, with sure
/// power: if it fails it has to be done again before a start.
///
/// Two deeds in bank 0 say that there is no store yet, and then the store moves to bank 1.
pub fn begin_store<P: SealPart>(
    part: &mut P,
    sizes: SealSizes,
    cells: &[[u8; 32]],
) -> Result<(), SealStartFault>
    requires banks { sizes.log.banks ≡ (P.state part.old).banks }
    requires places { sizes.log.places ≡ (P.state part.old).places }
    requires fits { FitsSeal sizes }
    requires alike { length cells.now ≡ sizes.log.cells }
    ensures runs { PartRuns (P.state part.old) (P.state part.new) }
    ensures count { OnOk result ((P.state part.new).faults ≡ (P.state part.old).faults) }
    ensures failed { IsErrOf result SealStartFault.Failed → Rose (P.state part.old).faults (P.state part.new).faults }
    ensures served { IsErrOf result SealStartFault.Unserved ↔ ((P.state part.old).class ≢ Blanks) }
    ensures untouched { IsErrOf result SealStartFault.Unserved → P.state part.new ≡ P.state part.old }
    ensures faults { IfErr result (λ e. (e ≡ SealStartFault.Failed) ⊎ (e ≡ SealStartFault.Unserved)) }
    ensures formatted { OnOk result (FormattedSeal Blanks sizes cells.now (off_at (P.state part.new).flash)) }
{
    if !is_served(part.class()) {
        return Err(SealStartFault::Unserved);
    }
    match write_anew(part, sizes, cells) {
        Ok(()) => Ok(()),
        Err(_) => Err(SealStartFault::Failed),
    }
}
