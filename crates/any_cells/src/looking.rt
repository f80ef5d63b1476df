// A look at a disk, before a store is attached to it or made on it.
ghost use Rattle.std.specs.Prelude.{◌≡◌, ◌≢◌, ◌↔◌, ◌≤◌, ℕ, IsTrue, Some, List, OnOk, OnErr, IfOk};
ghost use Rattle.cut_disk.specs.State.{Told};
ghost use Rattle.cell_store.specs.declared.kinds.Kind.{Kind};
ghost use Rattle.cell_store.specs.declared.kinds.Version.{Version};
ghost use Rattle.cell_store.specs.declared.kinds.Version.TheVariants.{One, Two};
ghost use Rattle.cell_store.specs.declared.kinds.Probe.TheVariants.{Blank, Store};
ghost use Rattle.cell_store.specs.Layout.{part, from_base};
ghost use Rattle.cell_store.specs.Reading.{ReadOnly, ReadFailed};
ghost use Rattle.cell_store.specs.Store.{FewCells, FindsFew, Probes, store_size};
ghost use Rattle.any_cells.specs.declared.looking.Found.{Found};
ghost use Rattle.any_cells.specs.Either.{layout};
ghost use Rattle.any_cells.specs.Looking.{IsFound};

use cell_store::{Kind, Probe, StoreFault, Version, probe_as};
use cut_disk::{Disk, DiskFailed};

/// What a disk has for a store of a kind, a version and a number of cells.
#[derive(Clone, Copy, Debug, PartialEq, Eq, Drop)]
pub enum Found {
    /// The 32 bytes at 0, and for version 2 those at 32768 too, are zero: a store may be made.
    Blank,
    /// The header of this store stands.
    Standing,
    /// The header of the same store in version 1 stands, and is to be moved to version 2.
    Older,
    /// Anything else, and for version 1 the header of the same store in version 2: a store that was
    /// moved up is never taken for the old one below it.
    Foreign,
}

/// Looks what the disk has for this store, of 1 to 1024 cells, for which it has room. It reads 32 bytes at 32768, if
/// the disk has them, and 32 at 0, and writes nothing. An older store is found for version 2 alone, also if the disk
/// doesn't tell its bytes.
pub fn look<D: Disk>(
    disk: &mut D,
    kind: Kind,
    version: Version,
    cells: u16,
) -> Result<Found, DiskFailed>
    requires few { FewCells cells }
    requires room { store_size (layout kind version) cells ≤ (D.state disk.old).size }
    ensures found { IfOk result (λ found. (t : Told) → (D.state disk.old).told ≡ Some t
        → IsFound kind version cells t.bytes found) }
    ensures older { IfOk result (λ found. found ≡ Found.Older → version ≡ Two) }
    ensures as_before { OnOk result (ReadOnly 2 (D.state disk.old) (D.state disk.new)) }
    ensures failed { OnErr result (ReadFailed 2 (D.state disk.old) (D.state disk.new)) }
{
    let high = header_at(disk, Version::Two)?;
    let low = header_at(disk, Version::One)?;
    Ok(found_as(kind, version, cells, high, low))
}

/// What the 32 bytes at the base of this version are, if the disk has them; else no header.
pub(crate) fn header_at<D: Disk>(disk: &mut D, version: Version) -> Result<Probe, DiskFailed>
    ensures few { IfOk result FindsFew }
    ensures found { IfOk result (λ probe. (t : Told) → (D.state disk.old).told ≡ Some t
        → Probes version (part 0 32 (from_base version t.bytes)) probe) }
    ensures as_before { OnOk result (ReadOnly 1 (D.state disk.old) (D.state disk.new)) }
    ensures failed { OnErr result (ReadFailed 1 (D.state disk.old) (D.state disk.new)) }
{
    match probe_as(disk, version) {
        Ok(probe) => Ok(probe),
        Err(StoreFault::TooSmall) => Ok(Probe::Foreign),
        Err(_) => Err(DiskFailed),
    }
}

/// What is found for this store, by what stands at 32768 and at 0.
fn found_as(kind: Kind, version: Version, cells: u16, high: Probe, low: Probe) -> Found
    requires { FewCells cells }
    ensures older { result ≡ Found.Older → version ≡ Two }
    ensures found { (x : List ℕ) → Probes Two (part 0 32 (from_base Two x)) high
        → Probes One (part 0 32 (from_base One x)) low → IsFound kind version cells x result }
{
    match version {
        Version::One => found_as_one(kind, cells, high, low),
        Version::Two => found_as_two(kind, cells, high, low),
    }
}

/// What is found for this store of version 1, by what stands at 32768 and at 0.
fn found_as_one(kind: Kind, cells: u16, high: Probe, low: Probe) -> Found
    requires { FewCells cells }
    ensures never_older { result ≢ Found.Older }
    ensures found { (x : List ℕ) → Probes Two (part 0 32 (from_base Two x)) high
        → Probes One (part 0 32 (from_base One x)) low → IsFound kind One cells x result }
{
    if is_store(high, kind, cells) {
        Found::Foreign
    } else if is_blank(low) {
        Found::Blank
    } else if is_store(low, kind, cells) {
        Found::Standing
    } else {
        Found::Foreign
    }
}

/// What is found for this store of version 2, by what stands at 32768 and at 0.
fn found_as_two(kind: Kind, cells: u16, high: Probe, low: Probe) -> Found
    requires { FewCells cells }
    ensures { (x : List ℕ) → Probes Two (part 0 32 (from_base Two x)) high
        → Probes One (part 0 32 (from_base One x)) low → IsFound kind Two cells x result }
{
    if is_store(high, kind, cells) {
        Found::Standing
    } else if is_store(low, kind, cells) {
        Found::Older
    } else if are_blank(low, high) {
        Found::Blank
    } else {
        Found::Foreign
    }
}

/// Whether the header of a store of this kind and number of cells was found.
fn is_store(probe: Probe, kind: Kind, cells: u16) -> bool
    ensures { IsTrue result ↔ (probe ≡ Store kind cells) }
{
    match (probe, kind) {
        (
            Probe::Store {
                kind: Kind::Twin,
                cells: found,
            },
            Kind::Twin,
        )
        | (
            Probe::Store {
                kind: Kind::Log,
                cells: found,
            },
            Kind::Log,
        ) => found == cells,
        _ => false,
    }
}

/// Whether zeros alone were found.
pub(crate) fn is_blank(probe: Probe) -> bool
    ensures { IsTrue result ↔ (probe ≡ Blank) }
{
    matches!(probe, Probe::Blank)
}

/// Whether zeros alone were found at both places.
fn are_blank(low: Probe, high: Probe) -> bool
    ensures { IsTrue result ↔ ((low ≡ Blank) × (high ≡ Blank)) }
{
    matches!((low, high), (Probe::Blank, Probe::Blank))
}
