//! Which store's header stands on a disk.
ghost use Rattle.std.specs.Prelude.{◌≡◌, ◌↔◌, ◌≤◌, ℕ, List, [], length, Some, IsTrue, IfOk, IfSome, OnOk, OnErr};
ghost use Rattle.std.specs.Prelude.{MatchOption};
ghost use Rattle.cut_disk.specs.State.{Told};
ghost use Rattle.cut_disk.specs.Calls.{Rose, Runs};
ghost use Rattle.cell_store.specs.declared.kinds.Kind.{Kind};
ghost use Rattle.cell_store.specs.declared.kinds.Version.TheVariants.{One, Two};
ghost use Rattle.cell_store.specs.Layout.{part, from_base};
ghost use Rattle.cell_store.specs.Store.{Probes};
ghost use Rattle.store_growing.specs.StoreHeaders.{HasVersionTwo, HasFirstHead, HeaderStands, store_header};
ghost use Rattle.store_growing.specs.StoreHeaders.{cells_counted};

use any_cells::probe_two;
use cell_store::{Kind, Layout, Probe, StoreFault, Version, is_header};
use cut_disk::{Disk, DiskFailed};

/// What the header of a store says: its kind, its version, and the number of its cells.
#[derive(Clone, Copy, Debug, PartialEq, Eq, Drop)]
pub struct StoreHeader {
    /// The kind and the version.
    pub layout: Layout,
    /// The number that stands there: 1 to 1,024 in version 2. In version 1 it may be any, since a growth that was cut
    /// leaves any.
    pub cells: u16,
}

/// The header that stands on a disk of at least 32 bytes, if one does: that of version 2, or else that of version 1. It
/// reads 32 bytes at 0, and 32 at 32768 if the disk has them.
pub fn header_on<D: Disk>(disk: &mut D) -> Result<Option<StoreHeader>, DiskFailed>
    requires { 32 ≤ (D.state disk.old).size }
    ensures stands { IfOk result (λ there. (t : Told) → (D.state disk.old).told ≡ Some t → HeaderStands t.bytes there) }
    ensures runs { Runs [] 2 (D.state disk.old) (D.state disk.new) }
    ensures same { (D.state disk.new).told ≡ (D.state disk.old).told }
    ensures faults { OnOk result ((D.state disk.new).faults ≡ (D.state disk.old).faults) }
    ensures failed { OnErr result (Rose (D.state disk.old).faults (D.state disk.new).faults) }
{
    let mut front = [0; 32];
    disk.read(0, &mut front)?;
    header_beside(disk, &front)
}

/// The same of a disk whose first bytes are these, at least 32.
pub(crate) fn header_beside<D: Disk>(
    disk: &mut D,
    front: &[u8],
) -> Result<Option<StoreHeader>, DiskFailed>
    requires { 32 ≤ length front.now }
    ensures stands { IfOk result (λ there. (t : Told) → (D.state disk.old).told ≡ Some t
        → part 0 32 t.bytes ≡ part 0 32 front.now → HeaderStands t.bytes there) }
    ensures first { IfOk result (λ there. IfSome there (λ header. header.layout.version ≡ One
        → HasFirstHead header.layout.kind front.now)) }
    ensures runs { Runs [] 1 (D.state disk.old) (D.state disk.new) }
    ensures same { (D.state disk.new).told ≡ (D.state disk.old).told }
    ensures faults { OnOk result ((D.state disk.new).faults ≡ (D.state disk.old).faults) }
    ensures failed { OnErr result (Rose (D.state disk.old).faults (D.state disk.new).faults) }
{
    match second_header(disk)? {
        Some(header) => Ok(Some(header)),
        None => Ok(first_header(front)),
    }
}

/// The header of version 2 that stands on the disk.
fn second_header<D: Disk>(disk: &mut D) -> Result<Option<StoreHeader>, DiskFailed>
    ensures stands { IfOk result (λ there. (t : Told) → (D.state disk.old).told ≡ Some t
        → MatchOption there (¬ HasVersionTwo t.bytes) (λ header. HeaderStands t.bytes (Some header))) }
    ensures second { IfOk result (λ there. IfSome there (λ header. header.layout.version ≡ Two)) }
    ensures runs { Runs [] 1 (D.state disk.old) (D.state disk.new) }
    ensures same { (D.state disk.new).told ≡ (D.state disk.old).told }
    ensures faults { OnOk result ((D.state disk.new).faults ≡ (D.state disk.old).faults) }
    ensures failed { OnErr result (Rose (D.state disk.old).faults (D.state disk.new).faults) }
{
    match probe_two(disk) {
        Ok(probe) => Ok(header_found(probe)),
        Err(StoreFault::TooSmall) => Ok(None),
        Err(_) => Err(DiskFailed),
    }
}

/// The header that a look at the base of version 2 found.
fn header_found(probe: Probe) -> Option<StoreHeader>
    ensures second { IfSome result (λ header. header.layout.version ≡ Two) }
    ensures found { (x : List ℕ) → Probes Two (part 0 32 (from_base Two x)) probe
        → MatchOption result (¬ HasVersionTwo x) (λ header. HeaderStands x (Some header)) }
{
    match probe {
        Probe::Store { kind, cells } => Some(StoreHeader {
            layout: Layout {
                kind,
                version: Version::Two,
            },
            cells,
        }),
        Probe::Blank => None,
        Probe::Foreign => None,
    }
}

/// The header of version 1 with which these bytes begin, whatever its number is.
fn first_header(front: &[u8]) -> Option<StoreHeader>
    requires { 32 ≤ length front.now }
    ensures { MatchOption result ((kind : Kind) → ¬ HasFirstHead kind front.now)
        (λ header. (kind : Kind) × HasFirstHead kind front.now
        × (header ≡ store_header kind One (cells_counted front.now))) }
{
    let kind = first_kind(front)?;
    Some(StoreHeader {
        layout: Layout {
            kind,
            version: Version::One,
        },
        cells: u16::from_be_bytes([front[10], front[11]]),
    })
}

/// The kind of store of version 1 as which these bytes begin.
fn first_kind(front: &[u8]) -> Option<Kind>
    requires { 32 ≤ length front.now }
    ensures { MatchOption result ((kind : Kind) → ¬ HasFirstHead kind front.now)
        (λ kind. HasFirstHead kind front.now) }
{
    if has_first_head(front, Kind::Twin) {
        return Some(Kind::Twin);
    }
    if has_first_head(front, Kind::Log) {
        return Some(Kind::Log);
    }
    None
}

/// Whether these bytes begin as a store of this kind and of version 1.
fn has_first_head(front: &[u8], kind: Kind) -> bool
    requires { 32 ≤ length front.now }
    ensures { IsTrue result ↔ HasFirstHead kind front.now }
{
    let mut head = [0; 32];
    head.copy_from_slice(&front[..32]);
    head[10..12].copy_from_slice(&[0, 0]);
    let version = Version::One;
    is_header(&head, Layout { kind, version }, 0)
}
