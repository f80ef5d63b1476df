// A look at the 32 bytes at a store's base.
ghost use Rattle.std.specs.Prelude.{◌≡◌, ◌↔◌, IsTrue, replicate, IfOk, IfErr};
ghost use Rattle.cell_store.specs.declared.kinds.Kind.{Kind};
ghost use Rattle.cell_store.specs.declared.kinds.Version.TheVariants.{One};
ghost use Rattle.cell_store.specs.Layout.{header, kind_byte};
ghost use Rattle.cell_store.specs.Store.{FewCells, Probes, FindsFew};
ghost use Rattle.cell_store.specs.Attaching.{Probed, NotProbed};

use crate::faults::StoreFault;
use crate::kinds::{Kind, Layout, Probe, Version};
use crate::layout::{HEADER, is_header};
use cut_disk::Disk;

/// What the first 32 bytes of a disk are, read in one call. A header of another kind or version,
/// or of a number of cells that isn't 1 to 1024, is `Foreign`. Errors:
/// `TooSmall` for a disk of less than 32 bytes, and `DiskFailed`.
pub fn probe<D: Disk>(disk: &mut D) -> Result<Probe, StoreFault>
    ensures probed { IfOk result (Probed One (D.state disk.old) (D.state disk.new)) }
    ensures refused { IfErr result (NotProbed One (D.state disk.old) (D.state disk.new)) }
{
    probe_as(disk, Version::One)
}

/// The same of the 32 bytes at the base of this version.
pub fn probe_as<D: Disk>(disk: &mut D, version: Version) -> Result<Probe, StoreFault>
    ensures probed { IfOk result (Probed version (D.state disk.old) (D.state disk.new)) }
    ensures refused { IfErr result (NotProbed version (D.state disk.old) (D.state disk.new)) }
{
    let base = version.base();
    if disk.size() < base + 32 {
        return Err(StoreFault::TooSmall);
    }
    let mut bytes = [0; HEADER];
    match disk.read(base, &mut bytes) {
        Ok(()) => Ok(probe_of(version, &bytes)),
        Err(_) => Err(StoreFault::DiskFailed),
    }
}

fn probe_of(version: Version, bytes: &[u8; 32]) -> Probe
    ensures few { FindsFew result }
    ensures is { Probes version bytes.now result }
{
    if is_blank(bytes) {
        return Probe::Blank;
    }
    let cells = u16::from_be_bytes([bytes[10], bytes[11]]);
    let kind = kind_of(bytes[8]);
    let layout = Layout { kind, version };
    if is_store(bytes, layout, cells) {
        Probe::Store { kind, cells }
    } else {
        Probe::Foreign
    }
}

/// The kind that a header with this byte has, if it is one.
fn kind_of(byte: u8) -> Kind
    ensures { (kind : Kind) → kind_byte kind ≡ byte → result ≡ kind }
{
    if byte == 1 { Kind::Twin } else { Kind::Log }
}

fn is_store(bytes: &[u8; 32], layout: Layout, cells: u16) -> bool
    ensures { IsTrue result ↔ (FewCells cells × (bytes.now ≡ header layout cells)) }
{
    if cells < 1 || cells > 1024 {
        return false;
    }
    is_header(bytes, layout, cells)
}

fn is_blank(bytes: &[u8; 32]) -> bool
    ensures { IsTrue result ↔ (bytes.now ≡ replicate 32 0) }
{
    *bytes == [0; 32]
}
