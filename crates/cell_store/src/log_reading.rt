// Reading a log store: its header, its banks, the cells of the bank that counts, and its places.
ghost use Rattle.std.specs.Prelude.{◌≡◌, ◌+◌, ◌<◌, ◌≤◌, length, Some, OnOk, OnErr, IfOk, IfErr};
ghost use Rattle.cut_disk.specs.Calls.{Grows};
ghost use Rattle.cut_disk.specs.State.{Told};
ghost use Rattle.cell_store.specs.Layout.{log_layout};
ghost use Rattle.cell_store.specs.Log.{bank_head, bank_cell, BankCounts, place, number, content};
ghost use Rattle.cell_store.specs.Twin.{is_live, counts};
ghost use Rattle.cell_store.specs.LogKept.{KeepsLog};
ghost use Rattle.cell_store.specs.Store.{FewCells, HasHeader, store_size};
ghost use Rattle.cell_store.specs.Reading.{ReadOnly, ReadFailed, Leaves, Finds};
ghost use Rattle.cell_store.specs.LogReading.{ToldLog, bank_of, BankRead, BankFault, CellsSoFar, PlacesSoFar, PlacesFault, CountingFault};
ghost use Rattle.cell_store.specs.ReadOrder.{log_reads, log_reads_to};

use crate::banks::{Bank, bank_address, place_address};
use crate::copies::{LIVE, Side, next};
use crate::faults::Reread;
use crate::kinds::{Kind, Layout, Version};
use crate::reading::read_header;
use cut_disk::{Disk, DiskFailed};

/// Reads the gate and the mark of a bank in one call.
fn read_head<D: Disk>(
    disk: &mut D,
    version: Version,
    cells: u16,
    side: Side,
) -> Result<[u8; 2], DiskFailed>
    requires { store_size (log_layout version) cells ≤ (D.state disk.old).size }
    ensures same { OnOk result (ReadOnly 1 (D.state disk.old) (D.state disk.new)) }
    ensures is { IfOk result (λ b. ToldLog version (D.state disk.old).told
        (λ x. b ≡ bank_head cells side x)) }
    ensures failed { OnErr result (ReadFailed 1 (D.state disk.old) (D.state disk.new)) }
{
    let mut bytes = [0; 2];
    disk.read(version.base() + bank_address(cells, side), &mut bytes)?;
    Ok(bytes)
}

#[tactic(auto, unfolding(crate::specs::Twin::counts, crate::specs::Twin::is_live))]
fn counts(this: &[u8; 2], that: &[u8; 2]) -> bool
    ensures { result ≡ counts this.now that.now }
{
    if this[0] != LIVE || this[1] > 2 {
        return false;
    }
    that[0] != LIVE || (that[1] < 3 && this[1] == next(that[1]))
}

#[tactic(auto, unfolding(crate::specs::Twin::is_live))]
fn is_live(bytes: &[u8; 2]) -> bool
    ensures { result ≡ is_live bytes.now }
{
    bytes[0] == LIVE
}

/// The bank that counts, by the gates and marks of both.
fn bank_of(first: &[u8; 2], second: &[u8; 2]) -> Option<Bank>
    ensures { result ≡ bank_of first.now second.now }
{
    if counts(first, second) {
        Some(Bank {
            side: Side::First,
            mark: first[1],
            used: 0,
            spare_is_live: is_live(second),
        })
    } else if counts(second, first) {
        Some(Bank {
            side: Side::Second,
            mark: second[1],
            used: 0,
            spare_is_live: is_live(first),
        })
    } else {
        None
    }
}

/// Reads which bank counts, in two calls.
fn read_bank<D: Disk>(disk: &mut D, version: Version, cells: u16) -> Result<Bank, Reread>
    requires { store_size (log_layout version) cells ≤ (D.state disk.old).size }
    ensures same { OnOk result (ReadOnly 2 (D.state disk.old) (D.state disk.new)) }
    ensures is { IfOk result (λ b. ToldLog version (D.state disk.old).told (BankRead cells b)) }
    ensures fault { IfErr result (BankFault version cells (D.state disk.old) (D.state disk.new)) }
{
    let first = read_head(disk, version, cells, Side::First)?;
    let second = read_head(disk, version, cells, Side::Second)?;
    match bank_of(&first, &second) {
        Some(bank) => Ok(bank),
        None => Err(Reread::Damaged(0)),
    }
}

/// Reads a cell of a bank in one call.
fn read_bank_cell<D: Disk>(
    disk: &mut D,
    version: Version,
    cells: u16,
    side: Side,
    cell: u16,
) -> Result<[u8; 32], DiskFailed>
    requires room { store_size (log_layout version) cells ≤ (D.state disk.old).size }
    requires below { cell < cells }
    ensures same { OnOk result (ReadOnly 1 (D.state disk.old) (D.state disk.new)) }
    ensures is { IfOk result (λ b. ToldLog version (D.state disk.old).told
        (λ x. b ≡ bank_cell cells side x cell)) }
    ensures failed { OnErr result (ReadFailed 1 (D.state disk.old) (D.state disk.new)) }
{
    let mut bytes = [0; 32];
    let at = bank_address(cells, side) + 2 + 32 * u64::from(cell);
    disk.read(version.base() + at, &mut bytes)?;
    Ok(bytes)
}

/// Reads all cells of a bank, each in one call.
fn read_cells<D: Disk>(
    disk: &mut D,
    version: Version,
    side: Side,
    cells: &mut [[u8; 32]],
) -> Result<(), DiskFailed>
    requires few { FewCells (length cells.old) }
    requires room { store_size (log_layout version) (length cells.old) ≤ (D.state disk.old).size }
    ensures same { OnOk result (ReadOnly (length cells.old) (D.state disk.old) (D.state disk.new)) }
    ensures is { OnOk result (ToldLog version (D.state disk.old).told
        (CellsSoFar (length cells.old) side (length cells.old) cells.new)) }
    ensures failed { OnErr result (ReadFailed (length cells.old) (D.state disk.old) (D.state disk.new)) }
{
    let count = cells.len();
    for i in 0..count {
        cells[i] = read_bank_cell(disk, version, count as u16, side, i as u16)?;
    }
    Ok(())
}

/// Reads a record place in one call.
fn read_place<D: Disk>(
    disk: &mut D,
    version: Version,
    cells: u16,
    side: Side,
    number: u8,
) -> Result<[u8; 35], DiskFailed>
    requires room { store_size (log_layout version) cells ≤ (D.state disk.old).size }
    requires below { number < 64 }
    ensures same { OnOk result (ReadOnly 1 (D.state disk.old) (D.state disk.new)) }
    ensures is { IfOk result (λ b. ToldLog version (D.state disk.old).told
        (λ x. b ≡ place cells side x number)) }
    ensures failed { OnErr result (ReadFailed 1 (D.state disk.old) (D.state disk.new)) }
{
    let mut bytes = [0; 35];
    disk.read(
        version.base() + place_address(cells, side, number),
        &mut bytes,
    )?;
    Ok(bytes)
}

#[tactic(auto, unfolding(crate::specs::Twin::is_live))]
fn is_live_place(bytes: &[u8; 35]) -> bool
    ensures { result ≡ is_live bytes.now }
{
    bytes[0] == LIVE
}

fn number_of(bytes: &[u8; 35]) -> u16
    ensures { result ≡ number bytes.now }
{
    u16::from_be_bytes([bytes[1], bytes[2]])
}

fn content_of(bytes: &[u8; 35]) -> [u8; 32]
    ensures { result ≡ content bytes.now }
{
    let mut out = [0; 32];
    out.copy_from_slice(&bytes[3..]);
    out
}

/// Reads all places of a bank, each in one call, and changes the cells by their records. It answers how
/// many of the places are live.
fn read_places<D: Disk>(
    disk: &mut D,
    version: Version,
    side: Side,
    cells: &mut [[u8; 32]],
) -> Result<u8, Reread>
    requires few { FewCells (length cells.old) }
    requires room { store_size (log_layout version) (length cells.old) ≤ (D.state disk.old).size }
    requires counting { ToldLog version (D.state disk.old).told (BankCounts (length cells.old) side) }
    requires read { ToldLog version (D.state disk.old).told
        (CellsSoFar (length cells.old) side (length cells.old) cells.old) }
    ensures same { OnOk result (ReadOnly 64 (D.state disk.old) (D.state disk.new)) }
    ensures is { IfOk result (λ used. ToldLog version (D.state disk.old).told
        (PlacesSoFar (length cells.old) side 64 used cells.new)) }
    ensures fault { IfErr result (PlacesFault version (length cells.old) (D.state disk.old)
        (D.state disk.new)) }
{
    let count = cells.len();
    let mut used = 0;
    for p in 0..64u8 {
        let bytes = read_place(disk, version, count as u16, side, p)?;
        if is_live_place(&bytes) {
            let number = number_of(&bytes) as usize;
            if used != p || number >= count {
                return Err(Reread::Damaged(u16::from(p) + 1));
            }
            cells[number] = content_of(&bytes);
            used = p + 1;
        }
    }
    Ok(used)
}

/// Reads the bank that counts: which it is, its cells, and its places.
pub fn read_counting<D: Disk>(
    disk: &mut D,
    version: Version,
    cells: &mut [[u8; 32]],
) -> Result<Bank, Reread>
    requires few { FewCells (length cells.old) }
    requires room { store_size (log_layout version) (length cells.old) ≤ (D.state disk.old).size }
    ensures same { OnOk result (ReadOnly (66 + length cells.old) (D.state disk.old)
        (D.state disk.new)) }
    ensures keeps { IfOk result (λ bank. (t : Told) → (D.state disk.old).told ≡ Some t
        → HasHeader (log_layout version) (length cells.old) t.bytes
        → KeepsLog version (length cells.old) t.bytes cells.new bank) }
    ensures fault { IfErr result (CountingFault version (length cells.old) (D.state disk.old)
        (D.state disk.new)) }
{
    let bank = read_bank(disk, version, cells.len() as u16)?;
    read_cells(disk, version, bank.side, cells)?;
    let used = read_places(disk, version, bank.side, cells)?;
    Ok(Bank {
        side: bank.side,
        mark: bank.mark,
        used,
        spare_is_live: bank.spare_is_live,
    })
}

/// Reads a log store into these cells, in at most 67 calls and one a cell.
pub fn read_log<D: Disk>(
    disk: &mut D,
    version: Version,
    cells: &mut [[u8; 32]],
) -> Result<Bank, Reread>
    requires few { FewCells (length cells.old) }
    requires room { store_size (log_layout version) (length cells.old) ≤ (D.state disk.old).size }
    ensures same { OnOk result (ReadOnly (log_reads (length cells.old)) (D.state disk.old)
        (D.state disk.new)) }
    ensures grows { OnOk result (Grows (D.state disk.old) (D.state disk.new)) }
    ensures keeps { IfOk result (λ bank. (t : Told) → (D.state disk.old).told ≡ Some t
        → KeepsLog version (length cells.old) t.bytes cells.new bank) }
    ensures leaves { IfErr result (Leaves (log_reads (length cells.old)) (log_reads_to (length cells.old))
        (D.state disk.old) (D.state disk.new)) }
    ensures finds { IfErr result (Finds (log_layout version) (length cells.old)
        (D.state disk.old).told) }
{
    let layout = Layout {
        kind: Kind::Log,
        version,
    };
    read_header(disk, layout, cells.len() as u16)?;
    let bank = read_counting(disk, version, cells)?;
    Ok(bank)
}
