// The two banks of a log store, and its record places.
ghost use Rattle.std.specs.Prelude.{◌≡◌, ◌+◌, ◌*◌, ◌<◌, ◌≤◌, ◌++◌};
ghost use Rattle.basics.specs.Numbers.{bytes_of};
ghost use Rattle.cell_store.specs.Log.{log_size, bank_at, place_at};

use crate::copies::Side;

/// The record places of a bank.
pub const PLACES: u8 = 64;

/// The bank that counts: where it is, its mark, how many of its places are used, and whether the other bank, its spare,
/// is live.
#[derive(Clone, Copy, Drop)]
pub struct Bank {
    pub side: Side,
    pub mark: u8,
    pub used: u8,
    pub spare_is_live: bool,
}

/// The address of a bank, from the first byte of a store of so many cells on.
pub fn bank_address(cells: u16, side: Side) -> u64
    ensures is { result ≡ bank_at cells side }
    ensures inside { result + 2242 + 32 * cells ≤ log_size cells }
{
    match side {
        Side::First => 32,
        Side::Second => 2274 + 32 * u64::from(cells),
    }
}

/// The address of a record place of a bank.
pub fn place_address(cells: u16, side: Side, place: u8) -> u64
    requires { place < 64 }
    ensures is { result ≡ place_at cells side place }
    ensures inside { result + 35 ≤ log_size cells }
{
    bank_address(cells, side) + 2 + 32 * u64::from(cells) + 35 * u64::from(place)
}

/// A record but its gate: the number of the cell that it changes, and what that is then.
pub fn record_of(cell: u16, payload: &[u8; 32]) -> [u8; 34]
    ensures { result ≡ bytes_of 2 cell ++ payload.now }
{
    let mut out = [0; 34];
    out[..2].copy_from_slice(&cell.to_be_bytes());
    out[2..].copy_from_slice(payload);
    out
}
