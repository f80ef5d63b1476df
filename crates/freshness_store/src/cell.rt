// The bytes of a bound.
ghost use Rattle.std.specs.Prelude.{◌≡◌, MatchOption};
ghost use Rattle.freshness_store.specs.Bound.{direction_number, bound_cell, HoldsBound, HoldsNoBound};

use freshness_routes::Direction;

fn direction_byte(direction: Direction) -> u8
    ensures { result ≡ direction_number direction }
{
    match direction {
        Direction::Sends => 1,
        Direction::Receives => 2,
    }
}

/// The cell of a bound, 32 bytes.
pub fn bound_bytes(id: u16, direction: Direction, bound: u64) -> [u8; 32]
    ensures { result ≡ bound_cell id direction bound }
{
    let mut cell = [0; 32];
    cell[0] = 2;
    cell[1] = direction_byte(direction);
    cell[2..4].copy_from_slice(&id.to_be_bytes());
    cell[4..12].copy_from_slice(&bound.to_be_bytes());
    cell
}

/// The bound that a cell holds for this Data ID and direction; none if it holds none.
pub fn bound_in(cell: &[u8; 32], id: u16, direction: Direction) -> Option<u64>
    ensures { MatchOption result (HoldsNoBound cell.now id direction) (HoldsBound cell.now id direction) }
{
    let [_, _, _, _, a, b, c, d, e, f, g, h, ..] = *cell;
    let bound = u64::from_be_bytes([a, b, c, d, e, f, g, h]);
    if bound_bytes(id, direction, bound) == *cell {
        Some(bound)
    } else {
        None
    }
}
