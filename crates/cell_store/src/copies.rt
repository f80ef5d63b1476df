// The two copies of a cell, as bytes and as they are kept in memory.
ghost use Rattle.std.specs.Prelude.{◌≡◌, ◌++◌, ◌∷◌, ◌<◌, length, take, drop};
ghost use Rattle.cell_store.specs.Twin.{is_live, counts, next, live_copy, fresh_cell};
ghost use Rattle.cell_store.specs.Copies.{other};
ghost use Rattle.cell_store.specs.Held.{held_copy, held_of};

use crate::layout::{COPY, PAIR};

/// The gate of a live copy. Every other gate is closed.
pub const LIVE: u8 = 0xa7;

/// One of the two copies of a cell.
#[derive(Clone, Copy, Drop)]
pub enum Side {
    First,
    Second,
}

/// The copy of a cell that counts, and whether the other one, its spare, is live.
#[derive(Clone, Copy, Drop)]
pub struct Held {
    pub payload: [u8; 32],
    pub mark: u8,
    pub side: Side,
    pub spare_is_live: bool,
}

impl Held {
    /// What fills the room for cells that aren't read yet.
    pub const BLANK: Held = Held {
        payload: [0; 32],
        mark: 0,
        side: Side::First,
        spare_is_live: false,
    };
}

impl Side {
    pub fn other(self) -> Side
        ensures { result ≡ other self }
    {
        match self {
            Side::First => Side::Second,
            Side::Second => Side::First,
        }
    }
}

/// The mark after a mark: one more, modulo 3.
pub fn next(mark: u8) -> u8
    ensures { result ≡ next mark }
{
    ((u16::from(mark) + 1) % 3) as u8
}

#[tactic(auto, unfolding(crate::specs::Twin::is_live))]
fn is_live(copy: &[u8]) -> bool
    requires { length copy.now ≡ 34 }
    ensures { result ≡ is_live copy.now }
{
    copy[0] == LIVE
}

/// Whether the one copy counts beside the other.
#[tactic(auto, unfolding(crate::specs::Twin::counts))]
fn counts(this: &[u8], that: &[u8]) -> bool
    requires this { length this.now ≡ 34 }
    requires that { length that.now ≡ 34 }
    ensures { result ≡ counts this.now that.now }
{
    if !is_live(this) || this[1] > 2 {
        return false;
    }
    !is_live(that) || (that[1] < 3 && this[1] == next(that[1]))
}

fn held_copy(this: &[u8], side: Side, that: &[u8]) -> Held
    requires this { length this.now ≡ 34 }
    requires that { length that.now ≡ 34 }
    ensures { result ≡ held_copy this.now side that.now }
{
    let mut payload = [0; 32];
    payload.copy_from_slice(&this[2..]);
    Held {
        payload,
        mark: this[1],
        side,
        spare_is_live: is_live(that),
    }
}

/// What the 68 bytes of a cell hold. None if the cell is damaged: none of its copies counts.
pub fn held_in(bytes: &[u8; 68]) -> Option<Held>
    ensures { result ≡ held_of (take 34 bytes.now) (drop 34 bytes.now) }
{
    let (first, second) = bytes.split_at(COPY);
    if counts(first, second) {
        Some(held_copy(first, Side::First, second))
    } else if counts(second, first) {
        Some(held_copy(second, Side::Second, first))
    } else {
        None
    }
}

/// A mark and a payload: a copy without its gate.
pub fn marked(mark: u8, payload: &[u8; 32]) -> [u8; 33]
    ensures { result ≡ mark ∷ payload.now }
{
    let mut out = [0; 33];
    out[0] = mark;
    out[1..].copy_from_slice(payload);
    out
}

/// A live copy with this mark.
fn live_copy(mark: u8, payload: &[u8; 32]) -> [u8; 34]
    ensures { result ≡ live_copy mark payload.now }
{
    let mut out = [0; COPY];
    out[0] = LIVE;
    out[1..].copy_from_slice(&marked(mark, payload));
    out
}

/// The 68 bytes of a fresh cell: its first copy is live with the mark 0, its second with the mark 2.
pub fn fresh_cell(payload: &[u8; 32]) -> [u8; 68]
    ensures { result ≡ fresh_cell payload.now }
{
    let mut out = [0; PAIR];
    out[..COPY].copy_from_slice(&live_copy(0, payload));
    out[COPY..].copy_from_slice(&live_copy(2, payload));
    out
}
