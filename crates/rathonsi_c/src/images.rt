// What the image of a store keeps of the key slots, and of the bounds of routes.
ghost use Rattle.std.specs.Prelude.{◌↔◌, IsTrue, IfSome, IfNone, MatchOption};
ghost use Rattle.freshness_store.specs.Bound.{HoldsBound};
ghost use Rattle.rathonsi_c.specs.Images.{ImageBound, NoBound, ImageSlot, NoSlot, ReadsSlots, MissesSlot};
ghost use Rattle.rathonsi_c.specs.Images.{IsBoundCell, IdIsHeld};

use basics::Block;
use freshness_store::{Direction, bound_in};
use key_slots::{Slot, Slots};
use memory_update::head;
use slot_disk::slot_in;
use store_plan::cell_in;

/// The slot that the image keeps in the cell at this place.
pub fn slot_at(image: &[u8], place: u8) -> Option<Slot>
    ensures { MatchOption result (NoSlot image.now place) (ImageSlot image.now place) }
{
    match cell_in(image, u16::from(place)) {
        Ok(cell) => slot_in(&cell),
        Err(_) => None,
    }
}

/// Fourteen slots, of which the two that M1 names are as the image keeps them; none if the cell of one of them holds no
/// slot. If M1 names none, all are empty.
pub fn slots_named(image: &[u8], m1: &[u8; 16]) -> Option<Slots>
    ensures { MatchOption result (MissesSlot image.now m1.now) (ReadsSlots image.now m1.now) }
{
    let mut slots = Slots::empty();
    let Some(head) = head(&Block::of(*m1)) else {
        return Some(slots);
    };
    let Some(target) = slot_at(image, head.id.number()) else {
        return None;
    };
    let Some(authority) = slot_at(image, head.auth.number()) else {
        return None;
    };
    slots.set(head.id, target);
    slots.set(head.auth, authority);
    Some(slots)
}

/// What the cell of a bound holds.
#[derive(Clone, Copy)]
pub struct BoundHeld {
    pub id: u16,
    pub direction: Direction,
    pub bound: u64,
}

/// The bound that a cell holds, of whichever Data ID and direction.
pub fn bound_held(cell: &[u8; 32]) -> Option<BoundHeld>
    ensures some { IfSome result (λ held. HoldsBound cell.now held.id held.direction held.bound) }
    ensures none { IfNone result (¬ IsBoundCell cell.now) }
{
    let [_, _, high, low, ..] = *cell;
    let id = u16::from_be_bytes([high, low]);
    if let Some(bound) = bound_in(cell, id, Direction::Sends) {
        return Some(BoundHeld {
            id,
            direction: Direction::Sends,
            bound,
        });
    }
    let Some(bound) = bound_in(cell, id, Direction::Receives) else {
        return None;
    };
    Some(BoundHeld {
        id,
        direction: Direction::Receives,
        bound,
    })
}

// The bound of this Data ID and direction that the image keeps in this cell.
fn bound_at(image: &[u8], cell: u16, id: u16, direction: Direction) -> Option<u64>
    ensures { MatchOption result (NoBound image.now cell id direction) (ImageBound image.now cell id direction) }
{
    match cell_in(image, cell) {
        Ok(bytes) => bound_in(&bytes, id, direction),
        Err(_) => None,
    }
}

/// Whether a cell from 14 on and before `upto`, and another than `own`, keeps a bound of this Data ID and direction.
pub fn id_is_held(image: &[u8], upto: u16, own: u16, id: u16, direction: Direction) -> bool
    ensures { IsTrue result ↔ IdIsHeld image.now upto own id direction }
{
    for cell in 14..upto {
        if cell != own && bound_at(image, cell, id, direction).is_some() {
            return true;
        }
    }
    false
}
