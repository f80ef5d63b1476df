//! What is told of an image: its slots and the bounds of its routes, and the version of the library.
ghost use Rattle.std.specs.Prelude.{◌≡◌, ◌≢◌};
ghost use Rattle.rathonsi_c.specs.Routes.{OpenAnswers};
ghost use Rattle.rathonsi_c.specs.States.{SlotStateAnswers, TellsSlot, TellsRoute, state_of as told_of};
ghost use Rattle.rathonsi_c.specs.declared.states.TheConstants.{VERSION};

use crate::images::slot_at;
use crate::route::{RathonsiRoute, bound_of, direction_of};
use crate::{BAD_VALUE, DAMAGED, OK};
use key_slots::Slot;

/// What is told of a key slot: never its key.
#[derive(Clone, Copy)]
#[repr(C)]
pub struct RathonsiSlotState {
    /// The counter of its last update, below 2^28; 0 if it is empty.
    pub counter: u32,
    /// 1 if it holds a key, else 0.
    pub filled: u8,
    /// The five flags as in `RathonsiUpdate`; 0 if it is empty.
    pub flags: u8,
    /// Fills the struct up; zero.
    pub unused: [u8; 2],
}

/// What is told of a route.
#[derive(Clone, Copy)]
#[repr(C)]
pub struct RathonsiRouteState {
    /// Its counter.
    pub counter: u64,
    /// The bound that the image keeps for it.
    pub bound: u64,
}

/// The version of the library: major, minor and patch, a byte each.
pub const VERSION: u32 = 0x001400;

/// The version of this library, to be compared with the header's.
#[unsafe(no_mangle)]
pub extern "C" fn rathonsi_version() -> u32
    ensures { result ≡ VERSION }
{
    VERSION
}

/// Tells of a slot, 0 to 13. `BAD_VALUE`: it is none of these. `DAMAGED`: its cell holds no slot.
#[unsafe(no_mangle)]
pub extern "C" fn rathonsi_slot_state(slot: u8, image: &[u8], state: &mut RathonsiSlotState) -> i32
    ensures answer { SlotStateAnswers slot image.now result }
    ensures told { result ≡ OK → TellsSlot image.now slot state.new }
    ensures unchanged { result ≢ OK → state.new ≡ state.old }
{
    if slot > 13 {
        return BAD_VALUE;
    }
    match slot_at(image, slot) {
        Some(held) => {
            *state = state_of(&held);
            OK
        }
        None => DAMAGED,
    }
}

// What is told of a slot.
fn state_of(slot: &Slot) -> RathonsiSlotState
    ensures { result ≡ told_of slot.now }
{
    match *slot {
        Slot::Empty => RathonsiSlotState {
            counter: 0,
            filled: 0,
            flags: 0,
            unused: [0; 2],
        },
        Slot::Filled { counter, flags, .. } => RathonsiSlotState {
            counter: counter.number(),
            filled: 1,
            flags: flags.number(),
            unused: [0; 2],
        },
    }
}

/// Tells of a route that is open or isn't. `BAD_VALUE`: a number of it is outside its range. `WRONG_CELL`, `DAMAGED`: as
/// `rathonsi_route_open` has them.
#[unsafe(no_mangle)]
pub extern "C" fn rathonsi_route_state(
    route: &RathonsiRoute,
    image: &[u8],
    state: &mut RathonsiRouteState,
) -> i32
    ensures answer { OpenAnswers route.now image.now result }
    ensures told { result ≡ OK → TellsRoute route.now image.now state.new }
    ensures unchanged { result ≢ OK → state.new ≡ state.old }
{
    let Some(direction) = direction_of(route) else {
        return BAD_VALUE;
    };
    match bound_of(route, direction, image) {
        Ok(bound) => {
            *state = RathonsiRouteState {
                counter: route.counter,
                bound,
            };
            OK
        }
        Err(refusal) => refusal.status(),
    }
}
