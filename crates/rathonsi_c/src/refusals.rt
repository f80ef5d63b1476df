// Why a call on a store does nothing, and the status of it.
ghost use Rattle.std.specs.Prelude.{◌≡◌, ◌≢◌};
ghost use Rattle.rathonsi_c.specs.Causes.{erc_status};
ghost use Rattle.rathonsi_c.specs.Refused.{route_status};

use crate::{
    BAD_VALUE, DAMAGED, EXHAUSTED, KEY_EMPTY, KEY_INVALID, KEY_NOT_AVAILABLE, KEY_UPDATE_ERROR,
    KEY_WRITE_PROTECTED, RESERVE, WRONG_CELL,
};
use key_slots::Erc;

/// Why a route isn't used.
#[derive(Clone, Copy)]
pub enum Refusal {
    /// A number of the route is outside its range, or the route isn't open.
    BadValue,
    /// The image ends before the cell of its bound, or that cell holds something else.
    WrongCell,
    /// No copy of the cell of its bound counts, or the cell of its slot holds no slot.
    Damaged,
    /// The slot's key isn't for this use.
    Key(Erc),
    /// The counter is 2^64 - 1.
    Exhausted,
    /// The bound in the image is below the freshness above the counter.
    Reserve,
}

impl Refusal {
    pub fn status(self) -> i32
        ensures { result ≡ route_status self }
    {
        match self {
            Refusal::BadValue => BAD_VALUE,
            Refusal::WrongCell => WRONG_CELL,
            Refusal::Damaged => DAMAGED,
            Refusal::Key(refusal) => erc_status(refusal),
            Refusal::Exhausted => EXHAUSTED,
            Refusal::Reserve => RESERVE,
        }
    }
}

/// The status of a refusal of the key memory.
pub fn erc_status(refusal: Erc) -> i32
    ensures { result ≡ erc_status refusal }
{
    match refusal {
        Erc::KeyEmpty => KEY_EMPTY,
        Erc::KeyInvalid => KEY_INVALID,
        Erc::KeyNotAvailable => KEY_NOT_AVAILABLE,
        Erc::KeyWriteProtected => KEY_WRITE_PROTECTED,
        Erc::KeyUpdateError => KEY_UPDATE_ERROR,
        Erc::NoSecureBoot | Erc::SequenceError => DAMAGED,
    }
}
