//! The frames that were accepted last.
ghost use Rattle.std.specs.Prelude.{◌≡◌, ◌≤◌, [], ◌∷◌, length, take, slice_get, IfOk};

use circular_buffer::HeapCircularBuffer;
use std::alloc::{AllocError, Global};
use std::marker::Model;

/// The most frames that are kept.
pub const KEPT: usize = 65536;

/// A frame that was accepted.
#[derive(Clone, Copy)]
pub struct Accepted {
    /// The number of its line in the log.
    pub number: u64,
    /// The place of the line of the map that accepted it, counted from 0.
    pub place: usize,
    /// Its freshness.
    pub freshness: u64,
    /// Its authenticator.
    pub tag: [u8; 3],
}

/// The frames that were accepted last, at most 65,536. A contract sees the list of them, the latest first.
#[derive(Drop)]
pub struct Recent {
    ring: HeapCircularBuffer<Accepted>,
}

impl Model for Recent {
    ghost use Rattle.std.specs.Prelude.{◌≡◌, ◌≤◌, List, length};
    ghost use Rattle.explain_commands.specs.declared.recent.Accepted.{Accepted};

    ghost Value = { List Accepted };

    ghost view = { λ r. r.ring.items };

    ghost invariant = { λ r. (r.ring.capacity ≡ 65536) × (length r.ring.items ≤ 65536) };
}

impl Recent {
    /// None yet. All room is taken.
    pub fn new(alloc: Global) -> Result<Recent, AllocError>
        ensures { IfOk result (λ recent. recent ≡ []) }
    {
        let ring = HeapCircularBuffer::with_capacity(alloc, KEPT)?;
        Ok(Recent { ring })
    }

    /// Adds a frame. If as many are kept as may be, the oldest is forgotten.
    pub fn note(&mut self, accepted: Accepted)
        ensures { self.new ≡ take 65536 (accepted ∷ self.old) }
    {
        self.ring.push_front(accepted);
    }

    /// How many there are.
    pub fn len(&self) -> usize
        ensures value { result ≡ length self.now }
        ensures few { result ≤ 65536 }
    {
        self.ring.len()
    }

    /// The one at a place, counted from 0 and the latest first.
    pub fn get(&self, place: usize) -> Option<Accepted>
        ensures { result ≡ slice_get self.now place }
    {
        self.ring.get(place).copied()
    }
}
