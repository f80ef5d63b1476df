//! The draws that a seed gives.

ghost use Rattle.std.specs.Prelude.{◌≡◌, ◌<◌, ◌%◌, ◌^◌, IfOk};
ghost use Rattle.bus_script.specs.Draws.{after_draws, draw, bytes_drawn};

use std::alloc::{AllocError, Global};
use std::marker::Model;

/// A linear congruential generator of 64 bits. Contracts see its state.
#[derive(Drop)]
pub struct Draws {
    state: u64,
}

impl Model for Draws {
    ghost use Rattle.std.specs.Prelude.{ℕ};

    ghost Value = { ℕ };

    ghost view = { λ d. d.state };
}

impl Draws {
    ghost use Rattle.std.specs.Prelude.{◌≡◌, ◌<◌, ◌%◌, ◌^◌};
    ghost use Rattle.bus_script.specs.Draws.{after_draws, draw};

    /// The draws of a seed.
    pub fn of(seed: u64) -> Draws
        ensures { result ≡ seed }
    {
        Draws { state: seed }
    }

    /// The next draw, the upper 31 bits of the next state.
    #[tactic(auto, using(crate::proofs::Drawing::state_wraps))]
    pub fn draw(&mut self) -> u32
        ensures value { result ≡ draw self.old 0 }
        ensures state { self.new ≡ after_draws self.old 1 }
    {
        let state = self
            .state
            .wrapping_mul(6_364_136_223_846_793_005)
            .wrapping_add(1_442_695_040_888_963_407);
        self.state = state;
        (state >> 33) as u32
    }

    /// The next draw modulo `bound`.
    pub fn below(&mut self, bound: usize) -> usize
        requires { 0 < bound }
        ensures value { result ≡ draw self.old 0 % bound }
        ensures inside { result < bound }
        ensures state { self.new ≡ after_draws self.old 1 }
    {
        self.draw() as usize % bound
    }
}

/// So many bytes, each of its own draw.
pub fn draw_bytes(alloc: Global, draws: &mut Draws, count: usize) -> Result<Vec<u8>, AllocError>
    ensures { IfOk result
        (λ bytes. (bytes.items ≡ bytes_drawn draws.old count) × (draws.new ≡ after_draws draws.old count)) }
{
    let mut bytes = Vec::with_capacity(alloc, count)?;
    for _done in 0..count {
        bytes.push(draws.below(256) as u8)?;
    }
    Ok(bytes)
}
