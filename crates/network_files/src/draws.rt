//! Pseudorandom numbers, drawn one after the other.
ghost use Rattle.std.specs.Prelude.{◌≡◌, ◌+◌, ◌<◌};
ghost use Rattle.network_files.specs.Draws.{drawn, draws_most, state_after};

use std::marker::Model;

/// Draws numbers one after the other, by a linear congruential generator. Contracts see how many were drawn.
#[derive(Drop)]
pub struct Draws {
    taken: u32,
    state: u64,
}

impl Model for Draws {
    ghost use Rattle.std.specs.Prelude.{◌≡◌, ℕ};
    ghost use Rattle.network_files.specs.Draws.{state_at};

    ghost Value = { ℕ };

    ghost view = { λ d. d.taken };

    ghost invariant = { λ d. d.state ≡ state_at d.taken };
}

const MULTIPLIER: u128 = 6_364_136_223_846_793_005;

const INCREMENT: u128 = 1_442_695_040_888_963_407;

// The next state.
fn state_after(state: u64) -> u64
    ensures { result ≡ state_after state }
{
    ((u128::from(state) * MULTIPLIER + INCREMENT) % 0x1_0000_0000_0000_0000) as u64
}

impl Draws {
    /// Nothing is drawn yet.
    pub fn new() -> Draws
        ensures { result ≡ 0 }
    {
        Draws { taken: 0, state: 1 }
    }

    /// The next number: the upper 31 bits of the next state.
    pub fn next(&mut self) -> u64
        requires { self.old < draws_most }
        ensures number { result ≡ drawn self.old }
        ensures taken { self.new ≡ self.old + 1 }
    {
        self.taken += 1;
        self.state = state_after(self.state);
        self.state / 0x2_0000_0000
    }
}
