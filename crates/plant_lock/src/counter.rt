//! A counter, the smallest value that takes turns.
ghost use Rattle.std.specs.Prelude.{◌≡◌};

use crate::turned::Turned;
use std::marker::Model;

/// A sum of numbers.
#[derive(Drop)]
pub struct Counter {
    sum: u64,
}

impl Model for Counter {
    ghost use Rattle.std.specs.Prelude.{ℕ};

    ghost Value = { ℕ };

    ghost view = { λ c. c.sum };
}

/// What may be done to a counter. Every sum admits both acts, and the answer is the sum after it.
#[derive(Clone, Copy)]
pub enum Change {
    /// Adds the number. A sum that would not fit its type stays as it was.
    Add(u64),
    Read,
}

impl Counter {
    /// A counter at 0.
    pub fn new() -> Counter
        ensures { result ≡ 0 }
    {
        Counter { sum: 0 }
    }

    /// The sum of all that was added.
    pub fn sum(&self) -> u64
        ensures { result ≡ self.now }
    {
        self.sum
    }
}

impl Turned for Counter {
    ghost use Rattle.std.specs.Prelude.{◌≡◌, ℕ};
    ghost use Rattle.plant_lock.specs.Counter.{sum_after};

    type Act = Change;

    type Answer = u64;

    ghost State = { ℕ };

    ghost plain = { λ sum. sum };

    ghost admits = { λ _ _. Unit {0} };

    ghost allows = { λ sum act answer. answer ≡ sum_after sum act };

    ghost after = { λ sum act _. sum_after sum act };

    ghost warrants = { λ _ _ _. ⊥ };

    fn turn(&mut self, act: Change) -> u64 {
        match act {
            Change::Add(n) => {
                if let Some(sum) = self.sum.checked_add(n) {
                    self.sum = sum;
                }
            }
            Change::Read => {}
        }
        self.sum
    }

    ghost lasts = { λ sum act answer entries next none. absurd none };
}
