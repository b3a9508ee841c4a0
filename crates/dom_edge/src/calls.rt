//! The calls of a value in memory, and those of them that are to fail.
ghost use Rattle.std.specs.Prelude.{◌≡◌, ◌≤◌, ◌↔◌, IsTrue};
ghost use Rattle.dom_edge.specs.Causes.{next_count, Rose};
ghost use Rattle.dom_edge.specs.Memory.{IsPlanned, no_calls};

use dom_base::List;
use std::marker::Model;

/// The calls of a value in memory: their number so far, those that are to fail, and how many did.
/// Both counts stand still at the last number of `u64`.
#[derive(Drop)]
pub struct PlannedCalls {
    made: u64,
    fails: List<u64>,
    faults: u64,
}

impl Model for PlannedCalls {
    ghost use Rattle.dom_edge.specs.Memory.{Calls};

    ghost Value = { Calls };

    ghost view = { λ c. record { made = c.made; fails = c.fails; faults = c.faults } };
}

impl PlannedCalls {
    /// No call yet. `fails` has the numbers, from 0, of the calls that are to fail.
    pub fn new(fails: List<u64>) -> Self
        ensures { result ≡ no_calls fails }
    {
        PlannedCalls {
            made: 0,
            fails,
            faults: 0,
        }
    }

    /// Whether the next call is to fail.
    pub fn is_planned(&self) -> bool
        ensures { IsTrue result ↔ IsPlanned self.now }
    {
        self.fails.as_slice().contains(&self.made)
    }

    /// A call was made, and did not fail.
    pub fn pass(&mut self)
        ensures made { self.new.made ≡ next_count self.old.made }
        ensures fails { self.new.fails ≡ self.old.fails }
        ensures faults { self.new.faults ≡ self.old.faults }
    {
        self.made = self.made.saturating_add(1);
    }

    /// A call was made, and failed.
    pub fn fail(&mut self)
        ensures made { self.new.made ≡ next_count self.old.made }
        ensures fails { self.new.fails ≡ self.old.fails }
        ensures faults { self.new.faults ≡ next_count self.old.faults }
        ensures later { self.old.faults ≤ self.new.faults }
        ensures rose { Rose self.old.faults self.new.faults }
    {
        self.made = self.made.saturating_add(1);
        self.faults = self.faults.saturating_add(1);
    }
}
