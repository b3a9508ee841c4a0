//! Numbers of requests that end, one after the other.
ghost use Rattle.std.specs.Prelude.{◌≡◌, ◌++◌, ◌∷◌, [], OnOk, OnErr};
ghost use Rattle.plant_model.specs.Plant.{has_number};

use crate::numbers::has_number;
use dom_base::{List, NoMemory};
use std::alloc::Global;
use std::collections::BTreeSet;
use std::marker::Model;

/// The numbers of requests that end, in order. Where they may be many, a set has them too, so that none is
/// looked for by a walk.
#[derive(Drop)]
pub struct Ended {
    many: bool,
    numbers: Vec<u64>,
    sorted: BTreeSet<u64>,
}

impl Model for Ended {
    ghost use Rattle.std.specs.Prelude.{ℕ, List};

    ghost Value = { List ℕ };

    ghost use Rattle.pce_common.specs.Waiting.{AreSorted};

    ghost view = { λ a. a.numbers.items };

    ghost invariant = { λ a. AreSorted a.many a.numbers.items a.sorted };
}

impl Ended {
    /// No numbers, of which many may come.
    pub fn new(alloc: Global, many: bool) -> Ended
        ensures { result ≡ [] }
    {
        Ended {
            many,
            numbers: Vec::new(alloc),
            sorted: BTreeSet::new(alloc),
        }
    }

    /// A further number.
    pub fn push(&mut self, number: u64) -> Result<(), NoMemory>
        ensures ok { OnOk result (self.new ≡ self.old ++ number ∷ []) }
        ensures err { OnErr result (self.new ≡ self.old) }
    {
        self.numbers.reserve(1)?;
        if self.many {
            self.sorted.insert(number)?;
        }
        self.numbers.push_reserved(number);
        Ok(())
    }

    /// Whether a number is there; takes no memory.
    pub fn has(&self, number: u64) -> bool
        ensures { result ≡ has_number number self.now }
    {
        if self.many {
            self.sorted.contains(&number)
        } else {
            has_number(self.numbers.as_slice(), number)
        }
    }

    /// The numbers.
    pub fn as_slice(&self) -> &[u64]
        ensures { result.now ≡ self.now }
    {
        self.numbers.as_slice()
    }

    /// The numbers as a list, which move: no memory is taken.
    pub fn into_list(self) -> List<u64>
        ensures { result ≡ self }
    {
        let Ended {
            many: _,
            numbers,
            sorted: _,
        } = self;
        List::from_vec(numbers)
    }
}
