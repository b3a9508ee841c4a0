//! The tally of the answers to many requests.
ghost use Rattle.std.specs.Prelude.{◌≡◌, ◌+◌, [], IfOk};
ghost use Rattle.plant_client.specs.Tallies.{tally_of, with_heard};

use crate::hearing::Heard;
use dom_base::NoMemory;

/// How many paths were answered, how often there was none, and the sum and the greatest of the costs.
#[derive(Clone, Copy)]
pub struct Tally {
    pub paths: u64,
    pub none: u64,
    pub sum: u64,
    pub greatest: u64,
}

// Above 2^64 - 1 there is no room for a sum.
fn add(total: u64, more: u64) -> Result<u64, NoMemory>
    ensures { IfOk result (λ sum. sum ≡ total + more) }
{
    match total.checked_add(more) {
        Some(sum) => Ok(sum),
        None => Err(NoMemory),
    }
}

impl Tally {
    /// The tally of no answer.
    pub(crate) fn new() -> Tally
        ensures { result ≡ tally_of [] }
    {
        Tally {
            paths: 0,
            none: 0,
            sum: 0,
            greatest: 0,
        }
    }

    /// The same with one answer more.
    pub(crate) fn with(self, heard: Heard) -> Result<Tally, NoMemory>
        ensures { IfOk result (λ tally. tally ≡ with_heard self heard) }
    {
        match heard {
            Heard::Path(cost) => Ok(Tally {
                paths: add(self.paths, 1)?,
                none: self.none,
                sum: add(self.sum, cost)?,
                greatest: self.greatest.max(cost),
            }),
            Heard::NoPath => Ok(Tally {
                paths: self.paths,
                none: add(self.none, 1)?,
                sum: self.sum,
                greatest: self.greatest,
            }),
            Heard::Nothing => Ok(self),
        }
    }
}
