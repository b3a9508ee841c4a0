//! Who waits for the answers of a peer, by the ids of the requests that were sent to it.
ghost use Rattle.std.specs.Prelude.{◌≡◌, ◌==◌, ℕ, None, Some, OnOk, if◌then◌else◌};
ghost use Rattle.std.specs.Option.{option_copied};
ghost use Rattle.pce_common.specs.Waiting.{one_more, waiter_at};

use dom_base::NoMemory;
use std::alloc::Global;
use std::collections::BTreeMap;

/// Who waits for the answer to an id.
#[derive(Clone, Copy)]
pub enum Waiter {
    /// The request of this number, and no other.
    One(u64),
    Several,
}

/// Who waits for the answers of a peer, by the ids that were sent to it. Each id is found without a walk over
/// the requests.
#[derive(Drop)]
pub struct Waiters {
    by_id: BTreeMap<u32, Waiter>,
}

// With one more, of a number.
fn one_more(number: u64, before: Option<&Waiter>) -> Waiter
    ensures { result ≡ one_more number (option_copied before.entry) }
{
    match before {
        None => Waiter::One(number),
        Some(Waiter::One(one)) if *one == number => Waiter::One(number),
        Some(_) => Waiter::Several,
    }
}

impl Waiters {
    /// Nobody waits.
    pub fn new(alloc: Global) -> Waiters
        ensures { (id : ℕ) → waiter_at result id ≡ None }
    {
        Waiters {
            by_id: BTreeMap::new(alloc),
        }
    }

    /// Who waits for the answer to an id; takes no memory.
    pub fn at(&self, id: u32) -> Option<Waiter>
        ensures { result ≡ waiter_at self.now id }
    {
        self.by_id.get(&id).copied()
    }

    /// The request of a number waits for the answer to an id.
    pub fn add(&mut self, id: u32, number: u64) -> Result<(), NoMemory>
        ensures { OnOk result ((other : ℕ) → waiter_at self.new other ≡ (if id == other then Some (one_more number (waiter_at self.old other)) else waiter_at self.old other)) }
    {
        let waiter = one_more(number, self.by_id.get(&id));
        self.by_id.insert(id, waiter)?;
        Ok(())
    }
}
